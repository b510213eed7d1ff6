//! Programs with the texts of their least certificates.

ghost use Rattle.std.specs.Prelude.{◌≡◌};
ghost use Rattle.program_commands.specs.Texts.{with_text};
ghost use Rattle.rank_make.specs.Ranked.{AreRanksOf};

use meta_model::Meta;
use rank_make::Ranks;
use std::marker::Model;

/// A program that loads, with the text of its least valid certificate and the ranks of which that was made. Contracts see the
/// program and the text, and the ranks by their call.
pub struct Certified {
    meta: Meta,
    text: Vec<u8>,
    ranks: Ranks,
}

impl Drop for Certified {
    fn drop(self) {
        let Certified {
            meta: _,
            text: _,
            ranks: _,
        } = self;
    }
}

impl Model for Certified {
    ghost use Rattle.program_commands.specs.Texts.{ProgramText};
    ghost use Rattle.rank_make.specs.Ranked.{AreRanksOf};
    ghost use Rattle.std.specs.Coded.{codes};
    ghost use Rattle.syntax_trees.specs.contracts.syntax.Expr as expr;
    ghost use Rattle.meta_model.specs.contracts.object.Statement as statement;
    ghost use Rattle.meta_model.specs.contracts.site.SourceProperty as source;

    ghost Value = { ProgramText };

    ghost coded = { Prim.hlevel (codes, statement.the_row.coded, (expr.the_row source.the_row).coded) };

    ghost view = { λ certified. record {
      program = certified.meta;
      text = certified.text.items;
    } };

    ghost invariant = { λ certified. AreRanksOf certified.meta certified.ranks };
}

impl Certified {
    /// The program with this text and its ranks.
    pub(crate) fn new(meta: Meta, text: Vec<u8>, ranks: Ranks) -> Certified
        requires { AreRanksOf meta ranks }
        ensures { result ≡ with_text meta text.items }
    {
        Certified { meta, text, ranks }
    }

    /// The program.
    pub fn meta(&self) -> &Meta
        ensures { result.now ≡ self.now.program }
    {
        &self.meta
    }

    /// The text of its least valid certificate.
    pub fn text(&self) -> &[u8]
        ensures { result.now ≡ self.now.text }
    {
        self.text.as_slice()
    }

    /// Its ranks.
    pub fn ranks(&self) -> &Ranks
        ensures { AreRanksOf self.now.program result.now }
    {
        &self.ranks
    }
}
