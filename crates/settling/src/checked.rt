//! Whether a settling certificate is valid for a program.

ghost use Rattle.std.specs.Prelude.{◌≡◌};
ghost use Rattle.settling.specs.Checks.{Checks};
ghost use Rattle.settling.specs.Valid.{IsValid};

use crate::certificate::SettlingCertificate;
use crate::judging::judge;
use meta_model::Meta;
use rank_check::No;
use std::alloc::Global;
use std::marker::Model;
use std::snapshot::Snapshot;

/// A program that loads, with a settling certificate that is valid for it. Contracts see both; of the certificate the bound and
/// the step alone are kept.
pub struct Checked {
    meta: Meta,
    bound: u32,
    step: u32,
    certificate: Snapshot<SettlingCertificate>,
}

impl Drop for Checked {
    fn drop(self) {
        let Checked {
            meta: _,
            bound: _,
            step: _,
            certificate: _,
        } = self;
    }
}

impl Model for Checked {
    ghost use Rattle.settling.specs.Checks.{Checking};
    ghost use Rattle.settling.specs.Valid.{IsValid};
    ghost use Rattle.std.specs.Prelude.{◌≡◌};
    ghost use Rattle.std.specs.Coded.{codes};
    ghost use Rattle.syntax_trees.specs.contracts.syntax.Expr as expr;
    ghost use Rattle.meta_model.specs.contracts.object.Statement as statement;
    ghost use Rattle.meta_model.specs.contracts.site.SourceProperty as source;

    ghost Value = { Checking };

    ghost coded = { Prim.hlevel (codes, statement.the_row.coded, (expr.the_row source.the_row).coded) };

    ghost view = { λ checked. record { program = checked.meta; certificate = checked.certificate.value } };

    ghost invariant = { λ checked.
        IsValid checked.meta checked.certificate.value
        × (checked.bound ≡ checked.certificate.value.bound)
        × (checked.step ≡ checked.certificate.value.step) };
}

impl Checked {
    /// The program with a certificate, which isn't needed any more.
    fn new(meta: Meta, certificate: SettlingCertificate) -> Checked
        requires { IsValid meta certificate }
        ensures program { result.program ≡ meta }
        ensures certificate { result.certificate ≡ certificate }
    {
        Checked {
            meta,
            bound: certificate.bound,
            step: certificate.step,
            certificate: Snapshot::of(&certificate),
        }
    }

    /// The program.
    pub fn meta(&self) -> &Meta
        ensures value { result.now ≡ self.now.program }
        ensures valid { IsValid self.now.program self.now.certificate }
    {
        &self.meta
    }

    /// The certificate's bound.
    pub fn bound(&self) -> u32
        ensures { result ≡ self.now.certificate.bound }
    {
        self.bound
    }

    /// The certificate's step: how much deeper activations may nest for each object that was made.
    pub fn step(&self) -> u32
        ensures { result ≡ self.now.certificate.step }
    {
        self.step
    }

    /// The program, without the certificate.
    pub fn into_meta(self) -> Meta
        ensures { result ≡ self.program }
    {
        let Checked {
            meta,
            bound: _bound,
            step: _step,
            certificate: _certificate,
        } = self;
        meta
    }
}

/// Whether the certificate is valid for the program, judged on both alone; else the first condition that doesn't hold, as `judge`
/// tells it.
pub fn check(alloc: Global, meta: Meta, certificate: SettlingCertificate) -> Result<Checked, No>
    ensures { Checks meta certificate result }
{
    match judge(alloc, &meta, &certificate) {
        Ok(_) => Ok(Checked::new(meta, certificate)),
        Err(reason) => Err(reason),
    }
}
