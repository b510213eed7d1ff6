//! The lines of a script that have events.

ghost use Rattle.std.specs.Prelude.{◌≡◌, IfOk, option_map};
ghost use Rattle.traces.specs.Statements.{AreStatements, statement_of};

use diagnostics::has_tokens;
use std::alloc::{AllocError, Global};
use std::marker::Model;
use texts::split_line;

/// The lines of a script that have events, in their order: those that are neither blank nor a comment, each without the white
/// space at its two ends.
#[derive(Drop)]
pub struct Statements<'s> {
    lines: Vec<&'s [u8]>,
}

impl<'s> Model for Statements<'s> {
    ghost use Rattle.std.specs.Prelude.{ℕ, List, map};

    ghost Value = { List (List ℕ) };

    ghost view = { λ statements. map (λ line. line.now) statements.lines.items };
}

impl<'s> Statements<'s> {
    /// Those of this script.
    pub fn of(alloc: Global, script: &'s [u8]) -> Result<Statements<'s>, AllocError>
        ensures { IfOk result (AreStatements script.now) }
    {
        let mut lines = Vec::new(alloc);
        let mut left = script;
        while let Some((line, rest)) = split_line(left) {
            if has_tokens(alloc, line)? {
                lines.push(line.trim_ascii())?;
            }
            left = rest;
        }
        Ok(Statements { lines })
    }

    /// The line of an event, which are counted from 1; `None` where the script has fewer.
    pub fn line(&self, event: u64) -> Option<&'s [u8]>
        ensures { option_map (λ line. line.now) result ≡ statement_of self.now event }
    {
        if event == 0 {
            return None;
        }
        self.lines.get((event - 1) as usize).copied()
    }
}
