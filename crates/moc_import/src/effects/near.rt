//! Which name may have been meant.

use std::alloc::{AllocError, Global};
use strsim::levenshtein;

/// A name has at most so many bytes to be looked for.
const LONGEST: usize = 64;

/// The nearest so far of the names that are looked at, if a few letters make it of the one that is written: one, or a third of
/// them.
#[derive(Clone, Copy)]
pub struct NearestName<'n> {
    written: &'n str,
    nearest: Option<(&'n str, usize)>,
}

impl<'n> NearestName<'n> {
    /// No name is looked at yet.
    pub fn to(written: &'n str) -> NearestName<'n> {
        NearestName {
            written,
            nearest: None,
        }
    }

    /// Looks at a name.
    pub fn look_at(&mut self, alloc: Global, name: &'n str) -> Result<(), AllocError> {
        let written = self.written;
        let most = (written.len() / 3).max(1);
        if written.len() > LONGEST || name.len().abs_diff(written.len()) > most {
            return Ok(());
        }
        let edits = levenshtein(alloc, written, name)?;
        let is_nearer = match self.nearest {
            Some((_, least)) => edits < least,
            None => edits <= most,
        };
        if is_nearer {
            self.nearest = Some((name, edits));
        }
        Ok(())
    }

    /// The parts of the question whether the nearest one was meant, if there is one.
    pub fn question(self) -> [&'n str; 3] {
        match self.nearest {
            Some((name, _)) => [": did you mean `", name, "`?"],
            None => ["", "", ""],
        }
    }
}
