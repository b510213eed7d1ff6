//! What is wrong with a text, and where.

ghost use Rattle.std.specs.Prelude.{◌≡◌, ◌+◌, min, IfOk};

use std::alloc::{AllocError, Global};

/// What is wrong with a text, and where.
#[derive(Drop)]
pub struct Flaw {
    /// The byte of the text, counted from 0, or its end.
    pub at: usize,
    /// What is wrong there, in one sentence.
    pub sentence: String,
    /// What to write instead, where that is known.
    pub advice: Option<String>,
}

impl Flaw {
    /// This sentence, with what to write instead.
    pub fn with_advice(
        alloc: Global,
        at: usize,
        sentence: String,
        advice: Option<&str>,
    ) -> Result<Flaw, AllocError>
        ensures place { IfOk result (λ flaw. flaw.at ≡ at) }
        ensures said { IfOk result (λ flaw. flaw.sentence ≡ sentence) }
    {
        let advice = match advice {
            Some(advice) => Some(String::from_str(alloc, advice)?),
            None => None,
        };
        Ok(Flaw {
            at,
            sentence,
            advice,
        })
    }

    /// The flaw of a part of a text, which goes from one byte to another, as one of the text: it is in that part, or at
    /// its end.
    pub fn within(self, begin: usize, end: usize) -> Flaw
        ensures place { result.at ≡ min (begin + self.at) end }
        ensures said { result.sentence ≡ self.sentence }
        ensures advised { result.advice ≡ self.advice }
    {
        let Flaw {
            at,
            sentence,
            advice,
        } = self;
        Flaw {
            at: begin.saturating_add(at).min(end),
            sentence,
            advice,
        }
    }
}
