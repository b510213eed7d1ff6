//! What is found to be wrong with a declaration.

use crate::declarations::sentence::{SentencePiece, sentence};
use std::alloc::{AllocError, Global};

/// What is wrong with a declaration.
#[derive(Drop)]
pub struct DeclarationFlaw {
    /// What is wrong with it, in one sentence.
    pub sentence: String,
    /// What to write instead, where that is known.
    pub advice: Option<&'static str>,
    /// What to write where that isn't known, and no name that could stand there is like the wrong one.
    pub otherwise: Option<&'static str>,
}

impl DeclarationFlaw {
    /// The same, with what to write where nothing better is known.
    pub fn or(self, otherwise: &'static str) -> DeclarationFlaw {
        let DeclarationFlaw {
            sentence,
            advice,
            ..
        } = self;
        DeclarationFlaw {
            sentence,
            advice,
            otherwise: Some(otherwise),
        }
    }
}

/// This sentence, with what to write instead.
pub fn found(
    alloc: Global,
    pieces: &[SentencePiece],
    advice: Option<&'static str>,
) -> Result<DeclarationFlaw, AllocError> {
    let sentence = sentence(alloc, pieces)?;
    Ok(DeclarationFlaw {
        sentence,
        advice,
        otherwise: None,
    })
}
