//! What a misspelled name was to be.

ghost use Rattle.std.specs.Prelude.{map, IfOk, IfSome};
ghost use Rattle.diagnostics.specs.Likely.{FindsEdits, IsLikely};

use crate::printed::Printed;
use std::alloc::{AllocError, Global};
use std::str;
use strsim::osa_distance;

/// Names with more bytes are compared with none.
const MOST_BYTES: usize = 64;

/// The first of the words that differ the least from a name, if they do so in at most a third of its letters; two that change
/// places differ in one.
pub fn nearest<'a>(
    alloc: Global,
    name: &[u8],
    words: &[&'a [u8]],
) -> Result<Option<&'a [u8]>, AllocError>
    ensures { IfOk result (λ found. IfSome found (λ word. IsLikely name.now (map (λ w. w.now) words.now) word.now)) }
{
    let mut found = None;
    let mut least = name.len() / 3;
    let Ok(name) = str::from_utf8(name) else {
        return Ok(None);
    };
    if name.len() > MOST_BYTES {
        return Ok(None);
    }
    for word in words {
        let Some(edits) = edits_within(alloc, name, word, least)? else {
            continue;
        };
        // The first one counts of those that differ as little.
        if found.is_none() || edits < least {
            found = Some(*word);
            least = edits;
        }
    }
    Ok(found)
}

/// That the word may be meant which differs the least from a name, if one does so in few letters.
pub fn did_you_mean(
    alloc: Global,
    name: &[u8],
    words: &[&[u8]],
) -> Result<Option<String>, AllocError> {
    match nearest(alloc, name, words)? {
        Some(word) => {
            let word = Printed(word);
            let text = format!(in alloc; "did you mean `{word}`?")?;
            Ok(Some(text))
        }
        None => Ok(None),
    }
}

/// How many letters of a word differ from a name's, if they are so few at most.
fn edits_within(
    alloc: Global,
    name: &str,
    word: &[u8],
    most: usize,
) -> Result<Option<usize>, AllocError>
    ensures { IfOk result (FindsEdits name.now word.now most) }
{
    let Ok(other) = str::from_utf8(word) else {
        return Ok(None);
    };
    if word.len().abs_diff(name.len()) > most {
        return Ok(None);
    }
    let edits = osa_distance(alloc, name, other)?;
    Ok(if edits <= most { Some(edits) } else { None })
}
