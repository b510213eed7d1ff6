//! The texts of an input.

ghost use Rattle.std.specs.Prelude.{[], ◌∷◌, IfSome, MatchOption};
ghost use Rattle.command_lines.specs.Cut.{IsParted, IsWholeInput, AreTexts, AreOnly, IsNoText, AreNotTwo, AreNotThree};

use texts::split_at_line;

/// The line that parts two texts.
const PARTING: &[u8] = b"%%";

/// The one text of an input that has no line `%%`.
pub fn one_text(input: &[u8]) -> Option<&[u8]>
    ensures cut { MatchOption result (IsNoText input.now)
        (λ text. AreTexts input.now (text.now ∷ [])) }
    ensures only { IfSome result (λ text. AreOnly input.now (text.now ∷ [])) }
{
    let (text, after) = first_text(input);
    match after {
        Some(_) => None,
        None => Some(text),
    }
}

/// The two texts of an input that has just one line `%%`.
pub fn two_texts(input: &[u8]) -> Option<(&[u8], &[u8])>
    ensures cut { MatchOption result (AreNotTwo input.now)
        (λ texts. AreTexts input.now (texts.0.now ∷ texts.1.now ∷ [])) }
    ensures only { IfSome result (λ texts.
        AreOnly input.now (texts.0.now ∷ texts.1.now ∷ [])) }
{
    let (first, after) = first_text(input);
    let rest = after?;
    let (second, beyond) = first_text(rest);
    if beyond.is_some() {
        return None;
    }
    Some((first, second))
}

/// The three texts of an input that has just two lines `%%`.
pub fn three_texts(input: &[u8]) -> Option<(&[u8], &[u8], &[u8])>
    ensures cut { MatchOption result (AreNotThree input.now)
        (λ texts. AreTexts input.now (texts.0.now ∷ texts.1.now ∷ texts.2.now ∷ [])) }
    ensures only { IfSome result (λ texts.
        AreOnly input.now (texts.0.now ∷ texts.1.now ∷ texts.2.now ∷ [])) }
{
    let (first, after) = first_text(input);
    let rest = after?;
    let (second, third) = two_texts(rest)?;
    Some((first, second, third))
}

/// The first text, and what comes after the line `%%` that ends it, if one does.
fn first_text(input: &[u8]) -> (&[u8], Option<&[u8]>)
    ensures { MatchOption result.1 (IsWholeInput input.now result.0.now)
        (λ rest. IsParted input.now result.0.now rest.now) }
{
    match split_at_line(input, PARTING) {
        Some((text, rest)) => (text, Some(rest)),
        None => (input, None),
    }
}
