//! The declaration of a program that breaks a rule.

ghost use Rattle.std.specs.Prelude.{◌≤◌, length, IfOk, IfSome};

use crate::declarations::finding::DeclarationFlaw;
use crate::declarations::likely::likely;
use crate::declarations::words::ReportedOffence;
use crate::source::ReadProgram;
use class_outlines::Offence;
use diagnostics::Flaw;
use std::alloc::{AllocError, Global};

/// What is wrong with the declaration for which loading refuses a program of this text. The place is that of the name that is
/// wrong. `None` where the text is no program.
pub fn declaration_flaw(
    alloc: Global,
    text: &[u8],
    offence: &Offence,
) -> Result<Option<Flaw>, AllocError>
    ensures { IfOk result (λ flaw. IfSome flaw (λ f. f.at ≤ length text.now)) }
{
    let Some(read) = ReadProgram::of(alloc, text)? else {
        return Ok(None);
    };
    let Some(told) = ReportedOffence::of(alloc, &read, offence.declaration, offence.name) else {
        return Ok(None);
    };
    let flaw = told_flaw(&told, offence)?;
    Ok(Some(flaw.within(0, text.len())))
}

/// The flaw, in words.
pub fn told_flaw(told: &ReportedOffence, offence: &Offence) -> Result<Flaw, AllocError> {
    let finding = told.finding(offence)?;
    let advice = advice_on(told, offence, &finding)?;
    told.flaw(finding.sentence.as_str(), advice)
}

/// What to write instead: what is known of it, else a name that is like the one that is wrong.
fn advice_on(
    told: &ReportedOffence,
    offence: &Offence,
    finding: &DeclarationFlaw,
) -> Result<Option<String>, AllocError> {
    if finding.advice.is_none()
        && let Some(advice) = likely(told, &offence.reason)?
    {
        return Ok(Some(advice));
    }
    match finding.advice.or(finding.otherwise) {
        Some(advice) => Ok(Some(String::from_str(told.alloc, advice)?)),
        None => Ok(None),
    }
}
