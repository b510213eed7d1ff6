//! Texts that are refused.

use certificate_lang::CertificateFault;
use class_lang::Limits;
use diagnostics::{Flaw, TextPlace, meaning};
use findings::{Finding, FindingSeverity, JudgedText, Rule, Verdict};
use program_commands::Refusal;
use program_flaws::{FurtherFlaw, declaration_flaw, further_declaration_flaws};
use std::alloc::{AllocError, Global};
use text_flaws::{certificate_flaws, further_program_flaws, program_flaw};

/// Why the program is refused, for which this is the reason, and which was read by these limits.
pub fn refusal_finding(
    alloc: Global,
    limits: Limits,
    text: &[u8],
    refusal: &Refusal,
) -> Result<Finding, AllocError> {
    let Some(number) = refusal.number() else {
        return Err(AllocError);
    };
    let kind = JudgedText::Program;
    let flaw = match refusal {
        Refusal::Text(_) => program_flaw(alloc, limits, text, number)?,
        Refusal::Loading(unloaded) => match unloaded.offence() {
            Some(offence) => declaration_flaw(alloc, text, offence)?,
            None => None,
        },
        _ => None,
    };
    let rule = Rule::of_refusal(number);
    match flaw {
        Some(flaw) => flaw_finding(alloc, text, rule, kind, flaw),
        None => unplaced_finding(alloc, number, kind),
    }
}

/// What is wrong with the lines of a certificate that isn't read for this reason, one finding for each.
pub fn certificate_findings(
    alloc: Global,
    text: &[u8],
    fault: CertificateFault,
) -> Result<Vec<Finding>, AllocError> {
    let Some(number) = fault.number() else {
        return Err(AllocError);
    };
    let kind = JudgedText::Certificate;
    let mut findings = Vec::new(alloc);
    for flaw in certificate_flaws(alloc, text, MOST_TOLD)? {
        findings.push(flaw_finding(alloc, text, Rule::of_refusal(number), kind, flaw)?)?;
    }
    if findings.is_empty() {
        findings.push(unplaced_finding(alloc, number, kind)?)?;
    }
    Ok(findings)
}

/// So many flaws of a text are told.
const MOST_TOLD: usize = 20;

/// So many are told behind the first one.
const MOST_FURTHER: usize = MOST_TOLD - 1;

/// Adds what else is wrong with the program, which is refused so, as far as that can be told apart.
pub fn add_further(
    alloc: Global,
    text: &[u8],
    refusal: &Refusal,
    found: &mut Verdict,
) -> Result<(), AllocError> {
    let kind = JudgedText::Program;
    if let Refusal::Text(_) = refusal {
        let number = refusal.number().unwrap_or(0);
        for flaw in further_program_flaws(alloc, text, number, MOST_FURTHER)? {
            let finding = flaw_finding(alloc, text, Rule::of_refusal(number), kind, flaw)?;
            found.push(FindingSeverity::Error, finding)?;
        }
        return Ok(());
    }
    for further in further_declaration_flaws(alloc, text, MOST_FURTHER)? {
        let FurtherFlaw { number, flaw } = further;
        let finding = flaw_finding(alloc, text, Rule::of_refusal(number), kind, flaw)?;
        found.push(FindingSeverity::Error, finding)?;
    }
    Ok(())
}

/// That a text is refused with this number, at its beginning.
fn unplaced_finding(alloc: Global, number: u8, kind: JudgedText) -> Result<Finding, AllocError> {
    Ok(Finding {
        rule: Rule::of_refusal(number),
        message: String::from_str(alloc, meaning(number).unwrap_or(""))?,
        help: None,
        text: kind,
        place: Some(TextPlace { line: 1, column: 1 }),
        chain: Vec::new(alloc),
    })
}

/// The flaw as a finding.
fn flaw_finding(
    alloc: Global,
    text: &[u8],
    rule: Rule,
    kind: JudgedText,
    flaw: Flaw,
) -> Result<Finding, AllocError> {
    let Flaw {
        at,
        sentence,
        advice,
    } = flaw;
    Ok(Finding {
        rule,
        place: Some(TextPlace::of(text, at.min(text.len()))),
        message: sentence,
        help: advice,
        text: kind,
        chain: Vec::new(alloc),
    })
}
