//! What is wrong with a certificate, beside its program.

use crate::program::{Located, MessageWithHelp};
use crate::refusal::certificate_findings;
use certificate_lang::{Certificate, read_certificate};
use effect_scan::Numbering;
use findings::{Finding, JudgedText, Rule, Verdict};
use program_flaws::{cause_place, cause_text};
use rank_check::{Cause, Mistake, judge};
use std::alloc::AllocError;

/// Adds why the certificate can't be read, or isn't valid for the program, where that lies in the certificate.
pub fn gather_certificate(
    located: Located<'_>,
    text: &[u8],
    found: &mut Verdict,
) -> Result<(), AllocError> {
    let alloc = located.source.alloc;
    let certificate = match read_certificate(alloc, text) {
        Ok(certificate) => certificate,
        Err(fault) => {
            for finding in certificate_findings(alloc, text, fault)? {
                push(located, found, finding)?;
            }
            return Ok(());
        }
    };
    match judge(alloc, located.source.meta, &certificate) {
        Ok(()) => Ok(()),
        Err(cause) => gather_cause(located, text, &certificate, cause, found),
    }
}

/// Adds what breaks a condition of the check, where that lies in the certificate, which has this text.
pub fn gather_cause(
    located: Located<'_>,
    text: &[u8],
    certificate: &Certificate,
    cause: Cause,
    found: &mut Verdict,
) -> Result<(), AllocError> {
    match cause {
        Cause::Memory => Err(AllocError),
        Cause::Wire(_) | Cause::BodyType(_) => Ok(()),
        cause => {
            let finding = cause_finding(located, text, certificate, cause)?;
            push(located, found, finding)
        }
    }
}

fn push(located: Located<'_>, found: &mut Verdict, finding: Finding) -> Result<(), AllocError> {
    match found.taken(finding.rule, located.levels.of(finding.rule)) {
        Some(severity) => found.push(severity, finding),
        None => Ok(()),
    }
}

/// What breaks a condition, which is one of those on the certificate.
fn cause_finding(
    located: Located<'_>,
    text: &[u8],
    certificate: &Certificate,
    cause: Cause,
) -> Result<Finding, AllocError> {
    let alloc = located.source.alloc;
    let reason = cause_text(located.source, text, certificate, cause)?;
    let told = MessageWithHelp::of(alloc, reason.as_str())?;
    let mut chain = Vec::new(alloc);
    if let Some((from, to)) = edge_of(cause) {
        let numbering = Numbering::of(alloc, located.source.meta.classes())?;
        let nodes = numbering.nodes();
        if let (Some(from), Some(to)) = (nodes.get(from), nodes.get(to)) {
            chain.push(located.step(*from, *to)?)?;
        }
    }
    Ok(Finding {
        rule: rule_of(cause),
        message: told.message,
        help: told.help,
        text: JudgedText::Certificate,
        place: Some(cause_place(alloc, text, cause)?),
        chain,
    })
}

/// The rule whose condition it breaks.
pub fn rule_of(cause: Cause) -> Rule {
    match cause {
        Cause::Wire(_) => Rule::WireTypes,
        Cause::BodyType(_) => Rule::IllTyped,
        Cause::Missing(_) => Rule::CertificateMissing,
        Cause::Extra(_) => Rule::CertificateExtra,
        Cause::Edge(_) => Rule::CertificateRank,
        Cause::Destroys(_) => Rule::CertificateSet,
        Cause::Bound(_) | Cause::Memory => Rule::CertificateBound,
    }
}

/// The numbers of the nodes of the edge that it is about.
fn edge_of(cause: Cause) -> Option<(usize, usize)> {
    match cause {
        Cause::Edge(rise) => Some((rise.from.node, rise.to.node)),
        Cause::Destroys(Mistake::Lost(from, to, _)) => Some((from.node, to.node)),
        _ => None,
    }
}
