//! Wires that don't fit, and literals, bodies and bindings that aren't typed.

use crate::program::located::Located;
use crate::program::sentences::MessageWithHelp;
use diagnostics::TextPlace;
use effect_scan::Node;
use findings::{Finding, JudgedText, Rule, Verdict};
use program_flaws::{flaw_text, unfit_text};
use std::alloc::AllocError;
use type_check::{Spot, flaw_at, is_fit};

/// Adds each wire whose method doesn't fit its signal.
pub fn gather_wires(located: Located<'_>, found: &mut Verdict) -> Result<(), AllocError> {
    let meta = located.source.meta;
    for (place, wire) in meta.wires().iter().enumerate() {
        if !is_fit(meta, wire)
            && let Some(severity) = found.taken(
                Rule::WireTypes,
                located.levels.of(Rule::WireTypes),
            )
        {
            let text = unfit_text(located.source, place)?;
            let at = located.places.wire(place);
            let finding = finding(located, Rule::WireTypes, text.as_str(), at)?;
            found.push(severity, finding)?;
        }
    }
    Ok(())
}

/// Adds each member and each binding that isn't typed; members where they are declared.
pub fn gather_types(
    located: Located<'_>,
    nodes: &[Node],
    found: &mut Verdict,
) -> Result<(), AllocError> {
    for node in nodes {
        if located.is_own(*node) {
            gather_type(located, Spot::Node(*node), found)?;
        }
    }
    for place in 0..located.source.meta.sites().len() {
        gather_type(located, Spot::Binding(place), found)?;
    }
    Ok(())
}

/// Adds what isn't typed at the spot, if something isn't.
fn gather_type(located: Located<'_>, spot: Spot, found: &mut Verdict) -> Result<(), AllocError> {
    let source = located.source;
    if let Some(flaw) = flaw_at(source.alloc, source.meta, spot)? {
        if let Some(severity) = found.taken(Rule::IllTyped, located.levels.of(Rule::IllTyped)) {
            let text = flaw_text(source, spot, flaw)?;
            let at = spot_place(located, spot, flaw.statement);
            let finding = finding(located, Rule::IllTyped, text.as_str(), at)?;
            found.push(severity, finding)?;
        }
    }
    Ok(())
}

/// Where the spot stands, or the statement of this number in it.
fn spot_place(located: Located<'_>, spot: Spot, statement: Option<usize>) -> Option<TextPlace> {
    match (spot, statement) {
        (Spot::Node(node), Some(number)) => located.statement_place(node, number),
        (Spot::Node(node), None) => located.node_place(node),
        (Spot::Binding(place), _) => located.places.site(place),
    }
}

/// A finding without steps, of the text's first line and its advice.
fn finding(
    located: Located<'_>,
    rule: Rule,
    text: &str,
    place: Option<TextPlace>,
) -> Result<Finding, AllocError> {
    let told = MessageWithHelp::of(located.source.alloc, text)?;
    Ok(Finding {
        rule,
        message: told.message,
        help: told.help,
        text: JudgedText::Program,
        place,
        chain: Vec::new(located.source.alloc),
    })
}
