//! What is said behind a line.

use crate::reading::{LineKind, TraceLine};
use diagnostics::meaning;

/// What the number of a refusal or a fault means, of which a line tells; `None` for other lines, and for a number that isn't
/// given.
pub fn remark(told: TraceLine) -> Option<&'static str> {
    match told {
        TraceLine::Refused(_, reason) => meaning(reason),
        TraceLine::At(_, LineKind::Refused(reason)) => meaning(reason),
        TraceLine::Fault(fault) => meaning(fault),
        TraceLine::Accepted(_) | TraceLine::At(_, _) => None,
    }
}
