//! The activations that a trace tells of.

use std::alloc::{AllocError, Global};
use trace_entries::{Entry, EntryKind};

/// The places in a trace of the entries with which the activations were begun that are active at its end, the outermost first.
/// Where one has ended it is only known once the trace goes on further outside.
pub fn active(alloc: Global, trace: &[Entry]) -> Result<Vec<usize>, AllocError> {
    let mut active = Vec::new(alloc);
    for (place, entry) in trace.iter().enumerate() {
        match entry {
            Entry::Accepted(_) | Entry::Refused(_, _) => active.clear(),
            Entry::At(depth, kind) if begins(kind) => {
                active.truncate(depth.saturating_sub(1));
                active.push(place)?;
            }
            Entry::At(depth, _) => active.truncate(*depth),
        }
    }
    Ok(active)
}

/// Whether an activation begins with it, which is the innermost one then. A set of a group takes the group's place.
fn begins(kind: &EntryKind) -> bool {
    match kind {
        EntryKind::Emitted { .. }
        | EntryKind::Called { .. }
        | EntryKind::Written { .. }
        | EntryKind::Bound { .. }
        | EntryKind::Died { .. }
        | EntryKind::Grouped => true,
        EntryKind::Answered { .. }
        | EntryKind::Followed { .. }
        | EntryKind::Posted { .. }
        | EntryKind::Scheduled { .. }
        | EntryKind::OnNull
        | EntryKind::Connected(_, _)
        | EntryKind::Disconnected(_)
        | EntryKind::Refused(_) => false,
    }
}
