//! Sentences of findings.

use effect_scan::Node;
use meta_model::Meta;
use program_flaws::node_text;
use std::alloc::{AllocError, Global};

/// So many members are named in a sentence.
const MOST_NAMED: usize = 4;

/// How the lines begin that say what to do.
const HELP: &str = "help: ";

/// A sentence, and what to do.
#[derive(Drop)]
pub struct MessageWithHelp {
    pub message: String,
    pub help: Option<String>,
}

impl MessageWithHelp {
    /// The first line of the text, and that of its lines which says what to do.
    pub fn of(alloc: Global, text: &str) -> Result<MessageWithHelp, AllocError> {
        let mut message = String::new(alloc);
        let mut help = None;
        for (place, line) in text.lines().enumerate() {
            if let Some(advice) = line.strip_prefix(HELP) {
                help = Some(String::from_str(alloc, advice)?);
            } else if place == 0 {
                message.push_str(line)?;
            }
        }
        Ok(MessageWithHelp { message, help })
    }
}

/// Why what is said of calls and values may be a false alarm, and what to do then.
pub const MAY_BE_FALSE: &str =
    "This may be a false alarm: where values come to rest, or the objects are never the same, use a `queued` wire, or a class for each role";

/// Why what is said of bindings may be one.
pub const BINDINGS_MAY_BE_FALSE: &str =
    "This may be a false alarm: where the objects are never the same, declare a class for each role";

/// Why what is said of a deletion may be one.
pub const DELETION_MAY_BE_FALSE: &str =
    "This may be a false alarm: where the object is never the one that is deleted, declare a class for each role";

/// What to do about a finding, and why it may be a false alarm.
pub fn doubted_help(
    alloc: Global,
    advice: &str,
    doubt: &str,
) -> Result<Option<String>, AllocError> {
    let help = format!(in alloc; "{advice}. {doubt}")?;
    Ok(Some(help))
}

/// Adds the names of the nodes, or of the first of them, and how many more there are.
pub fn push_names(
    text: &mut String,
    alloc: Global,
    meta: &Meta,
    nodes: &[Node],
) -> Result<(), AllocError> {
    let more = nodes.len().saturating_sub(MOST_NAMED);
    for (place, node) in nodes.iter().take(MOST_NAMED).enumerate() {
        let is_last = more == 0 && place.saturating_add(1) == nodes.len();
        let joint = match place {
            0 => "",
            _ if is_last => " and ",
            _ => ", ",
        };
        let name = node_text(alloc, meta, *node)?;
        write!(text, "{joint}`{name}`")?;
    }
    if more > 0 {
        write!(text, " and {more} more")?;
    }
    Ok(())
}
