//! How the node of a line is written.

use crate::names::{sig_text, text_of};
use rank_check::{MemberName, NodeName};
use std::alloc::{AllocError, Global};

/// A node as the certificate names it.
pub fn node_name_text(alloc: Global, node: &NodeName) -> Result<String, AllocError> {
    let class = text_of(alloc, node.class.bytes())?;
    match &node.member {
        MemberName::Method(sig) => {
            let sig = sig_text(alloc, sig)?;
            format!(in alloc; "{class}.{sig}")
        }
        MemberName::Property(name) => {
            let name = text_of(alloc, name.bytes())?;
            format!(in alloc; "{class}.{name}")
        }
        MemberName::Destruction => format!(in alloc; "~{class}"),
    }
}
