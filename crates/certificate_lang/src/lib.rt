//! Certificates and their texts, and that what is written of a certificate is read as that certificate.
#![tactic(auto)]

mod certificate;
mod fault;
mod laws;
mod reader;
mod syntax;
mod version;

pub use certificate::{Certificate, Line, MemberName, NodeName, SetItem};
pub use fault::CertificateFault;
pub use laws::{one_node, texts_are_read};
pub use reader::{Row, next_row, one_reading, read_certificate, row_trail};
pub use syntax::{has_few_parameters, read_node, read_set_items, read_setting};
pub use version::Version;
