//! Circles that come to rest: which ways between members hand one value on unchanged, and whether a certificate that names sets
//! of members along which they do is valid for a program.
#![tactic(auto)]

mod bodies;
mod certificate;
mod checked;
mod destroy_sets;
mod edges;
mod falling;
mod holding;
mod judging;
mod laws;
mod lines;
mod members;
mod nodes;
mod places;
mod resting;
mod spans;
mod standings;
mod statements;
mod tables;

pub use certificate::{SettlingCertificate, SettlingLine, SettlingSet};
pub use checked::{Checked, check};
pub use edges::hand_on;
pub use judging::judge;
pub use laws::{each_has_alike, nothing_follows, others_stay, sets_settle, stacks_are_shallow};
pub use nodes::carries;
pub use spans::{Span, spans_of};
pub use standings::Standing;
