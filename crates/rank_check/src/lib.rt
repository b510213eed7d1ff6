//! Whether a certificate is valid for a program.
#![tactic(auto)]

mod causes;
mod checked;
mod denied;
mod destroys;
mod entries;
mod judging;
mod naming;
mod no;
mod places;
mod ranks;
mod sets;
mod twins;

pub use causes::{Cause, Extra, Loose, Mistake, NodeLine, Rise};
pub use certificate_lang::{
    Certificate, CertificateFault, Line, MemberName, NodeName, SetItem, read_certificate,
};
pub use checked::{Checked, check, examine};
pub use class_sets::ClassSet;
pub use denied::Denied;
pub use destroys::{has_body, runs_body};
pub use judging::{judge, judge_program};
pub use naming::node_number;
pub use no::No;
pub use ranks::MOST_BOUND;
pub use sets::destroy_set;
pub use type_check::{Spot, unfit_wire, untyped};
