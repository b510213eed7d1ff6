//! Names with places, and indexes of what is found by its name and its number of parameters: those of a class share
//! those of its base.
#![tactic(auto)]

mod call_index;
mod called;
mod layer;
mod name_index;
mod name_marks;
mod twins;

pub use call_index::{CallIndex, index_all, index_calls};
pub use called::Called;
pub use name_index::NameIndex;
pub use twins::{Twins, find_twins};
