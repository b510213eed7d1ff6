//! What the readers of all languages share: the cursor over tokens, lists, types, signatures, literals and connections.
#![tactic(auto)]

mod connection;
mod cursor;
mod fault;
mod lists;
mod literal;
mod signature;
mod trail;
mod wanted;

pub use connection::both_ends;
pub use cursor::Cursor;
pub use fault::ParseFault;
pub use lists::{Part, list, list_after};
pub use literal::{GREATEST, unsigned_literal};
pub use signature::{
    TypePart, has_plain_reference, one_normal_form_of_signatures, one_normal_form_of_types,
};
pub use trail::{Begun, Landmark, Trail};
pub use wanted::{LITERAL, Wanted};
