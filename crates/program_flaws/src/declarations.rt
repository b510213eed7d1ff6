//! Which declaration of a program breaks a rule of loading, where, and in which words that is reported.

mod declarations;
mod finding;
mod flaws;
mod further;
mod likely;
mod lost;
mod natives;
mod sentence;
mod types;
mod undeclared;
mod words;

pub use flaws::declaration_flaw;
pub use further::{FurtherFlaw, further_declaration_flaws};
pub use natives::native_flaw;
