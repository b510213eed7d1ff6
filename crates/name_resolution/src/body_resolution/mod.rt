//! Slot bodies and natives whose names are resolved to numbers.

mod block;
mod ends;
mod expr;
mod path;
mod scope;
mod work;

pub use scope::Scope;
pub use work::{ResolvedWork, resolve_works};
