//! Names in slot bodies, natives, wires, owns and binding sites, resolved to numbers.
#![tactic(auto)]

mod body_resolution;
mod literals;
mod missing;
mod resolve_native;
mod resolve_object;
mod resolve_site;
mod resolve_wire;
mod uses;

pub use body_resolution::{ResolvedWork, Scope};
pub use resolve_native::emitted;
pub use resolve_object::resolve_objects;
pub use resolve_wire::signal_end;
pub use uses::{Uses, resolve_uses};
