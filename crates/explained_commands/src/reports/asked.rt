//! Whether sentences on refused events are asked for.

/// The environment variable that asks for them.
pub const EXPLAIN: &str = "GAMMONFIG_EXPLAIN";

/// Whether this value of the variable asks for them: any but `0` and the empty one.
pub fn is_asked(value: &str) -> bool {
    !value.is_empty() && value != "0"
}
