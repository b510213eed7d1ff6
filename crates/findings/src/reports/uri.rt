//! Names of files as references to them.

use percent_encoding::{AsciiSet, NON_ALPHANUMERIC, percent_encode};
use std::alloc::{AllocError, Global};

/// What isn't written as it is in a relative reference: all but letters, digits, `-`, `.`, `_`, `~` and `/`.
const ESCAPED: AsciiSet = NON_ALPHANUMERIC;

/// The name as a relative reference.
pub fn uri_of(alloc: Global, name: &[u8]) -> Result<String, AllocError> {
    let set = ESCAPED
        .remove(b'-')
        .remove(b'.')
        .remove(b'_')
        .remove(b'~')
        .remove(b'/');
    let mut uri = String::new(alloc);
    percent_encode(name, set).append_to(&mut uri)?;
    Ok(uri)
}
