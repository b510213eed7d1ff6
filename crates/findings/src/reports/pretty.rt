//! Values as texts of JSON.

use serde::Serialize;
use serde_json::to_string_pretty;
use std::alloc::{AllocError, Global};

/// The value as JSON, in whole lines. Its only error is that memory was refused.
pub fn json_text<T: Serialize>(alloc: Global, value: &T) -> Result<String, AllocError> {
    let mut text = to_string_pretty(alloc, value).map_err(|_| AllocError)?;
    text.push_str("\n")?;
    Ok(text)
}
