//! Marks of numbers.

use std::alloc::{AllocError, Global};

/// So many marks, all set or none.
pub fn marks(alloc: Global, count: usize, are_set: bool) -> Result<Vec<bool>, AllocError> {
    let mut marks = Vec::new(alloc);
    for _ in 0..count {
        marks.push(are_set)?;
    }
    Ok(marks)
}

/// Whether the number is among those that are marked.
pub fn is_marked(marks: &[bool], number: usize) -> bool {
    match marks.get(number) {
        Some(is_marked) => *is_marked,
        None => false,
    }
}

/// Sets the mark of the number or takes it away, if it is one of these, and answers whether that is new.
pub fn set_mark(marks: &mut Vec<bool>, number: usize, is_set: bool) -> bool {
    match marks.get_mut(number) {
        Some(is_marked) => {
            let is_new = *is_marked != is_set;
            *is_marked = is_set;
            is_new
        }
        None => false,
    }
}
