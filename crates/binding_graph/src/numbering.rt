//! Numbered properties.

use crate::place::Place;

/// A property with a number.
#[derive(Clone, Copy)]
pub struct Numbered {
    pub number: usize,
    pub place: Place,
}
