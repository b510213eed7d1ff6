//! Where slot bodies stand.

use basic_types::Name;
use class_outlines::ClassTable;
use std::alloc::Global;
use syntax_trees::Parameter;

/// Where a slot's body stands, which says what the names in it mean.
#[derive(Clone, Copy)]
pub struct Scope<'a> {
    /// What resolved parts are built with.
    pub alloc: Global,
    /// The program's classes.
    pub outlines: &'a ClassTable,
    /// The name of the slot's class.
    pub me: &'a Name,
    /// The slot's parameters.
    pub parameters: &'a [Parameter],
}
