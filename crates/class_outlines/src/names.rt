//! How many names the parts of declarations have. A declaration's names are counted from 0, in the order of its text.

use basic_types::Sig;
use syntax_trees::{Parameter, Site};

/// The names of a signature: its own, and one of each type.
pub fn names_of_sig(sig: &Sig) -> usize {
    sig.types.len().saturating_add(1)
}

/// The names of these parameters and of their types.
pub fn names_of_parameters(parameters: &[Parameter]) -> usize {
    let mut names = 0usize;
    for parameter in parameters {
        let own = if parameter.name.is_some() { 2 } else { 1 };
        names = names.saturating_add(own);
    }
    names
}

/// The names that come before the type of the parameter of this place; the method's own is the first.
pub fn names_before_parameter(parameters: &[Parameter], place: usize) -> usize {
    let (before, _) = parameters.split_at(place.min(parameters.len()));
    names_of_parameters(before).saturating_add(1)
}

/// The names that come before a slot's body, or of a native's lists.
pub fn names_before_work(parameters: &[Parameter]) -> usize {
    names_of_parameters(parameters).saturating_add(1)
}

/// The names that come before a binding's expression: its own, its class and its property, and two of each formal
/// source.
pub fn names_before_expression(site: &Site) -> usize {
    site.formals.len().saturating_mul(2).saturating_add(3)
}
