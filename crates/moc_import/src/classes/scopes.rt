//! Names of C++, with their scopes.

use crate::classes::moc::MocClass;

/// The class's name without its scope.
pub fn own_name(class: &MocClass) -> &str {
    last_part(class.class_name.as_str())
}

/// The name without its scope.
pub fn last_part(name: &str) -> &str {
    match name.rsplit_once("::") {
        Some((_, own)) => own,
        None => name,
    }
}

/// The class's name with its scope, where it is known.
pub fn full_name(class: &MocClass) -> &str {
    let name = class.qualified_class_name.as_str();
    if name.is_empty() {
        class.class_name.as_str()
    } else {
        name
    }
}

/// Whether the name is the class's, with its scope, a part of that or none.
pub fn is_called(class: &MocClass, name: &str) -> bool {
    nearness(class, name, "").is_some()
}

/// How near the class is to the class of the full name `from`, in which a name stands that may be the class's: the more of
/// its scope both have, the nearer. `None` where it isn't its name.
pub fn nearness(class: &MocClass, name: &str, from: &str) -> Option<usize> {
    match front_of(full_name(class), name) {
        Some(front) if surrounds(front, from) => Some(front.len().saturating_add(1)),
        Some(_) => Some(0),
        None if own_name(class) == name => Some(0),
        None => None,
    }
}

/// The nearest class so far, with how near it is, and behind it the one of this place: of those that are as near the first one.
pub fn nearer(
    nearest: Option<(usize, usize)>,
    place: usize,
    near: usize,
) -> Option<(usize, usize)> {
    match nearest {
        Some((_, most)) if near <= most => nearest,
        _ => Some((place, near)),
    }
}

/// Whether the class is in the scope that the other one is: that class itself, or one inside it.
pub fn is_in_scope(scope: &MocClass, class: &MocClass) -> bool {
    match full_name(class).strip_prefix(full_name(scope)) {
        Some(rest) => rest.is_empty() || rest.starts_with("::"),
        None => false,
    }
}

/// What comes before the name in a full name: nothing, or a scope with its `::`.
fn front_of<'n>(full: &'n str, name: &str) -> Option<&'n str> {
    let front = full.strip_suffix(name)?;
    if front.is_empty() || front.ends_with("::") {
        Some(front)
    } else {
        None
    }
}

/// Whether the scope, with its `::`, is that of the class of this full name, or one around it.
fn surrounds(front: &str, class: &str) -> bool {
    match front.strip_suffix("::") {
        Some(scope) => class == scope || class.starts_with(front),
        None => front.is_empty(),
    }
}
