//! The normal form of a type.

ghost use Rattle.std.specs.Prelude.{◌≡◌};
ghost use Rattle.basic_types.specs.Normal.{normal_of};

use crate::name::Name;
use crate::qtype::QType;

/// Where `const` is in a spelled type.
#[derive(Clone, Copy, Debug, PartialEq, Eq)]
pub enum ConstPlace {
    /// Nowhere.
    Nowhere,
    /// In front of the name.
    Before,
    /// Behind the name.
    After,
}

/// What a spelled type ends with.
#[derive(Clone, Copy, Debug, PartialEq, Eq)]
pub enum TypeEnding {
    /// Nothing.
    Bare,
    /// `&`
    Reference,
    /// `*`
    Pointer,
}

impl QType {
    /// The normal form of a spelled type, or `None` for `T &`, a reference that isn't const and has none: `const` goes
    /// to the front of a pointer and is dropped of everything else, and a const reference becomes a value.
    pub fn normal(name: Name, place: ConstPlace, ending: TypeEnding) -> Option<QType>
        ensures { result ≡ normal_of name place ending }
    {
        match ending {
            TypeEnding::Bare => Some(QType::value(name)),
            TypeEnding::Reference if place == ConstPlace::Nowhere => None,
            TypeEnding::Reference => Some(QType::value(name)),
            TypeEnding::Pointer => Some(QType::pointer_to(name, place != ConstPlace::Nowhere)),
        }
    }
}
