//! Types of C++ and what they are in the language.

use crate::classes::catalogue::Catalogue;

/// The type of texts.
const QSTRING: &str = "QString";

/// A type of the language.
#[derive(Clone, Copy, PartialEq, Eq)]
pub enum LanguageType {
    Int,
    Bool,
    Text,
    /// A reference to objects of the class of this number, or of `QObject`.
    Object(Option<usize>),
    /// The same, of which nothing is written or called.
    ConstObject(Option<usize>),
}

impl LanguageType {
    /// Whether a parameter or property of this type may be given a value of the other one.
    pub fn accepts(self, given: LanguageType, catalogue: &Catalogue<'_>) -> bool {
        match (self, given) {
            (LanguageType::Int, LanguageType::Int)
            | (LanguageType::Bool, LanguageType::Bool)
            | (LanguageType::Text, LanguageType::Text) => true,
            (LanguageType::Object(wanted), LanguageType::Object(class))
            | (
                LanguageType::ConstObject(wanted),
                LanguageType::Object(class) | LanguageType::ConstObject(class),
            ) => { catalogue.is_below(class, wanted) }
            _ => false,
        }
    }

    /// The parts of the type as it is declared.
    pub fn parts<'i>(self, catalogue: &'i Catalogue<'_>) -> [&'i str; 3] {
        match self {
            LanguageType::Int => ["int", "", ""],
            LanguageType::Bool => ["bool", "", ""],
            LanguageType::Text => [QSTRING, "", ""],
            LanguageType::Object(class) => [catalogue.name(class), "*", ""],
            LanguageType::ConstObject(class) => ["const ", catalogue.name(class), "*"],
        }
    }
}

/// What a type of C++ becomes.
#[derive(Clone, Copy)]
pub struct Mapped {
    pub kind: LanguageType,
    /// Whether the type is another number or an enum in C++.
    pub is_narrowed: bool,
}

/// Types that are numbers in C++ and become `int`.
const NUMBERS: &[&str] = &[
    "short",
    "ushort",
    "uint",
    "unsigned",
    "unsigned int",
    "unsigned short",
    "long",
    "ulong",
    "unsigned long",
    "long long",
    "unsigned long long",
    "char",
    "uchar",
    "unsigned char",
    "signed char",
    "qint8",
    "quint8",
    "qint16",
    "quint16",
    "qint32",
    "quint32",
    "qint64",
    "quint64",
    "qlonglong",
    "qulonglong",
    "qsizetype",
    "size_t",
    "qintptr",
    "quintptr",
    "int8_t",
    "uint8_t",
    "int16_t",
    "uint16_t",
    "int32_t",
    "uint32_t",
    "int64_t",
    "uint64_t",
    "char16_t",
    "char32_t",
    "wchar_t",
    "QRgb",
    "float",
    "double",
    "qreal",
];

/// What the type of a member of this class becomes; `None` where the language has nothing for it.
pub fn mapped_type(catalogue: &Catalogue<'_>, class: usize, kind: &str) -> Option<Mapped> {
    let name = plain(kind);
    match name {
        "int" => return Some(exact(LanguageType::Int)),
        "bool" => return Some(exact(LanguageType::Bool)),
        QSTRING => return Some(exact(LanguageType::Text)),
        _ => {}
    }
    if NUMBERS.contains(&name) || catalogue.has_enum(class, name) {
        return Some(Mapped {
            kind: LanguageType::Int,
            is_narrowed: true,
        });
    }
    let pointed = name.strip_suffix("*")?.trim();
    match pointed.strip_prefix("const ") {
        Some(pointed) => {
            let found = catalogue.pointed(class, pointed.trim())?;
            Some(exact(LanguageType::ConstObject(found)))
        }
        None => Some(exact(LanguageType::Object(catalogue.pointed(class, pointed)?))),
    }
}

fn exact(kind: LanguageType) -> Mapped {
    Mapped {
        kind,
        is_narrowed: false,
    }
}

/// The type without what a call by const reference adds.
fn plain(kind: &str) -> &str {
    let whole = kind.trim();
    if let Some(inner) = whole.strip_prefix("const ") {
        if let Some(value) = inner.strip_suffix("&") {
            return value.trim();
        }
    }
    whole
}
