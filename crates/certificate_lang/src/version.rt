//! Versions of the format.

ghost use Rattle.certificate_lang.specs.code.Reads.{FindsVersion};

/// A version of the format, which says what an item of a destroy set may be.
#[derive(Clone, Copy, Debug, PartialEq, Eq)]
pub enum Version {
    /// `certificate 1`: an item is a class, `C`.
    One,
    /// `certificate 2`: an item is a class or the closure of one, `C` or `~C`.
    Two,
}

impl Version {
    /// The version of this number, or `None` where there is none.
    pub fn of(number: u32) -> Option<Version>
        ensures { FindsVersion number result }
    {
        match number {
            1 => Some(Version::One),
            2 => Some(Version::Two),
            _ => None,
        }
    }
}
