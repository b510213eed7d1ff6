//! Why an event is refused.

ghost use Rattle.std.specs.Prelude.{◌≡◌};
ghost use Rattle.trace_entries.specs.Refusals.{refusal_number};

/// Why an event is refused.
#[derive(Clone, Copy, Debug, PartialEq, Eq)]
pub enum Refusal {
    /// The object's name was used before.
    NameUsed,
    /// No object has or had the name.
    NoObject,
    /// The object of the name lives no more.
    Dead,
    /// There is no class of the name.
    NoClass,
    /// No declaration lets the parent's class own the child's.
    NotOwned,
    /// The child is the parent or one of its ancestors.
    Cycle,
    /// The two objects live in different event loops.
    OtherLoop,
    /// As many objects were created as may be.
    TooManyObjects,
    /// No wire of the program covers the connection.
    NotWired,
    /// The method's types aren't the first ones of the signal's.
    Incompatible,
    /// A unique connection is asked for, and the same signal of the sender is connected to the same method of the receiver.
    Exists,
    /// There is no such connection.
    NoConnection,
    /// There is no such event loop.
    NoLoop,
    /// The event loop is there.
    LoopExists,
    /// There is no such binding site, it has another number of sources, or it doesn't cover the objects' classes.
    BadSource,
    /// A value isn't of the type of the property or the parameter that it is for.
    BadArgs,
    /// The object's class has no such signal, slot or property.
    NoMember,
    /// The object has a parent, with which it lives in one event loop.
    HasParent,
    /// A binding joins an object that would move to one that would not.
    Bound,
}

impl Refusal {
    /// The number under which it is answered and written down.
    pub fn number(self) -> u8
        ensures { result ≡ refusal_number self }
    {
        match self {
            Refusal::NameUsed => 30,
            Refusal::NoObject => 31,
            Refusal::Dead => 32,
            Refusal::NoClass => 33,
            Refusal::NotOwned => 34,
            Refusal::Cycle => 35,
            Refusal::OtherLoop => 36,
            Refusal::TooManyObjects => 37,
            Refusal::NotWired => 38,
            Refusal::Incompatible => 39,
            Refusal::Exists => 40,
            Refusal::NoConnection => 41,
            Refusal::NoLoop => 42,
            Refusal::LoopExists => 43,
            Refusal::BadSource => 44,
            Refusal::BadArgs => 45,
            Refusal::NoMember => 46,
            Refusal::HasParent => 48,
            Refusal::Bound => 49,
        }
    }
}
