//! The events of a script.

use basic_types::Name;
use sqlite_items::Items;
use syntax_trees::{ConnectionType, Endpoints, Literal};

/// A value as a script writes it.
#[derive(Drop)]
pub enum Input {
    /// A number, a truth value, a text or null.
    Literal(Literal),
    /// An object's name.
    Object(Name),
}

/// An event of a script; objects, classes and event loops are named.
#[derive(Drop)]
pub enum Event {
    /// `loop L`: the event loop.
    Loop(Name),
    /// `turn L`: the event loop.
    Turn(Name),
    /// `new O C L`: the object's name, its class's, and the event loop that it lives in, which is `main` where none is
    /// given.
    New(Name, Name, Option<Name>),
    /// `adopt P O`: the parent's name, and the child's.
    Adopt(Name, Name),
    /// `move O L`: the object, and the event loop that it is to live in.
    Move(Name, Name),
    /// `connect A S B M kind unique single`: what is connected, and how.
    Connect(Endpoints<Name>, ConnectionType),
    /// `disconnect A S B M`: what is no longer connected.
    Disconnect(Endpoints<Name>),
    /// `set O.P V`: the object, the property's name, its new value.
    Set(Name, Name, Input),
    /// `emit O.M(V,..)`: the object, the signal's name, the arguments.
    Emit(Name, Name, Items<Input>),
    /// `call O.M(V,..)`: the object, the method's name, the arguments.
    Call(Name, Name, Items<Input>),
    /// `bind N O X ..`: the site's name, the target, the sources in their order, of which there may be none.
    Bind(Name, Name, Items<Name>),
    /// `block O`: the object.
    Block(Name),
    /// `unblock O`: the object.
    Unblock(Name),
    /// `delete O`: the object.
    Delete(Name),
    /// `later O`: the object.
    Later(Name),
}
