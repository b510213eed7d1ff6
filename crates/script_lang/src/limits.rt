//! How many types the signatures in events have.

ghost use Rattle.std.specs.Prelude.{◌↔◌, IsTrue, All};
ghost use Rattle.script_lang.specs.Grammar.{signatures_in};
ghost use Rattle.syntax_trees.specs.Connections.{HasFewTypes};

use crate::event::Event;

/// Whether no signature in the event has more than 8 types.
pub fn event_has_few_types(event: &Event) -> bool
    ensures { IsTrue result ↔ All HasFewTypes (signatures_in event.now) }
{
    match event {
        Event::Connect(ends, _) => ends.have_few_types(),
        Event::Disconnect(ends) => ends.have_few_types(),
        Event::Loop(_) | Event::Turn(_) => true,
        Event::New(_, _, _) | Event::Adopt(_, _) | Event::Move(_, _) => true,
        Event::Set(_, _, _) | Event::Emit(_, _, _) | Event::Call(_, _, _) => true,
        Event::Bind(_, _, _) => true,
        Event::Block(_) | Event::Unblock(_) => true,
        Event::Delete(_) | Event::Later(_) => true,
    }
}
