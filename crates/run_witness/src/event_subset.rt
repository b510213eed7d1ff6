//! Events of which some are left out.

use std::alloc::{AllocError, Global};

/// Places of events: from one on, and up to another.
#[derive(Clone, Copy, Debug, PartialEq, Eq)]
pub struct EventRange {
    pub start: usize,
    pub end: usize,
}

impl EventRange {
    /// No place.
    pub const NONE: EventRange = EventRange { start: 0, end: 0 };

    fn holds(self, place: usize) -> bool {
        self.start <= place && place < self.end
    }
}

/// An event, and whether it is left out.
#[derive(Drop)]
struct ScriptEvent {
    text: String,
    is_left_out: bool,
}

/// Events in their order, of which some are left out.
#[derive(Drop)]
pub struct EventSubset {
    events: Vec<ScriptEvent>,
}

impl EventSubset {
    /// All these events.
    pub fn of(alloc: Global, texts: Vec<String>) -> Result<EventSubset, AllocError> {
        let mut events = Vec::with_capacity(alloc, texts.len())?;
        for text in texts {
            events.push(ScriptEvent {
                text,
                is_left_out: false,
            })?;
        }
        Ok(EventSubset { events })
    }

    /// How many there are, with those that are left out.
    pub fn len(&self) -> usize {
        self.events.len()
    }

    /// Whether one at these places isn't left out.
    pub fn has_some(&self, range: EventRange) -> bool {
        self.events
            .iter()
            .enumerate()
            .any(|(place, event)| !event.is_left_out && range.holds(place))
    }

    /// Leaves out those at these places.
    pub fn leave_out(&mut self, range: EventRange) {
        for (place, event) in self.events.iter_mut().enumerate() {
            if range.holds(place) {
                event.is_left_out = true;
            }
        }
    }

    /// The script of those that aren't left out, and aren't at these places either.
    pub fn script(&self, alloc: Global, range: EventRange) -> Result<String, AllocError> {
        let mut script = String::new(alloc);
        for (place, event) in self.events.iter().enumerate() {
            if !event.is_left_out && !range.holds(place) {
                script.push_str(event.text.as_str())?;
                script.push_str("\n")?;
            }
        }
        Ok(script)
    }
}
