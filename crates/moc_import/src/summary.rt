//! How much was imported, and how much was left out.

use crate::classes::{Import, LeftOut, MethodSort, MissingMember, Placed};
use crate::effects::GivenBodies;

/// How much was imported, and how much was left out.
#[derive(Clone, Copy, Default)]
pub struct Summary {
    pub classes: usize,
    pub properties: usize,
    pub signals: usize,
    /// Slots and invokable methods.
    pub slots: usize,
    /// Slots that effects give a body.
    pub given: usize,
    /// Those of them that C++ doesn't have.
    pub added: usize,
    /// Slots whose body isn't known: a verdict says nothing of these.
    pub unknown: usize,
    /// Types of properties and parameters that are an `int` here, and another number or an enum in C++.
    pub narrowed: usize,
    /// Members that are left out for a type that the language has nothing for.
    pub untyped: usize,
    /// Members and classes that are left out for another reason.
    pub others: usize,
}

impl Summary {
    /// The counts.
    pub(crate) fn of(import: &Import<'_>, effects: &GivenBodies<'_>) -> Summary {
        let mut summary = Summary {
            others: import.catalogue.left_out().len(),
            ..Summary::default()
        };
        for (class, members) in import.members.iter().enumerate() {
            summary.classes = summary.classes.saturating_add(1);
            for property in members.properties.as_slice() {
                summary.properties = summary.properties.saturating_add(1);
                summary.count_narrowed(property.mapped.is_narrowed);
            }
            for (place, method) in members.methods.as_slice().iter().enumerate() {
                let placed = Placed {
                    class,
                    place,
                    method,
                };
                summary.count_method(import, effects, placed);
            }
        }
        for (_, member) in import.missing.as_slice() {
            let (MissingMember::Property(_, why) | MissingMember::Method(_, why)) = *member;
            match why {
                LeftOut::Type(_) => summary.untyped = summary.untyped.saturating_add(1),
                _ => summary.others = summary.others.saturating_add(1),
            }
        }
        summary
    }

    /// Whether nothing was left out.
    pub fn is_whole(&self) -> bool {
        self.untyped == 0 && self.others == 0
    }

    fn count_narrowed(&mut self, is_narrowed: bool) {
        if is_narrowed {
            self.narrowed = self.narrowed.saturating_add(1);
        }
    }

    fn count_method(
        &mut self,
        import: &Import<'_>,
        effects: &GivenBodies<'_>,
        placed: Placed<'_, '_>,
    ) {
        let method = placed.method;
        for parameter in method.parameters.as_slice() {
            self.count_narrowed(parameter.mapped.is_narrowed);
        }
        if method.is_signal() {
            self.signals = self.signals.saturating_add(1);
            return;
        }
        self.slots = self.slots.saturating_add(1);
        if method.sort == MethodSort::AddedSlot {
            self.added = self.added.saturating_add(1);
        }
        if effects.statements(placed.class, placed.place).is_some() {
            self.given = self.given.saturating_add(1);
        } else if import.written(placed.class, method).is_none() {
            self.unknown = self.unknown.saturating_add(1);
        }
    }
}
