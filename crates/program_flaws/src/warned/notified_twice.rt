//! Slots that emit what the runtime emits for them.
//!
//! A write that changes a property emits its notify signal. So a slot that sets the property and emits that signal too has it
//! emitted twice, where both stand on one way through the body: not in the two blocks of one `if`.

ghost use Rattle.std.specs.Prelude.{All, IfOk};
ghost use Rattle.program_flaws.specs.Wires.{IsSo};

use crate::warned::bodies::OwnSlot;
use crate::warned::warning::Warning;
use meta_model::{Meta, MetaPath, MetaRoot, Statement};
use std::alloc::{AllocError, Global};

/// Adds a warning for each property that a way through the slot of these statements sets and whose notify signal the same way
/// emits.
pub fn add_notified_twice(
    alloc: Global,
    meta: &Meta,
    slot: OwnSlot<'_>,
    statements: &[&Statement],
    found: &mut Vec<Warning>,
) -> Result<(), AllocError>
    requires { All (IsSo meta.now) found.old.items }
    ensures { IfOk result (λ _. All (IsSo meta.now) found.new.items) }
{
    let effects = OwnEffects::of(alloc, statements)?;
    for property in effects.sets.as_slice() {
        if let Some(signal) = notifier(meta, slot.class, *property)
            && effects.emits.as_slice().binary_search(&signal).is_ok()
        {
            let pair = NotifyPair {
                property: *property,
                signal,
            };
            let mut passed = 0usize;
            if let Some(emit) = ways_through(pair, slot.body, &mut passed).both {
                found.push(Warning::NotifiedTwice {
                    class: slot.class,
                    method: slot.method,
                    property: *property,
                    emit,
                })?;
            }
        }
    }
    Ok(())
}

/// The notify signal of the property, if it has one.
fn notifier(meta: &Meta, class: usize, property: usize) -> Option<usize> {
    meta.object(class)?.property(property)?.notify
}

/// What the statements of a slot do to its own object.
#[derive(Drop)]
struct OwnEffects {
    /// The properties that they set, each once and in order.
    sets: Vec<usize>,
    /// The signals that they emit, each once and in order.
    emits: Vec<usize>,
}

impl OwnEffects {
    /// Those of these, which are all of them.
    fn of(alloc: Global, statements: &[&Statement]) -> Result<OwnEffects, AllocError> {
        let mut effects = OwnEffects {
            sets: Vec::new(alloc),
            emits: Vec::new(alloc),
        };
        for statement in statements {
            effects.add(*statement)?;
        }
        effects.sets.sort()?;
        effects.sets.dedup();
        effects.emits.sort()?;
        effects.emits.dedup();
        Ok(effects)
    }

    /// Adds what the statement does by itself.
    fn add(&mut self, statement: &Statement) -> Result<(), AllocError> {
        match statement {
            Statement::Set(path, property, _) if is_this(path) => self.sets.push(*property)?,
            Statement::Emit(signal, _) => self.emits.push(*signal)?,
            _ => {}
        }
        Ok(())
    }
}

/// Whether the path is `this`.
fn is_this(path: &MetaPath) -> bool {
    path.root == MetaRoot::This && path.steps.is_empty()
}

/// A property and its notify signal.
#[derive(Clone, Copy, Debug, PartialEq, Eq)]
struct NotifyPair {
    property: usize,
    signal: usize,
}

/// What the ways through some statements do with a pair.
#[derive(Clone, Copy, Debug, PartialEq, Eq)]
struct Ways {
    /// Whether some way sets the property.
    sets: bool,
    /// The first `emit` of the signal on some way.
    emit: Option<usize>,
    /// The first that was found on a way that does both.
    both: Option<usize>,
}

impl Ways {
    /// The ways through what does neither.
    const NEITHER: Ways = Ways {
        sets: false,
        emit: None,
        both: None,
    };

    /// The ways through the one and then through the other.
    fn then(self, next: Ways) -> Ways {
        let across = if self.sets && next.emit.is_some() {
            next.emit
        } else if next.sets {
            self.emit
        } else {
            None
        };
        Ways {
            both: self.both.or(next.both).or(across),
            ..self.or(next)
        }
    }

    /// The ways through the one or the other.
    fn or(self, other: Ways) -> Ways {
        Ways {
            sets: self.sets || other.sets,
            emit: self.emit.or(other.emit),
            both: self.both.or(other.both),
        }
    }
}

/// The ways through the statements; `passed` counts these, and those that are in them.
#[cycle(ways)]
fn ways_through(pair: NotifyPair, body: &[Statement], passed: &mut usize) -> Ways {
    let mut ways = Ways::NEITHER;
    for statement in body {
        ways = ways.then(ways_of(pair, statement, passed));
    }
    ways
}

/// The ways through the statement and those that are in it.
#[cycle(ways)]
fn ways_of(pair: NotifyPair, statement: &Statement, passed: &mut usize) -> Ways {
    let number = *passed;
    *passed = passed.saturating_add(1);
    match statement {
        Statement::Set(path, property, _) => Ways {
            sets: is_this(path) && *property == pair.property,
            ..Ways::NEITHER
        },
        Statement::Emit(signal, _) if *signal == pair.signal => Ways {
            emit: Some(number),
            ..Ways::NEITHER
        },
        Statement::If(_, chosen, other) => {
            let chosen = ways_through(pair, chosen.as_slice(), passed);
            chosen.or(ways_through(pair, other.as_slice(), passed))
        }
        Statement::Group(sets) => ways_through(pair, sets.as_slice(), passed),
        _ => Ways::NEITHER,
    }
}
