//! How warnings are reported.

use crate::source::ReadProgram;
use crate::warned::ranked::Ranked;
use crate::warned::warning::{Warning, method_node};
use crate::{node_text, property_text, wire_text};
use diagnostics::TextPlace;
use meta_model::{Meta, MetaWire};
use std::alloc::{AllocError, Global};

/// So many warnings are reported.
const MOST_TOLD: usize = 20;

/// A program that warnings are about.
#[derive(Clone, Copy)]
pub struct Subject<'s> {
    /// What memory is taken from.
    pub alloc: Global,
    /// The program.
    pub meta: &'s Meta,
    /// What is read of its text.
    pub read: &'s ReadProgram,
    /// What is known of its nodes, where that is asked for.
    pub ranked: Option<Ranked<'s>>,
}

impl Subject<'_> {
    /// Adds a line for each of the first warnings, and how many more there are.
    pub fn push_warnings(&self, told: &mut String, warnings: &[Warning]) -> Result<(), AllocError> {
        for warning in warnings.iter().take(MOST_TOLD) {
            self.push_warning(told, warning)?;
        }
        match warnings.len().saturating_sub(MOST_TOLD) {
            0 => Ok(()),
            1 => told.push_str("and 1 more warning\n"),
            more => writeln!(told, "and {more} more warnings"),
        }
    }

    /// Adds the warning's line, with its place in the program, which is the input's first text, where it has one.
    fn push_warning(&self, told: &mut String, warning: &Warning) -> Result<(), AllocError> {
        told.push_str("<stdin>:")?;
        let source = self.read.source(self.alloc, self.meta);
        if let Some(TextPlace { line, column }) = warning.place(source, &self.read.places) {
            write!(told, "{line}:{column}:")?;
        }
        told.push_str(" warning: ")?;
        let sentence = warning_text(self.alloc, self.meta, warning)?;
        told.push_str(sentence.as_str())?;
        if let Warning::LostSender { class, signal } = warning {
            self.push_way_to_deletion(told, *class, *signal)?;
        }
        told.push_str("\n")
    }

    /// Adds the chain by which the signal may lead to the destruction of its sender, where ranks are known.
    fn push_way_to_deletion(
        &self,
        told: &mut String,
        class: usize,
        signal: usize,
    ) -> Result<(), AllocError> {
        let Some(ranked) = self.ranked else {
            return Ok(());
        };
        if let Some(number) = ranked.scan.number(method_node(class, signal)) {
            let chain = ranked.chain_to_destruction(self.alloc, number, class)?;
            told.push_str(" (")?;
            ranked.push_chain(told, self.alloc, chain.as_slice())?;
            told.push_str(")")?;
        }
        Ok(())
    }
}

/// What the warning says, in a sentence.
pub fn warning_text(alloc: Global, meta: &Meta, warning: &Warning) -> Result<String, AllocError> {
    match warning {
        Warning::Empty => String::from_str(alloc, "this program declares nothing"),
        Warning::IdleWire { other, .. } => idle_wire_text(alloc, meta, *other),
        Warning::Unwired { wanted, .. } => unwired_text(alloc, meta, wanted),
        Warning::NotifiedTwice {
            class,
            method,
            property,
            ..
        } => notified_twice_text(alloc, meta, *class, *method, *property),
        Warning::LostSender { class, signal } => {
            let name = method_text(alloc, meta, *class, *signal)?;
            format!(in alloc;
                "a slot may delete the sender while it emits `{name}`: in C++ the emitter goes on in a destroyed object"
            )
        }
    }
}

/// The method of the class, as a certificate names it.
fn method_text(
    alloc: Global,
    meta: &Meta,
    class: usize,
    method: usize,
) -> Result<String, AllocError> {
    node_text(alloc, meta, method_node(class, method))
}

/// What is said of a wire that is idle beside this one.
fn idle_wire_text(alloc: Global, meta: &Meta, other: usize) -> Result<String, AllocError> {
    match meta.wires().get(other) {
        Some(wider) => {
            let wider = wire_text(alloc, meta, wider)?;
            format!(in alloc;
                "nothing can use this wire: `{wider}` covers each connection that it covers"
            )
        }
        None => Ok(String::new(alloc)),
    }
}

/// What is said of a `connect` that lacks this wire.
fn unwired_text(alloc: Global, meta: &Meta, wanted: &MetaWire) -> Result<String, AllocError> {
    let wanted = wire_text(alloc, meta, wanted)?;
    format!(in alloc;
        "no wire covers this `connect`, so it is refused whenever its objects are there (38): `{wanted}` would cover it"
    )
}

/// What is said of a slot that sets the property, and emits its notify signal.
fn notified_twice_text(
    alloc: Global,
    meta: &Meta,
    class: usize,
    method: usize,
    property: usize,
) -> Result<String, AllocError> {
    let slot = method_text(alloc, meta, class, method)?;
    let name = property_text(alloc, meta, Some(class), property)?;
    format!(in alloc;
        "`{slot}` sets `{name}`, whose change emits this signal, and emits it itself: whoever is connected is notified twice"
    )
}
