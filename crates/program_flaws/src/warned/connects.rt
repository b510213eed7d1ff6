//! `connect` statements that are always refused.
//!
//! A connection is covered by the wires of the classes of its two objects. A path leads to an object of its declared class or
//! of one below it, so a wire covers a connection that the statement may come to make where its classes and the declared ones
//! have classes in common.

ghost use Rattle.std.specs.Prelude.{All, IsTrue, IfOk, IfSome};
ghost use Rattle.program_flaws.specs.Wires.{IsLineageOf, IsLacking, MayServe, IsServed, IsSo};

use crate::warned::bodies::OwnSlot;
use crate::warned::lineage::Lineage;
use crate::warned::warning::Warning;
use meta_model::{Meta, MetaWire, Statement};
use std::alloc::AllocError;

/// Where `connect` statements are looked for.
#[derive(Clone, Copy)]
pub struct Wiring<'m> {
    /// The program.
    pub meta: &'m Meta,
    /// The lineage of its classes.
    pub lineage: &'m Lineage,
    /// The slot.
    pub slot: OwnSlot<'m>,
}

impl<'m> Wiring<'m> {
    /// Adds a warning for each `connect` among the statements of the slot that no wire covers.
    pub fn add_unwired(
        &self,
        statements: &[&Statement],
        found: &mut Vec<Warning>,
    ) -> Result<(), AllocError>
        requires lineage { IsLineageOf self.now.meta.now self.now.lineage.now }
        requires so { All (IsSo self.now.meta.now) found.old.items }
        ensures { IfOk result (λ _. All (IsSo self.now.meta.now) found.new.items) }
    {
        for (number, statement) in statements.iter().enumerate() {
            if let Some(wanted) = self.lacking(*statement) {
                found.push(Warning::Unwired {
                    class: self.slot.class,
                    method: self.slot.method,
                    statement: number,
                    wanted,
                })?;
            }
        }
        Ok(())
    }

    /// The wire that the statement lacks; `None` where there is one that may cover it, and where it is no `connect`.
    fn lacking(&self, statement: &Statement) -> Option<MetaWire>
        requires { IsLineageOf self.now.meta.now self.now.lineage.now }
        ensures { IfSome result (IsLacking self.now.meta.now) }
    {
        let Statement::Connect(ends, how) = statement else {
            return None;
        };
        // The program is sound: its wires are between members that are there.
        let _classes = self.meta.classes();
        let wanted = MetaWire {
            sender: self.slot.class_at(&ends.sender)?,
            signal: ends.signal,
            receiver: self.slot.class_at(&ends.receiver)?,
            method: ends.method,
            kind: how.kind,
        };
        if self.is_served(&wanted) {
            None
        } else {
            Some(wanted)
        }
    }

    /// Whether some wire covers a connection between objects of the wanted one's classes, or of classes below those.
    fn is_served(&self, wanted: &MetaWire) -> bool
        requires { IsLineageOf self.now.meta.now self.now.lineage.now }
        ensures { IsServed self.now.meta.now wanted.now → IsTrue result }
    {
        for wire in self.meta.wires() {
            if self.may_serve(wire, wanted) {
                return true;
            }
        }
        false
    }

    /// Whether the wire covers such a connection.
    fn may_serve(&self, wire: &MetaWire, wanted: &MetaWire) -> bool
        requires { IsLineageOf self.now.meta.now self.now.lineage.now }
        ensures { MayServe self.now.meta.now wire.now wanted.now → IsTrue result }
    {
        wire.kind == wanted.kind
            && wire.signal == wanted.signal
            && wire.method == wanted.method
            && self.lineage.meet(wire.sender, wanted.sender)
            && self.lineage.meet(wire.receiver, wanted.receiver)
    }
}
