//! What a change of properties writes down: those that are written or bound, and each other one that changes with them. The
//! change is planned then, and nothing is changed yet.

ghost use Rattle.std.specs.Prelude.{◌≡◌, [], ◌∷◌, ◌++◌, IfOk, OnOk, OnErr};
ghost use Rattle.std.specs.Option.{option_copied};
ghost use Rattle.prop_bindings.specs.Changes.{DifferInValues, once, places_in};
ghost use Rattle.prop_bindings.specs.Values.{values_in};
ghost use Rattle.prop_bindings.specs.Plans.{after};
ghost use Rattle.trace_entries.specs.declared.entry.Entry.TheVariants.{Accepted};
ghost use Rattle.machine_state.specs.Telling.{HasValue, IsTold, IsToldWith, Grouped, entry_kind_of, others, writes_of};
ghost use Rattle.machine_state.specs.code.Planned.{CanBeTold, HaveValues, AddsFollowers, AddsGroup, AddsSets, AddsTold, Extends, StandFirst, WillBeTold, behind};

use crate::changes::showing::show;
use basic_types::{Name, Value};
use binding_graph::Place;
use meta_model::Meta;
use object_tree::Tree;
use prop_bindings::{Assignment, Planned};
use std::alloc::AllocError;
use trace_entries::{Entry, EntryKind, Shown, Trace};

/// How a property comes to a value.
#[derive(Clone, Copy)]
pub enum Cause {
    /// It is written.
    Write,
    /// It is bound.
    Bind,
    /// It follows, since it is bound.
    Follow,
}

/// The telling of what changes.
#[derive(Clone, Copy)]
pub struct Telling<'w> {
    /// The program.
    pub meta: &'w Meta,
    /// The objects, with the values that they have before the change.
    pub tree: &'w Tree,
    /// The change.
    pub planned: &'w Planned,
    /// The depth that is written down.
    pub depth: usize,
}

impl<'w> Telling<'w> {
    /// Adds the lines of a change to the trace: that of the property that is written or bound, whether it reads as it did or
    /// not, and that of each other one that changes, with the values that they will have. Without memory for all of them the
    /// trace stays as it was.
    #[inline(always)]
    pub fn note(&self, trace: &mut Trace, cause: Cause, first: &Place) -> Result<(), AllocError>
        requires can { CanBeTold self.now.meta.now self.now.tree.now (first.now ∷ [])
            self.now.planned.now }
        ensures ok { OnOk result (AddsTold self.now.meta.now
            (after self.now.planned.now self.now.tree.now) self.now.depth cause
            first.now self.now.planned.now.changed trace.old trace.new) }
        ensures err { OnErr result (trace.new ≡ trace.old) }
    {
        let told = trace.len();
        if let Err(fault) = self.add_change(trace, cause, first) {
            trace.keep_first(told);
            return Err(fault);
        }
        Ok(())
    }

    /// Adds the line of an accepted event and then those of its change, as `note` does.
    #[inline(always)]
    pub fn accept(
        &self,
        trace: &mut Trace,
        event: u64,
        cause: Cause,
        first: &Place,
    ) -> Result<(), AllocError>
        requires can { CanBeTold self.now.meta.now self.now.tree.now (first.now ∷ [])
            self.now.planned.now }
        ensures ok { OnOk result (AddsTold self.now.meta.now
            (after self.now.planned.now self.now.tree.now) self.now.depth cause
            first.now self.now.planned.now.changed (trace.old ++ Accepted event ∷ []) trace.new) }
        ensures err { OnErr result (trace.new ≡ trace.old) }
    {
        let told = trace.len();
        trace.accept(event, [])?;
        if let Err(fault) = self.add_change(trace, cause, first) {
            trace.keep_first(told);
            return Err(fault);
        }
        Ok(())
    }

    /// Adds the lines of a group of sets, which write these properties, each once: its own, those of the sets, whatever the
    /// properties will have in the end, and those of each other property that changes. Without memory for all of them the
    /// trace stays as it was.
    pub fn group(
        &self,
        trace: &mut Trace,
        sets: &[Option<Assignment>],
        written: &[Place],
    ) -> Result<(), AllocError>
        requires can { CanBeTold self.now.meta.now self.now.tree.now
            (places_in (writes_of (Grouped sets.now))) self.now.planned.now }
        requires written { written.now ≡ once (places_in (writes_of (Grouped sets.now))) }
        ensures ok { OnOk result (AddsGroup self.now.meta.now
            (after self.now.planned.now self.now.tree.now) self.now.depth sets.now
            self.now.planned.now.changed trace.old trace.new) }
        ensures err { OnErr result (trace.new ≡ trace.old) }
    {
        let told = trace.len();
        if let Err(fault) = self.add_group(trace, sets, written) {
            trace.keep_first(told);
            return Err(fault);
        }
        Ok(())
    }

    /// Adds the lines of a change, as `note` does; without memory some of them may stand there.
    fn add_change(&self, trace: &mut Trace, cause: Cause, first: &Place) -> Result<(), AllocError>
        requires can { CanBeTold self.now.meta.now self.now.tree.now (first.now ∷ [])
            self.now.planned.now }
        ensures ok { OnOk result (AddsTold self.now.meta.now
            (after self.now.planned.now self.now.tree.now) self.now.depth cause
            first.now self.now.planned.now.changed trace.old trace.new) }
        ensures err { OnErr result (Extends trace.old trace.new) }
    {
        let line = self.line(cause, first, 0)?;
        trace.push(line)?;
        let followers = self.followers(&[*first]);
        self.add_followers(trace, followers, 1)
    }

    /// Adds the lines of a group, as `group` does; without memory some of them may stand there.
    fn add_group(
        &self,
        trace: &mut Trace,
        sets: &[Option<Assignment>],
        written: &[Place],
    ) -> Result<(), AllocError>
        requires can { CanBeTold self.now.meta.now self.now.tree.now
            (places_in (writes_of (Grouped sets.now))) self.now.planned.now }
        requires written { written.now ≡ once (places_in (writes_of (Grouped sets.now))) }
        ensures ok { OnOk result (AddsGroup self.now.meta.now
            (after self.now.planned.now self.now.tree.now) self.now.depth sets.now
            self.now.planned.now.changed trace.old trace.new) }
        ensures err { OnErr result (Extends trace.old trace.new) }
    {
        let followers = self.followers(written);
        let lines = sets.len().saturating_add(followers.len());
        trace.reserve(lines.saturating_add(1))?;
        trace.push(Entry::At(self.depth, EntryKind::Grouped))?;
        self.add_sets(trace, sets)?;
        self.add_followers(trace, followers, written.len())
    }

    /// Adds the lines of the sets of a group; without memory some of them may stand there.
    fn add_sets(&self, trace: &mut Trace, sets: &[Option<Assignment>]) -> Result<(), AllocError>
        requires can { CanBeTold self.now.meta.now self.now.tree.now
            (places_in (writes_of (Grouped sets.now))) self.now.planned.now }
        ensures ok { OnOk result (AddsSets self.now.meta.now
            (after self.now.planned.now self.now.tree.now) self.now.depth sets.now
            trace.old trace.new) }
        ensures err { OnErr result (Extends trace.old trace.new) }
    {
        for set in sets {
            let line = match set {
                Some(set) => self.line_with(Cause::Write, &set.place, &set.value)?,
                None => Entry::At(self.depth, EntryKind::OnNull),
            };
            trace.push(line)?;
        }
        Ok(())
    }

    /// The properties that change but for those that are written or bound, which stand before them.
    #[inline(always)]
    fn followers(&self, written: &[Place]) -> &'w [Place]
        requires first { StandFirst (others written.now self.now.planned.now.changed) written.now
            self.now.planned.now.changed }
        ensures { result.now ≡ others written.now self.now.planned.now.changed }
    {
        let mut rest = self.planned.changed();
        for place in written {
            rest = behind(rest, place);
        }
        rest
    }

    /// Adds the lines of properties that change with those that are written or bound, of which there are so many; without
    /// memory some of them may stand there.
    fn add_followers(
        &self,
        trace: &mut Trace,
        followers: &[Place],
        written: usize,
    ) -> Result<(), AllocError>
        requires have { HaveValues self.now.meta.now self.now.tree.now followers.now }
        requires will_have { HaveValues self.now.meta.now
            (after self.now.planned.now self.now.tree.now) followers.now }
        requires differ { DifferInValues self.now.tree.now
            (after self.now.planned.now self.now.tree.now) }
        ensures ok { OnOk result (AddsFollowers self.now.meta.now
            (after self.now.planned.now self.now.tree.now) self.now.depth followers.now
            trace.old trace.new) }
        ensures err { OnErr result (Extends trace.old trace.new) }
    {
        let mut likely = written;
        for place in followers {
            trace.push(self.line(Cause::Follow, place, likely)?)?;
            likely = likely.saturating_add(1);
        }
        Ok(())
    }

    /// The line of a property with the value that it will have, which likely stands at this place among the planned ones.
    #[inline(always)]
    fn line(&self, cause: Cause, place: &Place, likely: usize) -> Result<Entry, AllocError>
        requires has { HasValue self.now.meta.now self.now.tree.now place.now }
        requires will_have { HasValue self.now.meta.now
            (after self.now.planned.now self.now.tree.now) place.now }
        requires differ { DifferInValues self.now.tree.now
            (after self.now.planned.now self.now.tree.now) }
        ensures { IfOk result (IsTold self.now.meta.now
            (after self.now.planned.now self.now.tree.now) self.now.depth cause place.now) }
    {
        let Some(value) = self.value(place, likely) else {
            unreachable!()
        };
        self.line_with(cause, place, value)
    }

    /// The line of a property with this value.
    #[inline(always)]
    fn line_with(&self, cause: Cause, place: &Place, value: &Value) -> Result<Entry, AllocError>
        requires has { HasValue self.now.meta.now self.now.tree.now place.now }
        requires will_have { HasValue self.now.meta.now
            (after self.now.planned.now self.now.tree.now) place.now }
        requires differ { DifferInValues self.now.tree.now
            (after self.now.planned.now self.now.tree.now) }
        ensures { IfOk result (IsToldWith self.now.meta.now
            (after self.now.planned.now self.now.tree.now) self.now.depth cause place.now
            value.now) }
    {
        line_of(self.meta, self.tree, self.depth, cause, place, value)
    }

    /// The value that a property will have, which likely stands at this place among the planned ones.
    #[inline(always)]
    fn value(&self, place: &Place, likely: usize) -> Option<&Value>
        requires { HasValue self.now.meta.now self.now.tree.now place.now }
        ensures { option_copied result ≡
            values_in (after self.now.planned.now self.now.tree.now) place.now }
    {
        match self.planned.value_near(likely, place) {
            Some(value) => Some(value),
            None => self.tree.value(place.object, place.property),
        }
    }
}

/// The line of a property with this value, before the change; it depends on no other value that the change gives.
#[inline(always)]
pub fn line_of(
    meta: &Meta,
    tree: &Tree,
    depth: usize,
    cause: Cause,
    place: &Place,
    value: &Value,
) -> Result<Entry, AllocError>
    requires has { HasValue meta.now tree.now place.now }
    ensures { IfOk result (WillBeTold meta.now tree.now depth cause place.now value.now) }
{
    let Some((object, life)) = tree.get(place.object) else {
        unreachable!()
    };
    let Some(class) = meta.object(life.class) else {
        unreachable!()
    };
    let Some(property) = class.property(place.property) else {
        unreachable!()
    };
    let value = show(tree, value)?;
    let what = entry_kind(cause, object.name.copy()?, property.name.copy()?, value);
    Ok(Entry::At(depth, what))
}

/// What is left of properties behind this one, if it stands first.
#[inline(always)]
fn behind<'p>(places: &'p [Place], place: &Place) -> &'p [Place]
    ensures { result.now ≡ behind place.now places.now }
{
    match places.split_first() {
        Some((first, rest)) if first.is_same(place) => rest,
        _ => places,
    }
}

/// What happens where a property comes to a value so.
#[inline(always)]
fn entry_kind(cause: Cause, object: Name, property: Name, value: Shown) -> EntryKind
    ensures { result ≡ entry_kind_of cause object property value }
{
    match cause {
        Cause::Write => EntryKind::Written {
            object,
            property,
            value,
        },
        Cause::Bind => EntryKind::Bound {
            object,
            property,
            value,
        },
        Cause::Follow => EntryKind::Followed {
            object,
            property,
            value,
        },
    }
}
