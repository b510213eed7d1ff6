//! The installed bindings with what finds what follows from a property.

ghost use Rattle.std.specs.Prelude.{◌≡◌, ◌<◌, ◌^◌, [], length, eqb, not, IfOk, IsTrue, OnOk};
ghost use Rattle.indexmap.specs.IndexSet.{contains};
ghost use Rattle.binding_graph.specs.Bindings.{binding_at, dropped, lead_out, replaced, without, without_all};
ghost use Rattle.binding_graph.specs.code.Graph.{AreKeyed, AreNamed, AreTouched, HasRoom, IsGraph, IsIndexed, LosesPlace, LosesReader, LosesTarget, NamesTouched, RankOfReader, Unread, bindings_of, touches_too};
ghost use Rattle.binding_graph.specs.code.Orders.{IsLater};
ghost use Rattle.binding_graph.specs.code.BindingRanks.{HasNumbers};
ghost use Rattle.binding_graph.specs.code.Touched.{AreTouchedAmong, LeavesTouching, ListsTouching, lead_out_touched, leads_out_at, leads_out_of};

use crate::binding::Binding;
use crate::installed::{Installed, Reader};
use crate::place::{Place, contains};
use crate::ranks::BindingRanks;
use crate::readers::Readers;
use crate::touching::Touching;
use basic_types::ObjectId;
use indexmap::IndexSet;
use std::alloc::{AllocError, Global};

/// The installed bindings, each property's readers, the numbers of the bound properties, in whose order they are evaluated,
/// and the bindings that touch each object.
#[derive(Drop)]
pub struct Graph {
    pub installed: Installed,
    pub readers: Readers,
    pub ranks: BindingRanks,
    pub touching: Touching,
}

impl Graph {
    /// No bindings.
    pub fn new(alloc: Global) -> Graph
        ensures none { bindings_of result ≡ [] }
        ensures graph { IsGraph result }
    {
        let installed = Installed::new(alloc);
        let readers = Readers::new(alloc);
        let ranks = BindingRanks::new(alloc);
        let touching = Touching::new(alloc);
        Graph {
            installed,
            readers,
            ranks,
            touching,
        }
    }

    /// Whether it is certain that no binding reads the property: none is named as its reader.
    pub fn is_unread(&self, place: &Place) -> bool
        requires { IsGraph self.now }
        ensures { IsTrue result → Unread (binding_at (bindings_of self.now)) place.now }
    {
        if self.installed.is_empty() {
            return true;
        }
        self.readers.of(place).is_empty()
    }

    /// The number of a property, if its binding reads the source. The binding is likely in this slot; the next one that is
    /// asked for is likely in the slot behind it.
    #[inline(always)]
    pub fn rank_of_reader(
        &self,
        likely: &mut usize,
        reader: &Place,
        source: &Place,
    ) -> Option<usize>
        requires { IsGraph self.now }
        ensures { RankOfReader self.now reader.now source.now result }
    {
        let Some((slot, found)) = self.installed.find_near(*likely, reader) else {
            return None;
        };
        *likely = slot.saturating_add(1);
        if !contains(found.reads(), source) {
            return None;
        }
        self.ranks.rank_near(slot, reader)
    }

    /// Makes room for a binding, which is named as a reader, and for so many numbers. Where memory is refused nothing
    /// changes that is seen.
    pub fn make_room(
        &mut self,
        alloc: Global,
        reader: &Reader,
        moved: usize,
    ) -> Result<(), AllocError>
        requires graph { IsGraph self.old }
        requires few { moved < 2 ^ 63 }
        ensures same { bindings_of self.new ≡ bindings_of self.old }
        ensures graph { IsGraph self.new }
        ensures room { OnOk result (HasRoom self.new.installed) }
        ensures numbers { OnOk result (HasNumbers moved self.new.ranks) }
        ensures named { OnOk result (AreNamed self.new.readers reader.now) }
        ensures touched { OnOk result (AreTouched self.new.touching reader.now) }
    {
        self.installed.reserve()?;
        self.ranks.reserve(moved)?;
        self.readers.enlist(alloc, reader)?;
        self.touching.add_binding(alloc, reader.binding())?;
        Ok(())
    }

    /// Puts a binding, for which there is room, in place of its target's old one. The target and what follows from it are
    /// evaluated after all others from now on.
    pub fn install(&mut self, reader: Reader, moved: &[Place])
        requires graph { IsGraph self.old }
        requires room { HasRoom self.old.installed }
        requires numbers { HasNumbers (length moved.now) self.old.ranks }
        requires named { AreNamed self.old.readers reader }
        requires touched { AreTouched self.old.touching reader }
        requires later { IsLater (binding_at (bindings_of self.old))
            (binding_at (replaced (bindings_of self.old) reader)) reader.target moved.now }
        ensures replaced { bindings_of self.new ≡ replaced (bindings_of self.old) reader }
        ensures graph { IsGraph self.new }
    {
        let target = reader.binding().target;
        unlist(&self.installed, &mut self.readers, &target, reader.reads());
        leave_old(&self.installed, &mut self.touching, reader.binding());
        self.installed.remove(&target);
        self.installed.push(reader);
        self.ranks.renumber(moved);
    }

    /// Removes the binding of a property. Where it has none, that is seen by one look-up, and by none where nothing is
    /// installed.
    pub fn remove(&mut self, place: &Place)
        requires { IsGraph self.old }
        ensures left { bindings_of self.new ≡ without place.now (bindings_of self.old) }
        ensures graph { IsGraph self.new }
    {
        if self.installed.is_empty() {
            return;
        }
        self.remove_bound(place);
    }

    /// Removes the binding of a property, whatever is named under the objects.
    fn remove_bound(&mut self, place: &Place)
        requires { IsIndexed self.old }
        ensures left { bindings_of self.new ≡ without place.now (bindings_of self.old) }
        ensures indexed { IsIndexed self.new }
        ensures touched { LosesPlace place.now self.old.touching self.new.touching }
    {
        let Some(reader) = self.installed.reader(place) else {
            return;
        };
        self.readers.unlist(reader, &[]);
        self.touching.leave(reader.binding());
        self.installed.remove(place);
        self.ranks.forget(place);
    }

    /// Removes the bindings of these properties.
    pub fn remove_all(&mut self, places: &[Place])
        requires { IsGraph self.old }
        ensures left { bindings_of self.new ≡ without_all places.now (bindings_of self.old) }
        ensures graph { IsGraph self.new }
    {
        for place in places {
            self.remove(place);
        }
    }

    /// Whether a binding has one of its objects among these and another that isn't. Each object is looked up once, and then
    /// the bindings that touch one of these are looked at; all are, where there is no memory to note those.
    pub fn joins(&self, objects: &[ObjectId]) -> bool
        requires { IsGraph self.now }
        ensures { result ≡ lead_out objects.now (bindings_of self.now) }
    {
        if self.installed.is_empty() {
            return false;
        }
        match self.touched_among(objects) {
            Ok(touched) => self.joins_touched(&touched),
            Err(_) => self.installed.lead_out(objects),
        }
    }

    /// The numbers of those of these objects that bindings touch. The error is that memory was refused.
    fn touched_among(&self, objects: &[ObjectId]) -> Result<IndexSet<usize>, AllocError>
        ensures { IfOk result (λ touched. AreTouchedAmong self.now objects.now touched) }
    {
        let mut touched = IndexSet::new(*self.installed.by_target.allocator());
        for object in objects {
            if self.touching.of(*object).is_empty() {
                continue;
            }
            touched.insert(object.number())?;
        }
        Ok(touched)
    }

    /// Whether a binding that touches one of these objects joins it with another that isn't among them.
    fn joins_touched(&self, objects: &IndexSet<usize>) -> bool
        requires { AreKeyed self.now.installed }
        ensures { result ≡ lead_out_touched self.now (contains eqb objects.now) objects.now.keys }
    {
        let touched = objects.as_slice();
        for object in touched {
            if self.joins_at(ObjectId::new(*object), objects) {
                return true;
            }
        }
        false
    }

    /// Whether one of the bindings that touch this object does.
    fn joins_at(&self, object: ObjectId, objects: &IndexSet<usize>) -> bool
        requires { AreKeyed self.now.installed }
        ensures { result ≡ leads_out_at self.now (contains eqb objects.now) object }
    {
        let targets = self.touching.of(object);
        for target in targets {
            if self.joins_of(&Place::at(*target), objects) {
                return true;
            }
        }
        false
    }

    /// Whether the binding of this property does, if it has one.
    fn joins_of(&self, target: &Place, objects: &IndexSet<usize>) -> bool
        requires { AreKeyed self.now.installed }
        ensures { result ≡ leads_out_of (contains eqb objects.now)
            (binding_at (bindings_of self.now) target.now) }
    {
        match self.installed.reader(target) {
            Some(reader) => reader.binding().leads_out_of(objects),
            None => false,
        }
    }

    /// Removes the bindings whose target is of the object, or of which it is a source. It looks at no other.
    pub fn drop_object(&mut self, object: ObjectId)
        requires { IsGraph self.old }
        ensures left { bindings_of self.new ≡ dropped object (bindings_of self.old) }
        ensures graph { IsGraph self.new }
    {
        match self.touching.take(object) {
            Some(targets) => self.remove_touching(object, targets.as_slice()),
            None => {}
        }
    }

    /// Removes those that touch the object, one by one: they are bindings of properties with these numbers.
    fn remove_touching(&mut self, object: ObjectId, targets: &[(usize, usize)])
        requires indexed { IsIndexed self.old }
        requires touched { NamesTouched (λ o. not (eqb object o)) self.old }
        requires listed { ListsTouching object targets.now self.old }
        ensures left { bindings_of self.new ≡ dropped object (bindings_of self.old) }
        ensures graph { IsGraph self.new }
    {
        for target in targets {
            self.remove_if_touching(object, &Place::at(*target));
        }
    }

    /// Removes the binding of a property if it touches the object.
    fn remove_if_touching(&mut self, object: ObjectId, place: &Place)
        requires indexed { IsIndexed self.old }
        requires touched { NamesTouched (λ o. not (eqb object o)) self.old }
        ensures left { dropped object (bindings_of self.new) ≡ dropped object (bindings_of self.old) }
        ensures indexed { IsIndexed self.new }
        ensures touched { NamesTouched (λ o. not (eqb object o)) self.new }
        ensures gone { LeavesTouching object place.now self.old self.new }
    {
        if !self.is_touching(object, place) {
            return;
        }
        self.remove_bound(place);
    }

    /// Whether the property has a binding that touches the object.
    fn is_touching(&self, object: ObjectId, place: &Place) -> bool
        requires { AreKeyed self.now.installed }
        ensures { result ≡ touches_too (binding_at (bindings_of self.now) place.now) object }
    {
        match self.installed.reader(place) {
            Some(reader) => reader.binding().touches(object),
            None => false,
        }
    }
}

/// Removes the reader that is a property's binding from what it reads, but for these.
fn unlist(installed: &Installed, readers: &mut Readers, place: &Place, kept: &[Place])
    requires { AreKeyed installed.now }
    ensures { LosesReader kept.now place.now readers.old readers.new }
{
    match installed.reader(place) {
        Some(old) => readers.unlist(old, kept),
        None => {}
    }
}

/// Removes the target of a binding from the objects that its old binding touches and the new one doesn't.
fn leave_old(installed: &Installed, touching: &mut Touching, new: &Binding)
    requires { AreKeyed installed.now }
    ensures { LosesTarget new.now new.now.target touching.old touching.new }
{
    match installed.reader(&new.target) {
        Some(old) => touching.leave_to(old.binding(), new),
        None => {}
    }
}
