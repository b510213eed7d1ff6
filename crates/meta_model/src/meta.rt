//! The meta-objects of a program that loads, with what is looked up in them.

ghost use Rattle.std.specs.Prelude.{◌≡◌, ◌<◌, List, IsTrue, ◌↔◌, IfOk, IfSome, option_copied, slice_get};
ghost use Rattle.std.specs.List.{AllZip};
ghost use Rattle.name_indexes.specs.Places.{StandsAt};
ghost use Rattle.name_indexes.specs.LookUps.{LooksUp, LooksUpRef, FindsOnly};
ghost use Rattle.meta_model.specs.Indexes.{IndexesMembers};
ghost use Rattle.meta_model.specs.Members.{IsClassNamed, IsMethod, HasSig, IsMethodNamed, IsPropertyNamed};
ghost use Rattle.meta_model.specs.Members.{base_of, method_count, method_offset, Below};
ghost use Rattle.meta_model.specs.Members.{Covers, Owns};
ghost use Rattle.meta_model.specs.Sound.{IsSound, IsSoundClass, IsSoundMethod, IsSoundSite};
ghost use Rattle.meta_model.specs.Sites.{IsSiteNamed};
ghost use Rattle.meta_model.specs.Typed.{TellsType, TellsReference};
ghost use Rattle.meta_model.specs.Wiring.{IsWired};
ghost use Rattle.meta_model.specs.code.Declared.{MayOwn, OwnsFrom, Joins, CoversFrom};
ghost use Rattle.meta_model.specs.code.Ends.{IsEndOf};

use crate::class_index::{ClassIndex, MemberIndex, index_sites};
use crate::class_places::{ClassPlaces, index_owners, index_wires};
use crate::object::{MetaMethod, MetaObject, MetaOwns, MetaWire, ValueType};
use crate::site::MetaSite;
use basic_types::{Kind, Name, ObjectId, Sig, Value, fits};
use name_indexes::NameIndex;
use sqlite_items::Items;
use std::alloc::{AllocError, Global};
use std::marker::Model;

/// The meta-objects of a program that loads. Class 0 is `QObject`; the program's own classes follow as declared.
pub struct Meta {
    classes: Items<MetaObject>,
    wires: Items<MetaWire>,
    owns: Items<MetaOwns>,
    sites: Items<MetaSite>,
    index: ClassIndex,
    site_names: NameIndex,
    /// The places of `wires`, by the senders' classes.
    wires_from: ClassPlaces,
    /// The places of `owns`, by the parents' classes.
    owned_by: ClassPlaces,
}

impl Drop for Meta {
    fn drop(self) {
        let Meta {
            classes: _,
            wires: _,
            owns: _,
            sites: _,
            index: _,
            site_names: _,
            wires_from: _,
            owned_by: _,
        } = self;
    }
}

impl Model for Meta {
    ghost use Rattle.meta_model.specs.Indexes.{IsIndexOf, IndexesSites, IndexesWires, IndexesOwners};
    ghost use Rattle.std.specs.Prelude.{length};
    ghost use Rattle.meta_model.specs.Loaded.{Loaded};
    ghost use Rattle.meta_model.specs.Sound.{IsSound};
    ghost use Rattle.meta_model.specs.contracts.object.Statement as statement;
    ghost use Rattle.meta_model.specs.contracts.site.SourceProperty as source;
    ghost use Rattle.syntax_trees.specs.contracts.syntax.Expr as expr;
    ghost use Rattle.std.specs.Coded.{codes};

    ghost Value = { Loaded };

    ghost coded = { Prim.hlevel (codes, statement.the_row.coded, (expr.the_row source.the_row).coded) };

    ghost view = { λ meta. record { classes = meta.classes; wires = meta.wires; owns = meta.owns; sites = meta.sites } };

    ghost invariant = { λ meta. IsSound (record { classes = meta.classes; wires = meta.wires; owns = meta.owns; sites = meta.sites }) × IsIndexOf meta.classes meta.index × IndexesSites meta.sites meta.site_names × IndexesWires meta.wires (length meta.classes) meta.wires_from × IndexesOwners meta.owns (length meta.classes) meta.owned_by };
}

/// Whether a wire covers a connection, and whether its method fits its signal.
#[derive(Clone, Copy, Debug, PartialEq, Eq)]
pub enum Wired {
    /// No wire covers the connection.
    No,
    /// A wire covers it, but the method's parameter types aren't the signal's first ones.
    Unfit,
    /// A wire covers it, and the method fits the signal.
    Fit,
}

/// A signal or a method at an end of a connection.
#[derive(Clone, Copy)]
pub struct ConnectionEnd<'s> {
    /// The class of the object at this end.
    pub class: usize,
    /// The number of the signal or the method in that class, where it is known.
    pub number: Option<usize>,
    /// How it is spelled.
    pub sig: &'s Sig,
}

impl Meta {
    /// The meta-objects of these classes, each with the index of its members, wires, owners and binding sites. The error is
    /// that memory was refused.
    pub fn of(
        alloc: Global,
        classes: Items<MetaObject>,
        members: Items<MemberIndex>,
        wires: Items<MetaWire>,
        owns: Items<MetaOwns>,
        sites: Items<MetaSite>,
    ) -> Result<Meta, AllocError>
        requires sound { IsSound (record { classes = classes; wires = wires; owns = owns; sites = sites }) }
        requires indexed { AllZip IndexesMembers classes members }
        ensures { IfOk result (λ meta. meta ≡ record { classes = classes; wires = wires; owns = owns; sites = sites }) }
    {
        let index = ClassIndex::new(alloc, classes.as_slice(), members)?;
        let site_names = index_sites(alloc, sites.as_slice())?;
        let wires_from = index_wires(alloc, classes.len(), wires.as_slice())?;
        let owned_by = index_owners(alloc, classes.len(), owns.as_slice())?;
        Ok(Meta {
            classes,
            wires,
            owns,
            sites,
            index,
            site_names,
            wires_from,
            owned_by,
        })
    }

    /// The classes by their numbers: `QObject`, then the program's as declared.
    pub fn classes(&self) -> &[MetaObject]
        ensures value { result.now ≡ self.now.classes }
        ensures sound { IsSound self.now }
    {
        self.classes.as_slice()
    }

    /// The wires, as declared.
    pub fn wires(&self) -> &[MetaWire]
        ensures { result.now ≡ self.now.wires }
    {
        self.wires.as_slice()
    }

    /// The declarations of owners, as declared.
    pub fn owned(&self) -> &[MetaOwns]
        ensures { result.now ≡ self.now.owns }
    {
        self.owns.as_slice()
    }

    /// The binding sites, as declared; a site's number is its place among them.
    pub fn sites(&self) -> &[MetaSite]
        ensures value { result.now ≡ self.now.sites }
        ensures sound { IsSound self.now }
    {
        self.sites.as_slice()
    }

    /// The number of the binding site of this name, or `None` where there is none.
    pub fn site(&self, name: &Name) -> Option<usize>
        ensures value { LooksUp (IsSiteNamed self.now name.now) result }
        ensures only { FindsOnly (IsSiteNamed self.now name.now) result }
    {
        self.site_names.find(name)
    }

    /// The binding site of this number: its class and property, the classes of its formal sources, its expression; or
    /// `None` past the last one.
    pub fn site_at(&self, site: usize) -> Option<&MetaSite>
        ensures value { option_copied result ≡ slice_get self.now.sites site }
        ensures sound { IfSome result (λ s. IsSoundSite self.now s.now) }
    {
        self.sites.get(site)
    }

    /// The number of the class of this name, or `None` where there is none.
    pub fn class(&self, name: &Name) -> Option<usize>
        ensures value { LooksUp (IsClassNamed self.now name.now) result }
        ensures only { FindsOnly (IsClassNamed self.now name.now) result }
    {
        self.index.class(name)
    }

    /// The class of this number, or `None` past the last one.
    pub fn object(&self, class: usize) -> Option<&MetaObject>
        ensures value { option_copied result ≡ slice_get self.now.classes class }
        ensures sound { IfSome result (λ k. IsSoundClass self.now class k.now) }
    {
        self.classes.get(class)
    }

    /// The number of the class's base, or `None` for `QObject` and past the last class.
    pub fn base(&self, class: usize) -> Option<usize>
        ensures value { result ≡ base_of self.now class }
        ensures smaller { IfSome result (λ b. b < class) }
    {
        match self.object(class) {
            Some(found) => found.base,
            None => None,
        }
    }

    /// Whether the class is the other or below it. A number past the last class is below none.
    pub fn inherits(&self, class: usize, other: usize) -> bool
        ensures { IsTrue result ↔ Below self.now class other }
    {
        let mut below = class;
        while below != other {
            match self.base(below) {
                Some(base) => below = base,
                None => return false,
            }
        }
        match self.object(below) {
            Some(_) => true,
            None => false,
        }
    }

    /// How many methods the class has, inherited ones too; 0 past the last class.
    pub fn method_count(&self, class: usize) -> usize
        ensures { result ≡ method_count self.now class }
    {
        match self.object(class) {
            Some(found) => found.methods.len(),
            None => 0,
        }
    }

    /// How many of the class's methods are inherited, which have the first numbers; 0 for `QObject`.
    pub fn method_offset(&self, class: usize) -> usize
        ensures { result ≡ method_offset self.now class }
    {
        match self.base(class) {
            Some(base) => self.method_count(base),
            None => 0,
        }
    }

    /// The method of this number, of the class of this number, or `None` where either isn't there.
    pub fn method_at(&self, class: usize, method: usize) -> Option<&MetaMethod>
        ensures value { LooksUpRef (IsMethod self.now class method) result }
        ensures sound { IfSome result (λ m. IsSoundMethod self.now class method m.now) }
    {
        self.object(class)?.method(method)
    }

    /// The number of the method of this signature, in the class of this number, or `None` where there is none.
    pub fn method(&self, class: usize, sig: &Sig) -> Option<usize>
        ensures value { LooksUp (HasSig self.now class sig.now) result }
        ensures only { FindsOnly (HasSig self.now class sig.now) result }
    {
        let found = self.by_name(class, &sig.name, sig.types.len())?;
        if self.has_sig(class, found, sig) {
            Some(found)
        } else {
            None
        }
    }

    /// The number of the method of this name with so many parameters, in the class of this number, or `None` where
    /// there is none.
    pub fn by_name(&self, class: usize, name: &Name, count: usize) -> Option<usize>
        ensures value { LooksUp (IsMethodNamed self.now class name.now count) result }
        ensures only { FindsOnly (IsMethodNamed self.now class name.now count) result }
    {
        self.index.method(class, name, count)
    }

    /// The number of the property of this name, in the class of this number, or `None` where there is none.
    pub fn property(&self, class: usize, name: &Name) -> Option<usize>
        ensures value { LooksUp (IsPropertyNamed self.now class name.now) result }
        ensures only { FindsOnly (IsPropertyNamed self.now class name.now) result }
    {
        self.index.property(class, name)
    }

    /// Whether a wire covers the connection of a signal of one class to a method of another, by this kind, and whether
    /// the method fits the signal. A wire covers its own classes and those below them; `destroyed()` is as spelled here.
    pub fn wired(
        &self,
        sender: usize,
        signal: &Sig,
        receiver: usize,
        method: &Sig,
        kind: Kind,
    ) -> Wired
        ensures { IsWired self.now sender signal.now receiver method.now kind result }
    {
        let from = ConnectionEnd {
            class: sender,
            number: None,
            sig: signal,
        };
        let to = ConnectionEnd {
            class: receiver,
            number: None,
            sig: method,
        };
        self.wired_ends(&from, &to, kind)
    }

    /// The same of two ends. A wire of the very classes is compared by its numbers, where the ends have them.
    pub fn wired_ends(&self, from: &ConnectionEnd<'_>, to: &ConnectionEnd<'_>, kind: Kind) -> Wired
        requires from { IsEndOf self.now from.now }
        requires to { IsEndOf self.now to.now }
        ensures { IsWired self.now from.now.class from.now.sig.now to.now.class to.now.sig.now kind result }
    {
        if !self.covers(from, to, kind) {
            Wired::No
        } else if fits(from.sig, to.sig) {
            Wired::Fit
        } else {
            Wired::Unfit
        }
    }

    /// Whether a wire covers the connection.
    fn covers(&self, from: &ConnectionEnd<'_>, to: &ConnectionEnd<'_>, kind: Kind) -> bool
        requires from { IsEndOf self.now from.now }
        requires to { IsEndOf self.now to.now }
        ensures { IsTrue result ↔ Covers self.now from.now.class from.now.sig.now to.now.class to.now.sig.now kind }
    {
        let mut class = from.class;
        'classes: while !self.covers_by(class, from, to, kind) {
            match self.base(class) {
                Some(base) => class = base,
                None => return false,
            }
        }
        true
    }

    /// Whether a wire covers the connection whose sender's class this is.
    fn covers_by(
        &self,
        class: usize,
        from: &ConnectionEnd<'_>,
        to: &ConnectionEnd<'_>,
        kind: Kind,
    ) -> bool
        requires from { IsEndOf self.now from.now }
        requires to { IsEndOf self.now to.now }
        ensures { IsTrue result ↔ CoversFrom self.now class from.now.sig.now to.now.class to.now.sig.now kind }
    {
        let mut place = self.wires_from.last_of(class);
        'places: while let Some(at) = place {
            if self.is_covered_at(at, from, to, kind) {
                return true;
            }
            place = self.wires_from.earlier_of(at);
        }
        false
    }

    /// Whether the wire at this place covers the connection, where the sender is of its class.
    fn is_covered_at(
        &self,
        at: usize,
        from: &ConnectionEnd<'_>,
        to: &ConnectionEnd<'_>,
        kind: Kind,
    ) -> bool
        requires from { IsEndOf self.now from.now }
        requires to { IsEndOf self.now to.now }
        ensures { IsTrue result
            ↔ StandsAt (Joins self.now from.now.sig.now to.now.class to.now.sig.now kind) self.now.wires at }
    {
        match self.wires.get(at) {
            Some(wire) => {
                wire.kind == kind
                    && self.inherits(to.class, wire.receiver)
                    && self.is_end_at(from, wire.sender, wire.signal)
                    && self.is_end_at(to, wire.receiver, wire.method)
            }
            None => false,
        }
    }

    /// Whether the method of this number has the signature of the end.
    #[inline(always)]
    fn is_end_at(&self, end: &ConnectionEnd<'_>, class: usize, method: usize) -> bool
        requires { IsEndOf self.now end.now }
        ensures { IsTrue result ↔ HasSig self.now class end.now.sig.now method }
    {
        match end.number {
            Some(number) if end.class == class && number == method => true,
            _ => self.has_sig(class, method, end.sig),
        }
    }

    /// Whether the method of this number has this signature.
    #[inline(always)]
    fn has_sig(&self, class: usize, method: usize, sig: &Sig) -> bool
        ensures { IsTrue result ↔ HasSig self.now class sig.now method }
    {
        match self.method_at(class, method) {
            Some(found) => found.sig.is_same(sig),
            None => false,
        }
    }

    /// Whether an object of the first class may be the parent of one of the second: by a declaration of these classes
    /// or of classes above them.
    pub fn owns(&self, parent: usize, child: usize) -> bool
        ensures { IsTrue result ↔ Owns self.now parent child }
    {
        let mut class = parent;
        'classes: while !self.owns_by(class, child) {
            match self.base(class) {
                Some(base) => class = base,
                None => return false,
            }
        }
        true
    }

    /// Whether a declaration says so whose parent's class this is.
    fn owns_by(&self, class: usize, child: usize) -> bool
        ensures { IsTrue result ↔ OwnsFrom self.now class child }
    {
        let mut place = self.owned_by.last_of(class);
        'places: while let Some(at) = place {
            if self.is_child_at(at, child) {
                return true;
            }
            place = self.owned_by.earlier_of(at);
        }
        false
    }

    /// Whether the declaration at this place is of the child's class or of one above it.
    fn is_child_at(&self, at: usize, child: usize) -> bool
        ensures { IsTrue result ↔ StandsAt (MayOwn self.now child) self.now.owns at }
    {
        match self.owns.get(at) {
            Some(declared) => self.inherits(child, declared.child),
            None => false,
        }
    }

    /// Whether the value has the type. Where the value refers to an object, `class` is that object's class, or `None`
    /// where the object is dead; else it plays no part.
    pub fn has_type(&self, value: &Value, class: Option<usize>, kind: ValueType) -> bool
        ensures { TellsType self.now value.now class kind result }
    {
        match (value, kind) {
            (Value::Int(_), ValueType::Int) => true,
            (Value::Bool(_), ValueType::Bool) => true,
            (Value::Text(_), ValueType::Text) => true,
            (Value::Ref(object), _) => self.refers_to(*object, class, kind),
            _ => false,
        }
    }

    /// Whether null, or a reference to an object of this class, has the type.
    fn refers_to(&self, object: Option<ObjectId>, class: Option<usize>, kind: ValueType) -> bool
        ensures { TellsReference self.now object class kind result }
    {
        let ValueType::Reference(wanted, _) = kind else {
            return false;
        };
        match (object, class) {
            (None, _) => true,
            (Some(_), Some(class)) => self.inherits(class, wanted),
            (Some(_), None) => false,
        }
    }
}
