//! Where the members of classes stand among the nodes.

ghost use Rattle.std.specs.Prelude.{IfOk};
ghost use Rattle.effect_scan.specs.Nodes.{IsAt};
ghost use Rattle.effect_scan.specs.Effects.{Gathers};
ghost use Rattle.effect_scan.specs.code.NodePlaces.{AreJust, ArePlaces, InEach, InBelow, IsReached};

use crate::added::Added;
use crate::effect::{Effect, Reach};
use crate::lineage::lineage;
use crate::node::{Member, Node};
use crate::numbering::Numbering;
use crate::targets::Targets;
use meta_model::Meta;
use sqlite_items::Items;
use std::alloc::{AllocError, Global};

/// The nodes of a program, and which of its classes are below which.
#[derive(Drop)]
pub struct NodePlaces {
    /// The nodes, with their numbers.
    pub numbering: Numbering,
    /// For each class, those that are it or below it.
    pub lineage: Items<Targets>,
}

impl NodePlaces {
    /// The places of a program's nodes; its error is that memory was refused.
    pub fn of(alloc: Global, meta: &Meta) -> Result<NodePlaces, AllocError>
        ensures { IfOk result (ArePlaces meta.now) }
    {
        let numbering = Numbering::of(alloc, meta.classes())?;
        let lineage = lineage(alloc, meta)?;
        Ok(NodePlaces { numbering, lineage })
    }

    /// Adds the number of the node, and nothing where it is no node of the program.
    pub fn add_one(&self, node: Node, numbers: &mut Added) -> Result<(), AllocError>
        ensures { IfOk result (λ _.
            Gathers (IsAt self.now.numbering node) numbers.old numbers.new) }
    {
        match self.numbering.number(node) {
            Some(number) => numbers.add(number),
            None => Ok(()),
        }
    }

    /// Adds the numbers of this member in the classes.
    pub fn add_each(
        &self,
        classes: &[usize],
        member: Member,
        numbers: &mut Added,
    ) -> Result<(), AllocError>
        ensures { IfOk result (λ _.
            Gathers (InEach self.now.numbering classes.now member) numbers.old numbers.new) }
    {
        for class in classes {
            let node = Node {
                class: *class,
                member,
            };
            self.add_one(node, numbers)?;
        }
        Ok(())
    }

    /// Adds the numbers of this member in the class and those below it.
    pub fn add_below(
        &self,
        class: usize,
        member: Member,
        numbers: &mut Added,
    ) -> Result<(), AllocError>
        ensures { IfOk result (λ _.
            Gathers (InBelow self.now class member) numbers.old numbers.new) }
    {
        match self.lineage.get(class) {
            Some(classes) => self.add_each(classes.as_slice(), member, numbers),
            None => Ok(()),
        }
    }

    /// Adds the numbers of what the effect does something to, for an object of this class.
    pub fn add_reached(
        &self,
        class: usize,
        effect: Effect,
        numbers: &mut Added,
    ) -> Result<(), AllocError>
        ensures { IfOk result (λ _.
            Gathers (IsReached self.now class effect) numbers.old numbers.new) }
    {
        let member = effect.member;
        match effect.reach {
            Reach::Own => self.add_one(Node { class, member }, numbers),
            Reach::Below(other) => self.add_below(other, member, numbers),
        }
    }

    /// Adds the number of the node to those that edges lead to, and nothing where it is no node of the program.
    pub fn lead_to_one(
        &self,
        alloc: Global,
        node: Node,
        numbers: &mut Targets,
    ) -> Result<(), AllocError>
        ensures { IfOk result (λ _.
            Gathers (IsAt self.now.numbering node) numbers.old numbers.new) }
    {
        match self.numbering.number(node) {
            Some(number) => numbers.add(alloc, number),
            None => Ok(()),
        }
    }

    /// Adds the numbers of this member in the classes to those that edges lead to.
    pub fn lead_to_each(
        &self,
        alloc: Global,
        classes: &[usize],
        member: Member,
        numbers: &mut Targets,
    ) -> Result<(), AllocError>
        ensures { IfOk result (λ _.
            Gathers (InEach self.now.numbering classes.now member) numbers.old numbers.new) }
    {
        let mut found = Added::new(alloc);
        self.add_each(classes, member, &mut found)?;
        numbers.add_all(alloc, found.as_slice())
    }

    /// The numbers of this member in the class and those below it.
    pub fn below(&self, alloc: Global, class: usize, member: Member) -> Result<Added, AllocError>
        ensures { IfOk result (AreJust (InBelow self.now class member)) }
    {
        let mut found = Added::new(alloc);
        self.add_below(class, member, &mut found)?;
        Ok(found)
    }
}
