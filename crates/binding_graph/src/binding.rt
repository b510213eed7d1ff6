//! Bindings, and what their expressions read.

ghost use Rattle.std.specs.Prelude.{◌≡◌, ◌∷◌, [], ◌++◌, eqb, filter_map, not, IfOk, OnOk};
ghost use Rattle.std.specs.List.{list_any};
ghost use Rattle.indexmap.specs.IndexSet.{contains};
ghost use Rattle.meta_model.specs.Among.{is_among};
ghost use Rattle.binding_graph.specs.Bindings.{leads_out, named_in, source_place, read_by, touches};
ghost use Rattle.binding_graph.specs.code.Touched.{leads_out_by};

use crate::place::Place;
use basic_types::ObjectId;
use indexmap::IndexSet;
use meta_model::{Formula, SourceProperty};
use sqlite_items::Items;
use std::alloc::{AllocError, Global};
use syntax_trees::Expr;

/// A binding: the target follows its site's expression over the sources.
#[derive(Drop)]
pub struct Binding {
    /// The number of its site.
    pub site: usize,
    /// The property that is bound.
    pub target: Place,
    /// The objects that stand for the site's formal sources, in their order.
    pub sources: Items<ObjectId>,
    /// The site's expression.
    pub formula: Formula,
}

impl Binding {
    /// The properties that the expression names, in its order. Its error is that memory was refused.
    pub fn reads(&self, alloc: Global) -> Result<Vec<Place>, AllocError>
        ensures { IfOk result (λ reads. reads.items ≡ read_by self.now) }
    {
        let mut reads = Vec::new(alloc);
        push_names(
            self.formula.expression(),
            self.sources.as_slice(),
            &mut reads,
        )?;
        Ok(reads)
    }

    /// Whether the object is the target's, or a source.
    pub fn touches(&self, object: ObjectId) -> bool
        ensures { result ≡ touches object self.now }
    {
        self.target.object == object || is_among(self.sources.as_slice(), object)
    }

    /// Whether one of its objects, its target's and its sources, is among these, and another isn't.
    pub fn leads_out(&self, objects: &[ObjectId]) -> bool
        ensures { result ≡ leads_out objects.now self.now }
    {
        let sources = self.sources.as_slice();
        if is_among(objects, self.target.object) {
            is_one_outside(sources, objects)
        } else {
            is_one_inside(sources, objects)
        }
    }

    /// Whether one of its objects is among those of these numbers, and another isn't.
    pub fn leads_out_of(&self, objects: &IndexSet<usize>) -> bool
        ensures { result ≡ leads_out_by (contains eqb objects.now) self.now }
    {
        let sources = self.sources.as_slice();
        if objects.contains(&self.target.object.number()) {
            is_one_beyond(sources, objects)
        } else {
            is_one_within(sources, objects)
        }
    }
}

/// Whether one of the sources is among the objects of these numbers.
fn is_one_within(sources: &[ObjectId], objects: &IndexSet<usize>) -> bool
    ensures { result ≡ list_any (contains eqb objects.now) sources.now }
{
    for source in sources {
        if objects.contains(&source.number()) {
            return true;
        }
    }
    false
}

/// Whether one of the sources isn't among the objects of these numbers.
fn is_one_beyond(sources: &[ObjectId], objects: &IndexSet<usize>) -> bool
    ensures { result ≡ list_any (λ o. not (contains eqb objects.now o)) sources.now }
{
    for source in sources {
        if !objects.contains(&source.number()) {
            return true;
        }
    }
    false
}

/// Whether the object is one of these.
fn is_among(objects: &[ObjectId], object: ObjectId) -> bool
    ensures { result ≡ is_among object objects.now }
{
    for other in objects {
        if *other == object {
            return true;
        }
    }
    false
}

/// Whether one of the sources is among these objects.
fn is_one_inside(sources: &[ObjectId], objects: &[ObjectId]) -> bool
    ensures { result ≡ list_any (λ o. is_among o objects.now) sources.now }
{
    for source in sources {
        if is_among(objects, *source) {
            return true;
        }
    }
    false
}

/// Whether one of the sources isn't among these objects.
fn is_one_outside(sources: &[ObjectId], objects: &[ObjectId]) -> bool
    ensures { result ≡ list_any (λ o. not (is_among o objects.now)) sources.now }
{
    for source in sources {
        if !is_among(objects, *source) {
            return true;
        }
    }
    false
}

#[tactic(auto, using(crate::proofs::Naming::named_equations))]
/// Adds the properties that the expression names, over these sources. Its error is that memory was refused.
fn push_names(
    expression: &Expr<SourceProperty>,
    sources: &[ObjectId],
    reads: &mut Vec<Place>,
) -> Result<(), AllocError>
    ensures { OnOk result (reads.new.items
        ≡ reads.old.items ++ filter_map (source_place sources.now) (named_in expression.now)) }
{
    match expression {
        Expr::Literal(_) => Ok(()),
        Expr::Path(named) => push_name(*named, sources, reads),
        Expr::Unary(_, operand) => push_names(operand.get(), sources, reads),
        Expr::Binary(_, left, right) => {
            push_names(left.get(), sources, reads)?;
            push_names(right.get(), sources, reads)?;
            Ok(())
        }
    }
}

/// Adds the property that a name stands for, if there is such a source.
fn push_name(
    named: SourceProperty,
    sources: &[ObjectId],
    reads: &mut Vec<Place>,
) -> Result<(), AllocError>
    ensures { OnOk result (reads.new.items
        ≡ reads.old.items ++ filter_map (source_place sources.now) (named ∷ [])) }
{
    match sources.get(named.source) {
        Some(object) => {
            reads.push(Place {
                object: *object,
                property: named.property,
            })?;
            Ok(())
        }
        None => Ok(()),
    }
}
