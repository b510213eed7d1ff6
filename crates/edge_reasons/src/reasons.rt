//! What draws an edge: a statement, a native's declaration, a wire, a notify signal, a binding, or the deletion of objects.

ghost use Rattle.std.specs.Prelude.{◌≡◌, ◌↔◌, [], ◌∷◌, IsTrue, IsSome, IfSome, IfNone};
ghost use Rattle.effect_scan.specs.Nodes.{node};
ghost use Rattle.effect_scan.specs.Edges.{AtOrBelow, Reaches, ByWork, ByWire, ByNotify, BySite, MayLead};
ghost use Rattle.effect_scan.specs.declared.node.Member.TheVariants.{Method, Property};
ghost use Rattle.edge_reasons.specs.Reasons.{DoesTo, NativeLeads, WireJoins, IsSource, Reads, SiteBinds, Draws};
ghost use Rattle.edge_reasons.specs.code.Seeks.{Seeks};
ghost use Rattle.name_indexes.specs.Places.{IsPlace};

use basic_types::Kind;
use effect_scan::{Effect, Member, Node, Reach, effect_of, named};
use meta_model::{
    DESTROYED, Meta, MetaEffects, MetaSite, MetaWire, SourceProperty, Statement, ValueType, Work,
};
use std::ops::ControlFlow;
use syntax_trees::Expr;

/// What draws an edge.
#[derive(Clone, Copy, Debug, PartialEq, Eq)]
pub enum Reason {
    /// The statement of this number in the body of the slot, as `statement_at` counts.
    Statement(usize),
    /// The effects that the native is declared with.
    Native,
    /// The wire at this place, from 0.
    Wire(usize),
    /// The property's notify signal.
    Notify,
    /// The binding at this place, from 0.
    Binding(usize),
    /// Objects are deleted with one of the class, or with one of a class whose objects are.
    Deletion,
}

/// What draws the edge from the one node to the other; where several things do, the first: a body or a native before wires, a
/// notify signal before bindings, and each of them in the order of the text. `None` only where nothing leads from the one to
/// the other: where something does there is a reason. Time is linear in the body of a slot, in wires or in bindings.
pub fn reason_for(meta: &Meta, from: Node, to: Node) -> Option<Reason>
    ensures draws { IfSome result (Draws meta.now from to) }
    ensures none { IfNone result (¬ MayLead meta.now from to) }
    ensures some { MayLead meta.now from to → IsSome result }
{
    match from.member {
        Member::Method(method) => match work_reason(meta, from, method, to) {
            Some(reason) => Some(reason),
            None => match joining_wire(meta, from, to) {
                Some(place) => Some(Reason::Wire(place)),
                None => None,
            },
        },
        Member::Property(property) => {
            if notifies(meta, from.class, property, to) {
                return Some(Reason::Notify);
            }
            match binding_site(meta, from, to) {
                Some(place) => Some(Reason::Binding(place)),
                None => None,
            }
        }
        Member::Destruction => {
            if to.member == Member::Method(DESTROYED) {
                Some(Reason::Deletion)
            } else {
                None
            }
        }
    }
}

/// Whose body is looked through, and for what.
#[derive(Clone, Copy)]
struct ReasonSearch<'m> {
    meta: &'m Meta,
    class: usize,
    types: &'m [ValueType],
    to: Node,
}

impl<'m> ReasonSearch<'m> {
    /// Whether the effect is one on the node.
    fn reaches(&self, effect: Effect) -> bool
        ensures { IsTrue result ↔ Reaches self.now.meta.now self.now.class effect self.now.to }
    {
        let member = effect.member;
        match effect.reach {
            Reach::Own => {
                let class = self.class;
                self.to == Node { class, member }
            }
            Reach::Below(class) => is_below(self.meta, self.to, class, member),
        }
    }

    /// Whether the statement does something to the node by itself.
    fn is_done_by(&self, statement: &Statement) -> bool
        ensures { IsTrue result ↔
            DoesTo self.now.meta.now self.now.class self.now.types.now statement.now self.now.to }
    {
        match effect_of(self.types, statement) {
            Some(effect) => self.reaches(effect),
            None => false,
        }
    }

    /// The number of the first of these statements that does something to the node, with those that are in them, or that of
    /// what comes behind them all. The first of them has the number `start`.
    #[cycle(bodies)]
    fn first_among(&self, body: &[Statement], start: usize) -> ControlFlow<usize, usize>
        ensures { Seeks self.now.meta.now self.now.class self.now.types.now body.now self.now.to start result }
    {
        let mut next = start;
        for statement in body {
            next = self.first_in(statement, next)?;
        }
        ControlFlow::Continue(next)
    }

    /// The same of one statement, which has the number `start`, and of those that are in it.
    #[cycle(bodies)]
    fn first_in(&self, statement: &Statement, start: usize) -> ControlFlow<usize, usize>
        ensures { Seeks self.now.meta.now self.now.class self.now.types.now (statement.now ∷ []) self.now.to start result }
    {
        if self.is_done_by(statement) {
            return ControlFlow::Break(start);
        }
        let next = start.saturating_add(1);
        match statement {
            Statement::If(_, chosen, other) => {
                let next = self.first_among(chosen.as_slice(), next)?;
                self.first_among(other.as_slice(), next)
            }
            Statement::Group(sets) => self.first_among(sets.as_slice(), next),
            _ => ControlFlow::Continue(next),
        }
    }
}

/// What in the work of the method leads to the node.
fn work_reason(meta: &Meta, from: Node, method: usize, to: Node) -> Option<Reason>
    requires { from.member ≡ Method method }
    ensures draws { IfSome result (Draws meta.now from to) }
    ensures none { IfNone result (¬ ByWork meta.now from to) }
{
    let Some(found) = meta.method_at(from.class, method) else {
        return None;
    };
    match &found.work {
        Work::Signal => None,
        Work::Slot(body) => {
            let search = ReasonSearch {
                meta,
                class: from.class,
                types: found.types.as_slice(),
                to,
            };
            match search.first_among(body.as_slice(), 0) {
                ControlFlow::Break(number) => Some(Reason::Statement(number)),
                ControlFlow::Continue(_) => None,
            }
        }
        Work::Native(native) => {
            if native_leads(from.class, native, to) {
                Some(Reason::Native)
            } else {
                None
            }
        }
    }
}

/// Whether the native, of this class, may emit or set the node.
fn native_leads(class: usize, native: &MetaEffects, to: Node) -> bool
    ensures { IsTrue result ↔ NativeLeads class native.now to }
{
    if to.class != class {
        return false;
    }
    match to.member {
        Member::Method(signal) => native.emits.as_slice().contains(&signal),
        Member::Property(property) => native.sets.as_slice().contains(&property),
        Member::Destruction => false,
    }
}

/// Whether the node is this member, in the class or one below it.
fn is_below(meta: &Meta, place: Node, class: usize, member: Member) -> bool
    ensures { IsTrue result ↔ AtOrBelow meta.now class member place }
{
    place.member == member && meta.inherits(place.class, class)
}

/// The place of the first wire that isn't queued and leads from the one node to the other.
fn joining_wire(meta: &Meta, from: Node, to: Node) -> Option<usize>
    ensures { IsPlace (WireJoins meta.now from to) meta.now.wires result }
{
    for (place, wire) in meta.wires().iter().enumerate() {
        if joins(meta, wire, from, to) {
            return Some(place);
        }
    }
    None
}

/// Whether the wire leads from the one node to the other at once.
fn joins(meta: &Meta, wire: &MetaWire, from: Node, to: Node) -> bool
    ensures { IsTrue result ↔ WireJoins meta.now from to wire.now }
{
    wire.kind != Kind::Queued
        && is_below(meta, from, wire.sender, Member::Method(named(wire.signal)))
        && is_below(meta, to, wire.receiver, Member::Method(wire.method))
}

/// Whether the node is the notify signal of the property, in the same class.
fn notifies(meta: &Meta, class: usize, property: usize, to: Node) -> bool
    ensures { IsTrue result ↔ ByNotify meta.now (node class (Property property)) to }
{
    let Some(object) = meta.object(class) else {
        return false;
    };
    let Some(found) = object.property(property) else {
        return false;
    };
    match found.notify {
        Some(signal) => to.class == class && to.member == Member::Method(named(signal)),
        None => false,
    }
}

/// The place of the first binding that reads the one node for the other.
fn binding_site(meta: &Meta, from: Node, to: Node) -> Option<usize>
    ensures { IsPlace (SiteBinds meta.now from to) meta.now.sites result }
{
    for (place, site) in meta.sites().iter().enumerate() {
        if binds(meta, site, from, to) {
            return Some(place);
        }
    }
    None
}

/// Whether the binding is for the one node and reads the other.
fn binds(meta: &Meta, site: &MetaSite, from: Node, to: Node) -> bool
    ensures { IsTrue result ↔ SiteBinds meta.now from to site.now }
{
    is_below(meta, to, site.class, Member::Property(site.property))
        && reads(
            meta,
            site.formals.as_slice(),
            site.formula.expression(),
            from,
        )
}

/// Whether the expression reads the node, where the formal sources are of these classes.
fn reads(meta: &Meta, formals: &[usize], expression: &Expr<SourceProperty>, from: Node) -> bool
    ensures { IsTrue result ↔ Reads meta.now formals.now from expression.now }
{
    match expression {
        Expr::Literal(_) => false,
        Expr::Path(source) => is_source(meta, formals, *source, from),
        Expr::Unary(_, operand) => reads(meta, formals, operand.get(), from),
        Expr::Binary(_, left, right) => {
            if reads(meta, formals, left.get(), from) {
                return true;
            }
            reads(meta, formals, right.get(), from)
        }
    }
}

/// Whether the node is this property of the source.
fn is_source(meta: &Meta, formals: &[usize], source: SourceProperty, from: Node) -> bool
    ensures { IsTrue result ↔ IsSource meta.now formals.now from source }
{
    match formals.get(source.source) {
        Some(class) => is_below(meta, from, *class, Member::Property(source.property)),
        None => false,
    }
}
