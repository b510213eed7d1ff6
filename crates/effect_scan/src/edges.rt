//! The edges between nodes, as they are read off declarations and bodies.

ghost use Rattle.std.specs.Prelude.{◌≡◌, ◌↔◌, ◌++◌, length, IfOk, OnOk};
ghost use Rattle.std.specs.List.{Contains};
ghost use Rattle.meta_model.specs.Sites.{paths_in};
ghost use Rattle.effect_scan.specs.declared.effect.Effect.{Effect as AnEffect};
ghost use Rattle.effect_scan.specs.Nodes.{named};
ghost use Rattle.effect_scan.specs.Effects.{WorkHas, Gathers};
ghost use Rattle.effect_scan.specs.code.Adding.{Adds};
ghost use Rattle.effect_scan.specs.code.NodePlaces.{AreJust, IsReached, IsRead, OfSome};
ghost use Rattle.effect_scan.specs.code.Leading.{WireLeads, WiresLead, MethodLeads, MethodsLead, WorksLead, WorkReaches, PropertyLeads, Notifies, PropertiesLead, NotifiersLead, SiteLeads, SitesLead, ClosureLeads, ClosuresLead};

use crate::added::Added;
use crate::effect::{Effect, gather, gather_native};
use crate::families::Families;
use crate::node::{Member, Node};
use crate::places::NodePlaces;
use crate::targets::Targets;
use basic_types::Kind;
use meta_model::{
    DESTROYED, DESTROYED_ALONE, MetaMethod, MetaObject, MetaProperty, MetaSite, MetaWire,
    SourceProperty, ValueType, Work,
};
use sqlite_items::{Items, at};
use std::alloc::{AllocError, Global};
use syntax_trees::Expr;

/// The signal of this number: `destroyed()` is `destroyed(QObject*)`.
pub fn named(signal: usize) -> usize
    ensures { result ≡ named signal }
{
    if signal == DESTROYED_ALONE {
        DESTROYED
    } else {
        signal
    }
}

/// Adds the edges from signals to what they are wired to.
pub fn add_wires(
    alloc: Global,
    places: &NodePlaces,
    wires: &[MetaWire],
    rows: &mut Families,
) -> Result<(), AllocError>
    requires { length rows.old ≡ length places.now.numbering }
    ensures { IfOk result (λ _. Adds (WiresLead places.now wires.now) rows.old rows.new) }
{
    for wire in wires {
        add_wire(alloc, places, wire, rows)?;
    }
    Ok(())
}

/// Adds the edges of the wire, if it isn't queued.
fn add_wire(
    alloc: Global,
    places: &NodePlaces,
    wire: &MetaWire,
    rows: &mut Families,
) -> Result<(), AllocError>
    requires { length rows.old ≡ length places.now.numbering }
    ensures { IfOk result (λ _. Adds (WireLeads places.now wire.now) rows.old rows.new) }
{
    match wire.kind {
        Kind::Queued => Ok(()),
        _ => {
            let signal = Member::Method(named(wire.signal));
            let from = places.below(alloc, wire.sender, signal)?;
            let to = places.below(alloc, wire.receiver, Member::Method(wire.method))?;
            rows.join(alloc, from.as_slice(), to.as_slice())
        }
    }
}

/// Adds the edges from methods to what is done when they are called.
pub fn add_works(
    alloc: Global,
    places: &NodePlaces,
    classes: &[MetaObject],
    rows: &mut [Targets],
) -> Result<(), AllocError>
    requires { length rows.old ≡ length places.now.numbering }
    ensures { IfOk result (λ _. Adds (WorksLead places.now classes.now) rows.old rows.new) }
{
    for (number, class) in classes.iter().enumerate() {
        add_methods(alloc, places, number, class, rows)?;
    }
    Ok(())
}

/// Adds the edges from the methods of the class of this number.
fn add_methods(
    alloc: Global,
    places: &NodePlaces,
    number: usize,
    class: &MetaObject,
    rows: &mut [Targets],
) -> Result<(), AllocError>
    requires { length rows.old ≡ length places.now.numbering }
    ensures { IfOk result (λ _. Adds (MethodsLead places.now number class.now) rows.old rows.new) }
{
    for (place, method) in class.methods.as_slice().iter().enumerate() {
        add_method(alloc, places, number, place, method.get(), rows)?;
    }
    Ok(())
}

/// Adds the edges from the method of this number in the class to what its work does: a signal does nothing by itself.
fn add_method(
    alloc: Global,
    places: &NodePlaces,
    class: usize,
    number: usize,
    method: &MetaMethod,
    rows: &mut [Targets],
) -> Result<(), AllocError>
    requires { length rows.old ≡ length places.now.numbering }
    ensures { IfOk result (λ _.
        Adds (MethodLeads places.now class number method.now) rows.old rows.new) }
{
    let member = Member::Method(number);
    match places.numbering.number(Node { class, member }) {
        Some(from) => add_work(alloc, places, class, method, &mut rows[from]),
        None => Ok(()),
    }
}

/// Adds the numbers of what the method's work does something to, for an object of this class.
fn add_work(
    alloc: Global,
    places: &NodePlaces,
    class: usize,
    method: &MetaMethod,
    numbers: &mut Targets,
) -> Result<(), AllocError>
    ensures { IfOk result (λ _.
        Gathers (WorkReaches places.now class method.now) numbers.old numbers.new) }
{
    let effects = effects_of(alloc, method.types.as_slice(), &method.work)?;
    let mut found = Added::new(alloc);
    add_all_reached(places, class, effects.as_slice(), &mut found)?;
    numbers.add_all(alloc, found.as_slice())
}

/// What is done at once when the method is called, whose parameters are of these types.
fn effects_of(alloc: Global, types: &[ValueType], work: &Work) -> Result<Items<Effect>, AllocError>
    ensures { IfOk result (λ effects.
        (e : AnEffect) → Contains effects e ↔ WorkHas types.now work.now e) }
{
    let mut effects = Items::new(alloc);
    match work {
        Work::Signal => Ok(effects),
        Work::Slot(body) => {
            gather(types, body.as_slice(), &mut effects)?;
            Ok(effects)
        }
        Work::Native(native) => {
            gather_native(native, &mut effects)?;
            Ok(effects)
        }
    }
}

/// Adds the numbers of what some of the effects does something to, for an object of this class, and puts all in order: a
/// body may do the same again and again.
fn add_all_reached(
    places: &NodePlaces,
    class: usize,
    effects: &[Effect],
    numbers: &mut Added,
) -> Result<(), AllocError>
    ensures { IfOk result (λ _.
        Gathers (OfSome (IsReached places.now class) effects.now) numbers.old numbers.new) }
{
    for effect in effects {
        places.add_reached(class, *effect, numbers)?;
    }
    numbers.put_in_order();
    Ok(())
}

/// Adds the edges from properties to their notify signals.
pub fn add_notifiers(
    alloc: Global,
    places: &NodePlaces,
    classes: &[MetaObject],
    rows: &mut [Targets],
) -> Result<(), AllocError>
    requires { length rows.old ≡ length places.now.numbering }
    ensures { IfOk result (λ _. Adds (NotifiersLead places.now classes.now) rows.old rows.new) }
{
    for (number, class) in classes.iter().enumerate() {
        add_properties(alloc, places, number, class, rows)?;
    }
    Ok(())
}

/// Adds the edges from the properties of the class of this number.
fn add_properties(
    alloc: Global,
    places: &NodePlaces,
    number: usize,
    class: &MetaObject,
    rows: &mut [Targets],
) -> Result<(), AllocError>
    requires { length rows.old ≡ length places.now.numbering }
    ensures { IfOk result (λ _.
        Adds (PropertiesLead places.now number class.now) rows.old rows.new) }
{
    for (place, property) in class.properties.as_slice().iter().enumerate() {
        add_property(alloc, places, number, place, property.get(), rows)?;
    }
    Ok(())
}

/// Adds the edges from the property of this number in the class.
fn add_property(
    alloc: Global,
    places: &NodePlaces,
    class: usize,
    number: usize,
    property: &MetaProperty,
    rows: &mut [Targets],
) -> Result<(), AllocError>
    requires { length rows.old ≡ length places.now.numbering }
    ensures { IfOk result (λ _.
        Adds (PropertyLeads places.now class number property.now) rows.old rows.new) }
{
    match property.notify {
        Some(signal) => add_notifier(alloc, places, class, number, named(signal), rows),
        None => Ok(()),
    }
}

/// Adds the edge from the property of this number in the class to the signal.
fn add_notifier(
    alloc: Global,
    places: &NodePlaces,
    class: usize,
    property: usize,
    signal: usize,
    rows: &mut [Targets],
) -> Result<(), AllocError>
    requires { length rows.old ≡ length places.now.numbering }
    ensures { IfOk result (λ _.
        Adds (Notifies places.now class property signal) rows.old rows.new) }
{
    let member = Member::Property(property);
    let to = Member::Method(signal);
    match places.numbering.number(Node { class, member }) {
        Some(from) => places.lead_to_one(alloc, Node { class, member: to }, &mut rows[from]),
        None => Ok(()),
    }
}

/// Adds the edges from the properties that binding sites read to those that they bind.
pub fn add_sites(
    alloc: Global,
    places: &NodePlaces,
    sites: &[MetaSite],
    rows: &mut Families,
) -> Result<(), AllocError>
    requires { length rows.old ≡ length places.now.numbering }
    ensures { IfOk result (λ _. Adds (SitesLead places.now sites.now) rows.old rows.new) }
{
    for site in sites {
        add_site(alloc, places, site, rows)?;
    }
    Ok(())
}

/// Adds the edges of this binding site.
fn add_site(
    alloc: Global,
    places: &NodePlaces,
    site: &MetaSite,
    rows: &mut Families,
) -> Result<(), AllocError>
    requires { length rows.old ≡ length places.now.numbering }
    ensures { IfOk result (λ _. Adds (SiteLeads places.now site.now) rows.old rows.new) }
{
    let mut sources = Items::new(alloc);
    gather_sources(site.formula.expression(), &mut sources)?;
    let from = read(alloc, places, site.formals.as_slice(), sources.as_slice())?;
    let to = places.below(alloc, site.class, Member::Property(site.property))?;
    rows.join(alloc, from.as_slice(), to.as_slice())
}

/// The properties that the expression names, from left to right.
fn gather_sources(
    expression: &Expr<SourceProperty>,
    sources: &mut Items<SourceProperty>,
) -> Result<(), AllocError>
    ensures { OnOk result (sources.new ≡ sources.old ++ paths_in expression.now) }
{
    match expression {
        Expr::Literal(_) => Ok(()),
        Expr::Path(source) => sources.push(*source),
        Expr::Unary(_, operand) => gather_sources(operand.get(), sources),
        Expr::Binary(_, left, right) => {
            gather_sources(left.get(), sources)?;
            gather_sources(right.get(), sources)
        }
    }
}

/// The numbers of these properties, where the sources are of these classes or below them, each once.
fn read(
    alloc: Global,
    places: &NodePlaces,
    formals: &[usize],
    sources: &[SourceProperty],
) -> Result<Added, AllocError>
    ensures { IfOk result (AreJust (OfSome (IsRead places.now formals.now) sources.now)) }
{
    let mut all = Added::new(alloc);
    for source in sources {
        let found = read_one(alloc, places, formals, *source)?;
        all.add_all(found.as_slice())?;
    }
    Ok(all.fitted())
}

/// The numbers of the property, where the source is of its class or below it.
fn read_one(
    alloc: Global,
    places: &NodePlaces,
    formals: &[usize],
    source: SourceProperty,
) -> Result<Added, AllocError>
    ensures { IfOk result (AreJust (IsRead places.now formals.now source)) }
{
    match at(formals, source.source) {
        Some(class) => places.below(alloc, *class, Member::Property(source.property)),
        None => Ok(Added::new(alloc)),
    }
}

/// Adds the edges from destructions to the announcements of those that are destroyed with an object.
pub fn add_closures(
    alloc: Global,
    places: &NodePlaces,
    closures: &[Items<usize>],
    rows: &mut [Targets],
) -> Result<(), AllocError>
    requires { length rows.old ≡ length places.now.numbering }
    ensures { IfOk result (λ _. Adds (ClosuresLead places.now closures.now) rows.old rows.new) }
{
    for (class, closure) in closures.iter().enumerate() {
        add_closure(alloc, places, class, closure.as_slice(), rows)?;
    }
    Ok(())
}

/// Adds the edges from the destruction of an object of this class.
fn add_closure(
    alloc: Global,
    places: &NodePlaces,
    class: usize,
    closure: &[usize],
    rows: &mut [Targets],
) -> Result<(), AllocError>
    requires { length rows.old ≡ length places.now.numbering }
    ensures { IfOk result (λ _.
        Adds (ClosureLeads places.now class closure.now) rows.old rows.new) }
{
    let member = Member::Destruction;
    match places.numbering.number(Node { class, member }) {
        Some(from) => places.lead_to_each(
            alloc,
            closure,
            Member::Method(DESTROYED),
            &mut rows[from],
        ),
        None => Ok(()),
    }
}
