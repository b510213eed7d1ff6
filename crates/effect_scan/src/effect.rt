//! What the statements of bodies and the actions of natives do at once, to which objects.

ghost use Rattle.std.specs.Prelude.{◌≡◌, IfOk};
ghost use Rattle.meta_model.specs.declared.object.Statement.TheViews.{out-Statement};
ghost use Rattle.effect_scan.specs.Effects.{reach_of_type, reach_of_root, reach_of, effect_of, effect_on, BodyHas, StatementHas, Gathers};
ghost use Rattle.effect_scan.specs.Effects.{IsDoneTo, NativeHas};
ghost use Rattle.effect_scan.specs.declared.node.Member.TheVariants.{Method, Property};

use crate::node::Member;
use meta_model::{MetaEffects, MetaPath, MetaRoot, Statement, ValueType};
use sqlite_items::Items;
use std::alloc::{AllocError, Global};

/// Which objects something is done to.
#[derive(Clone, Copy, Debug, PartialEq, Eq)]
pub enum Reach {
    /// The object whose body or native it is.
    Own,
    /// Some object of this class or of one below it.
    Below(usize),
}

/// Something that is done at once to a member of some objects: a signal is emitted, a slot called, a property written, or
/// the object destroyed.
#[derive(Clone, Copy, Debug, PartialEq, Eq)]
pub struct Effect {
    /// The objects.
    pub reach: Reach,
    /// The member.
    pub member: Member,
}

/// The objects that a path may lead to, where the parameters are of these types: one of the declared class or below it; or
/// `None` where it isn't declared to lead to objects.
pub fn reach_of(types: &[ValueType], path: &MetaPath) -> Option<Reach>
    ensures { result ≡ reach_of types.now path.now }
{
    match path.steps.as_slice().last() {
        Some(step) => reach_of_type(step.kind),
        None => match path.root {
            MetaRoot::This => Some(Reach::Own),
            MetaRoot::Parameter(parameter) => reach_of_type(*types.get(parameter)?),
        },
    }
}

/// The objects that a value of this type may refer to.
fn reach_of_type(kind: ValueType) -> Option<Reach>
    ensures { result ≡ reach_of_type kind }
{
    match kind {
        ValueType::Reference(class, _) => Some(Reach::Below(class)),
        _ => None,
    }
}

/// What the statement does at once, where the parameters are of these types; nothing, where what is in it does it, or
/// where it connects or posts.
pub fn effect_of(types: &[ValueType], statement: &Statement) -> Option<Effect>
    ensures { result ≡ effect_of types.now (out-Statement statement.now) }
{
    match statement {
        Statement::Set(path, property, _) => effect_on(types, path, Member::Property(*property)),
        Statement::Emit(signal, _) => Some(Effect {
            reach: Reach::Own,
            member: Member::Method(*signal),
        }),
        Statement::Call(path, method, _) => effect_on(types, path, Member::Method(*method)),
        Statement::Delete(path) => effect_on(types, path, Member::Destruction),
        Statement::If(_, _, _)
        | Statement::Connect(_, _)
        | Statement::Disconnect(_)
        | Statement::Later(_)
        | Statement::Group(_) => None,
    }
}

/// Something that is done to this member of the objects that the path may lead to.
fn effect_on(types: &[ValueType], path: &MetaPath, member: Member) -> Option<Effect>
    ensures { result ≡ effect_on types.now member path.now }
{
    let reach = reach_of(types, path)?;
    Some(Effect { reach, member })
}

/// What the statements of the body do at once, those in its blocks and groups too.
#[cycle(bodies)]
pub fn gather(
    types: &[ValueType],
    body: &[Statement],
    effects: &mut Items<Effect>,
) -> Result<(), AllocError>
    ensures { IfOk result (λ _. Gathers (BodyHas types.now body.now) effects.old effects.new) }
{
    for statement in body {
        gather_one(types, statement, effects)?;
    }
    Ok(())
}

/// What the statement does at once, and those that are in it.
#[cycle(bodies)]
fn gather_one(
    types: &[ValueType],
    statement: &Statement,
    effects: &mut Items<Effect>,
) -> Result<(), AllocError>
    ensures { IfOk result (λ _.
        Gathers (StatementHas types.now (out-Statement statement.now)) effects.old effects.new) }
{
    match statement {
        Statement::If(_, chosen, other) => {
            gather(types, chosen.as_slice(), effects)?;
            gather(types, other.as_slice(), effects)
        }
        Statement::Group(sets) => gather(types, sets.as_slice(), effects),
        _ => match effect_of(types, statement) {
            Some(effect) => effects.push(effect),
            None => Ok(()),
        },
    }
}

/// What the native may do at once: emit its signals and set its properties, those of the object itself.
pub fn gather_native(native: &MetaEffects, effects: &mut Items<Effect>) -> Result<(), AllocError>
    ensures { IfOk result (λ _. Gathers (NativeHas native.now) effects.old effects.new) }
{
    gather_emits(native.emits.as_slice(), effects)?;
    gather_sets(native.sets.as_slice(), effects)
}

/// The emission of each of the object's signals of these numbers.
fn gather_emits(signals: &[usize], effects: &mut Items<Effect>) -> Result<(), AllocError>
    ensures { IfOk result (λ _. Gathers (IsDoneTo (λ m. Method m) signals.now) effects.old effects.new) }
{
    for signal in signals {
        effects.push(Effect {
            reach: Reach::Own,
            member: Member::Method(*signal),
        })?;
    }
    Ok(())
}

/// The write of each of the object's properties of these numbers.
fn gather_sets(properties: &[usize], effects: &mut Items<Effect>) -> Result<(), AllocError>
    ensures { IfOk result (λ _. Gathers (IsDoneTo (λ q. Property q) properties.now) effects.old effects.new) }
{
    for property in properties {
        effects.push(Effect {
            reach: Reach::Own,
            member: Member::Property(*property),
        })?;
    }
    Ok(())
}
