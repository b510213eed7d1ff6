//! What the native is for, and what it does.

ghost use Rattle.std.specs.Prelude.{◌≡◌, [], ◌∷◌, IfOk, IsTrue, codes, map};
ghost use Rattle.basic_types.specs.Types.{int_name, value_type};
ghost use Rattle.native_slots.specs.Effects.{accepts, are_within};
ghost use Rattle.native_slots.specs.Doubling.{doubling, twice_of};

use crate::{Action, Effects, NativeSlot, Natives, PlainProperty, PlainSignal, PlainType, Work};
use basic_types::{Arguments, INT, Name, QType, Sig, Value};
use sqlite_items::Items;
use std::alloc::{AllocError, Global};

/// The class that declares it.
pub fn class(alloc: Global) -> Result<Name, AllocError>
    ensures { IfOk result (λ name. name ≡ codes "Doubler") }
{
    Name::new(alloc, b"Doubler")
}

/// Its signature there, `twice(int)`.
pub fn twice(alloc: Global) -> Result<Sig, AllocError>
    ensures { IfOk result (λ sig. sig ≡ record { name = codes "twice"; types = value_type int_name ∷ [] }) }
{
    let name = Name::new(alloc, b"twice")?;
    let int = Name::new(alloc, INT)?;
    let mut types = Items::new(alloc);
    types.push(QType::value(int))?;
    Sig::new(alloc, name, types)
}

/// It takes an `int`, emits `done(int)` and sets `out`.
pub fn effects(alloc: Global) -> Result<Effects, AllocError>
    ensures { IfOk result (λ effects. effects ≡ doubling) }
{
    let mut parameters = Items::new(alloc);
    parameters.push(PlainType::Int)?;
    let mut types = Items::new(alloc);
    types.push(PlainType::Int)?;
    let done = PlainSignal {
        name: Name::new(alloc, b"done")?,
        types,
    };
    let mut emits = Items::new(alloc);
    emits.push(done)?;
    let out = PlainProperty {
        name: Name::new(alloc, b"out")?,
        kind: PlainType::Int,
    };
    let mut sets = Items::new(alloc);
    sets.push(out)?;
    Ok(Effects {
        parameters,
        reads: Items::new(alloc),
        emits,
        sets,
    })
}

/// What it answers: for one number the property is set to twice the number, kept within 32 bits, and then the signal is
/// emitted with it. Its effects allow no other arguments; for these nothing is asked for.
pub fn answer(alloc: Global, arguments: &[Value]) -> Result<Vec<Action>, AllocError>
    ensures actions { (number : _) → arguments.now ≡ Value.Int number ∷ []
        → IfOk result (λ actions. actions.items ≡ Action.Set 0 (Value.Int (twice_of number))
        ∷ Action.Emit 0 (Value.Int (twice_of number) ∷ []) ∷ []) }
    ensures within { IfOk result (λ actions. IsTrue (are_within doubling actions.items)) }
{
    match arguments {
        [Value::Int(number)] => doubled(alloc, number.saturating_mul(2)),
        _ => Ok(Vec::new(alloc)),
    }
}

/// The property is set to the number, and then the signal is emitted with it.
fn doubled(alloc: Global, number: i32) -> Result<Vec<Action>, AllocError>
    ensures actions { IfOk result (λ actions. actions.items
        ≡ Action.Set 0 (Value.Int number) ∷ Action.Emit 0 (Value.Int number ∷ []) ∷ []) }
    ensures within { IfOk result (λ actions. IsTrue (are_within doubling actions.items)) }
{
    let mut arguments = Arguments::new(alloc);
    arguments.push(Value::Int(number))?;
    let mut actions = Vec::new(alloc);
    actions.push(Action::Set(0, Value::Int(number)))?;
    actions.push(Action::Emit(0, arguments))?;
    Ok(actions)
}

/// The closures for programs that declare no other native: this one, which keeps the promise of a closure with its effects.
pub fn natives(alloc: Global, work: Work) -> Result<Natives, AllocError>
    requires callable { (arguments reads : _)
        → IsTrue (accepts doubling arguments.now reads.now) → Work.pre work arguments reads }
    requires within { (arguments reads outcome : _)
        → IsTrue (accepts doubling arguments.now reads.now)
        → Work.post work arguments reads outcome
        → IfOk outcome (λ actions. IsTrue (are_within doubling actions.items)) }
    ensures { IfOk result (λ natives. map (λ slot. slot.head) natives.slots.items
        ≡ record {
          class = codes "Doubler";
          sig = record { name = codes "twice"; types = value_type int_name ∷ [] };
          effects = doubling;
        } ∷ []) }
{
    let slot = NativeSlot::new(class(alloc)?, twice(alloc)?, effects(alloc)?, work);
    let mut slots = Vec::new(alloc);
    slots.push(slot)?;
    Ok(Natives::of(slots))
}
