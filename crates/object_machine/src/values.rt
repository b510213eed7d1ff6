//! The values that a script writes.

ghost use Rattle.std.specs.Prelude.{Ok, IfOk, IfErr};
ghost use Rattle.object_machine.specs.code.Judgement.{IsNotAccepted};
ghost use Rattle.object_machine.specs.Events.{value, values};

use crate::named::find_living;
use crate::not_accepted::NotAccepted;
use basic_types::{Arguments, ObjectId, Value};
use machine_state::World;
use script_lang::Input;
use std::alloc::Global;

/// The value that a script writes: a literal, or a reference to the living object of a name.
pub fn read_input(world: &World, input: &Input) -> Result<Value, NotAccepted>
    ensures value { IfOk result (λ v. value world.now.store.tree input.now (Ok v)) }
    ensures refused { IfErr result (IsNotAccepted (value world.now.store.tree input.now)) }
{
    match input {
        Input::Literal(literal) => {
            let value = literal.value()?;
            Ok(value)
        }
        Input::Object(name) => {
            let (object, _) = find_living(world, name)?;
            Ok(Value::Ref(Some(ObjectId::new(object))))
        }
    }
}

/// The values that a script writes.
pub fn read_inputs(alloc: Global, world: &World, inputs: &[Input]) -> Result<Arguments, NotAccepted>
    ensures values { IfOk result (λ vs. values world.now.store.tree inputs.now (Ok vs)) }
    ensures refused { IfErr result (IsNotAccepted (values world.now.store.tree inputs.now)) }
{
    let mut values = Arguments::new(alloc);
    for input in inputs {
        let value = read_input(world, input)?;
        values.push(value)?;
    }
    Ok(values)
}
