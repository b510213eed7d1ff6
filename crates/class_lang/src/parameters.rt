//! The parameters of signals, slots and natives.

ghost use Rattle.std.specs.Prelude.{◌<◌, length, OnOk};
ghost use Rattle.token_reading.specs.code.Reading.{EndsAnywhere};
ghost use Rattle.class_lang.specs.code.Members.{ReadsSignalParameter, ReadsSlotParameter, EndsSignalParameter};
ghost use Rattle.class_lang.specs.Parameters.{SignalParameter, spell_signal_parameter, tree_of_signal_parameter, SlotParameter, spell_slot_parameter, tree_of_slot_parameter};

use syntax_trees::Parameter;
use token_reading::{Cursor, ParseFault, Part};

/// `type [Name]`
fn signal_parameter(cursor: &mut Cursor) -> Result<Parameter, ParseFault>
    ensures reads { ReadsSignalParameter cursor.old result cursor.new }
    ensures shorter { OnOk result (length cursor.new < length cursor.old) }
{
    let kind = cursor.kind()?;
    let name = cursor.optional_name()?;
    Ok(Parameter { kind, name })
}

/// `type Name`
fn slot_parameter(cursor: &mut Cursor) -> Result<Parameter, ParseFault>
    ensures reads { ReadsSlotParameter cursor.old result cursor.new }
    ensures shorter { OnOk result (length cursor.new < length cursor.old) }
{
    let kind = cursor.kind()?;
    let name = cursor.name()?;
    Ok(Parameter {
        kind,
        name: Some(name),
    })
}

/// A parameter of a signal or a native, as a part of a list.
pub struct SignalParameterPart;

impl Part for SignalParameterPart {
    type Tree = Parameter;

    ghost Reading = { SignalParameter };

    ghost spell = { spell_signal_parameter };

    ghost tree = { tree_of_signal_parameter };

    ghost Ends = { EndsSignalParameter };

    fn read(cursor: &mut Cursor) -> Result<Parameter, ParseFault> {
        signal_parameter(cursor)
    }
}

/// A slot's parameter, as a part of a list.
pub struct SlotParameterPart;

impl Part for SlotParameterPart {
    type Tree = Parameter;

    ghost Reading = { SlotParameter };

    ghost spell = { spell_slot_parameter };

    ghost tree = { tree_of_slot_parameter };

    ghost Ends = { EndsAnywhere };

    fn read(cursor: &mut Cursor) -> Result<Parameter, ParseFault> {
        slot_parameter(cursor)
    }
}
