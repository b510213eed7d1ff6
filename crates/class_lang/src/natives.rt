//! Natives: slots whose work is done by a closure of the host.

ghost use Rattle.std.specs.Prelude.{◌<◌, ℕ, List, length, OnOk};
ghost use Rattle.token_reading.specs.code.Reading.{EndsAnywhere};
ghost use Rattle.token_reading.specs.Reading.{spell_name};
ghost use Rattle.token_reading.specs.Signatures.{SigReading, spell_sig, tree_of_sig};
ghost use Rattle.class_lang.specs.code.Members.{ReadsEffects, ReadsNative};

use crate::parameters::SignalParameterPart;
use basic_types::{Name, Sig};
use syntax_trees::{EffectNames, Slot, SlotWork};
use texts::{Symbol, Word};
use token_reading::{Cursor, ParseFault, Part, list, list_after};

/// `Name "(" [signal_parameter {"," signal_parameter}] ")" effects`
pub fn native(cursor: &mut Cursor) -> Result<Slot, ParseFault>
    ensures reads { ReadsNative cursor.old result cursor.new }
    ensures shorter { OnOk result (length cursor.new < length cursor.old) }
{
    let name = cursor.name()?;
    let parameters = list::<SignalParameterPart>(cursor)?;
    let effects = effects(cursor)?;
    Ok(Slot {
        name,
        parameters,
        work: SlotWork::Native(effects),
    })
}

/// `["reads" Name {"," Name}] ["emits" sig {"," sig}] ["sets" Name {"," Name}] ";"`
fn effects(cursor: &mut Cursor) -> Result<EffectNames, ParseFault>
    ensures reads { ReadsEffects cursor.old result cursor.new }
    ensures shorter { OnOk result (length cursor.new < length cursor.old) }
{
    let reads = list_after::<NamePart>(cursor, Word::Reads)?;
    let emits = list_after::<SigPart>(cursor, Word::Emits)?;
    let sets = list_after::<NamePart>(cursor, Word::Sets)?;
    cursor.expect(Symbol::Semicolon)?;
    Ok(EffectNames { reads, emits, sets })
}

/// A property's name, as a part of a list.
struct NamePart;

impl Part for NamePart {
    type Tree = Name;

    ghost Reading = { List ℕ };

    ghost spell = { spell_name };

    ghost tree = { λ name. name };

    ghost Ends = { EndsAnywhere };

    fn read(cursor: &mut Cursor) -> Result<Name, ParseFault> {
        cursor.name()
    }
}

/// A signal's signature, as a part of a list.
struct SigPart;

impl Part for SigPart {
    type Tree = Sig;

    ghost Reading = { SigReading };

    ghost spell = { spell_sig };

    ghost tree = { tree_of_sig };

    ghost Ends = { EndsAnywhere };

    fn read(cursor: &mut Cursor) -> Result<Sig, ParseFault> {
        cursor.sig()
    }
}
