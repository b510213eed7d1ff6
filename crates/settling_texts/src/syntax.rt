//! The grammar of a settling certificate's lines, one function a rule.

ghost use Rattle.std.specs.Prelude.{◌↔◌, IsTrue};
ghost use Rattle.settling_texts.specs.code.Grammar.{ReadsDepth, ReadsMembers, ReadsSettlingLine, ReadsSettlingSet, HasFewEach};

use certificate_lang::{
    NodeName, Version, has_few_parameters, read_node, read_set_items, read_setting,
};
use settling::{SettlingLine, SettlingSet};
use sqlite_items::Items;
use token_reading::{Cursor, GREATEST, ParseFault};

/// How deep activations nest.
#[derive(Clone, Copy, Debug, PartialEq, Eq)]
pub struct Depth {
    /// The bound.
    pub bound: u32,
    /// The step for each object.
    pub step: u32,
}

/// `bound B S`
pub fn bound_and_step(cursor: &mut Cursor) -> Result<Depth, ParseFault>
    ensures { ReadsDepth cursor.old result cursor.new }
{
    let bound = read_setting(cursor, b"bound")?;
    let step = cursor.number(GREATEST)?;
    Ok(Depth { bound, step })
}

/// `NODE RANK STEP {ITEM}`: what is left behind it has to be judged by the caller.
pub fn line(cursor: &mut Cursor) -> Result<SettlingLine, ParseFault>
    ensures { ReadsSettlingLine cursor.old result cursor.new }
{
    let node = read_node(cursor)?;
    let rank = cursor.number(GREATEST)?;
    let step = cursor.number(GREATEST)?;
    let destroys = read_set_items(cursor, Version::Two)?;
    Ok(SettlingLine {
        node,
        rank,
        step,
        destroys,
    })
}

/// `round R NODE {NODE}`: what is left behind it has to be judged by the caller.
pub fn set(cursor: &mut Cursor) -> Result<SettlingSet, ParseFault>
    ensures { ReadsSettlingSet cursor.old result cursor.new }
{
    let round = read_setting(cursor, b"round")?;
    let members = members(cursor)?;
    Ok(SettlingSet { round, members })
}

/// The nodes of a set, of which there is one at least, up to the end.
fn members(cursor: &mut Cursor) -> Result<Items<NodeName>, ParseFault>
    ensures { ReadsMembers cursor.old result cursor.new }
{
    let mut members = Items::new(cursor.alloc());
    let first = read_node(cursor)?;
    members.push(first)?;
    while !cursor.is_empty() {
        let next = read_node(cursor)?;
        members.push(next)?;
    }
    Ok(members)
}

/// Whether each of the nodes has at most 8 parameters.
pub fn have_few_parameters(members: &Items<NodeName>) -> bool
    ensures { IsTrue result ↔ HasFewEach members.now }
{
    members
        .as_slice()
        .iter()
        .all(|node| has_few_parameters(&node.member))
}
