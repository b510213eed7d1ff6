//! The grammar of a certificate's lines, one function a rule.

ghost use Rattle.std.specs.Prelude.{◌↔◌, ◌<◌, length, map, IsTrue, OnOk};
ghost use Rattle.certificate_lang.specs.Grammar.{spell_item, tree_of_item, HasFewParameters};
ghost use Rattle.certificate_lang.specs.code.Grammar.{ReadsSetting, IsAtOpen, ReadsMember, ReadsNode, ReadsItem, ReadsNodeLine};
ghost use Rattle.token_reading.specs.Lists.{spell_each};
ghost use Rattle.certificate_lang.specs.declared.certificate.SetItem.TheVariants.{Class};
ghost use Rattle.token_reading.specs.Reading.{spell_name};
ghost use Rattle.token_reading.specs.code.Reading.{Reads, EndsAnywhere, IsAtEnd};

use crate::certificate::{Line, MemberName, NodeName, SetItem};
use crate::version::Version;
use basic_types::Sig;
use sqlite_items::Items;
use syntax_trees::has_few_types;
use texts::{Symbol, Token};
use token_reading::{Cursor, GREATEST, ParseFault, TypePart, Wanted, list};

/// Reads `NAME number`, for this name: the number, which is at most 2147483647.
///
/// - `Syntax`: the tokens don't begin so.
/// - `Memory`: a growth of memory was refused.
pub fn read_setting(cursor: &mut Cursor, name: &'static [u8]) -> Result<u32, ParseFault>
    ensures { ReadsSetting name.now cursor.old result cursor.new }
{
    match cursor.next_of(&[Wanted::Spelled(name)])? {
        Token::Name(found) if found.bytes() == name => cursor.number(GREATEST),
        _ => Err(ParseFault::Syntax),
    }
}

/// `NODE RANK {ITEM}`, in this version: what is left behind it has to be judged by the caller.
pub fn line(cursor: &mut Cursor, version: Version) -> Result<Line, ParseFault>
    ensures { ReadsNodeLine version cursor.old result cursor.new }
{
    let node = read_node(cursor)?;
    let rank = cursor.number(GREATEST)?;
    let destroys = read_set_items(cursor, version)?;
    Ok(Line {
        node,
        rank,
        destroys,
    })
}

/// Reads the name of a node: `~C`, `C.m(T, ..)` or `C.p`.
///
/// - `Syntax`: the tokens don't begin so.
/// - `Memory`: a growth of memory was refused.
pub fn read_node(cursor: &mut Cursor) -> Result<NodeName, ParseFault>
    ensures reads { ReadsNode cursor.old result cursor.new }
    ensures shorter { OnOk result (length cursor.new < length cursor.old) }
{
    if cursor.eat(Symbol::Tilde) {
        let class = cursor.name()?;
        return Ok(NodeName {
            class,
            member: MemberName::Destruction,
        });
    }
    let class = cursor.name()?;
    cursor.expect(Symbol::Dot)?;
    let member = member(cursor)?;
    Ok(NodeName { class, member })
}

/// `m(T, ..)` or `p`.
fn member(cursor: &mut Cursor) -> Result<MemberName, ParseFault>
    ensures reads { ReadsMember cursor.old result cursor.new }
    ensures shorter { OnOk result (length cursor.new < length cursor.old) }
{
    let name = cursor.name()?;
    if !is_at_open(cursor.ahead(&[Wanted::Symbol(Symbol::Open)])) {
        return Ok(MemberName::Property(name));
    }
    let types = list::<TypePart>(cursor)?;
    let sig = Sig::new(cursor.alloc(), name, types)?;
    Ok(MemberName::Method(sig))
}

/// Whether `(` comes next.
fn is_at_open(tokens: &[Token]) -> bool
    ensures { IsTrue result ↔ IsAtOpen tokens.now }
{
    match tokens.split_first() {
        Some((Token::Symbol(symbol), _)) => *symbol == Symbol::Open,
        _ => false,
    }
}

/// Reads the items of a destroy set in this version, up to the end.
///
/// - `Syntax`: the tokens are none.
/// - `Memory`: a growth of memory was refused.
pub fn read_set_items(cursor: &mut Cursor, version: Version) -> Result<Items<SetItem>, ParseFault>
    ensures { Reads (spell_each (spell_item version)) (map (tree_of_item version)) IsAtEnd cursor.old result cursor.new }
{
    let mut items = Items::new(cursor.alloc());
    while !cursor.is_empty() {
        let item = item(cursor, version)?;
        items.push(item)?;
    }
    Ok(items)
}

/// An item of a destroy set: `C`, or in version 2 also `~C`.
fn item(cursor: &mut Cursor, version: Version) -> Result<SetItem, ParseFault>
    ensures reads { ReadsItem version cursor.old result cursor.new }
    ensures shorter { OnOk result (length cursor.new < length cursor.old) }
{
    match version {
        Version::One => class_item(cursor),
        Version::Two => {
            if !cursor.eat(Symbol::Tilde) {
                return class_item(cursor);
            }
            let class = cursor.name()?;
            Ok(SetItem::Closure(class))
        }
    }
}

/// `C`.
fn class_item(cursor: &mut Cursor) -> Result<SetItem, ParseFault>
    ensures reads { Reads spell_name Class EndsAnywhere cursor.old result cursor.new }
    ensures shorter { OnOk result (length cursor.new < length cursor.old) }
{
    let class = cursor.name()?;
    Ok(SetItem::Class(class))
}

/// Whether the member has at most 8 parameters.
pub fn has_few_parameters(member: &MemberName) -> bool
    ensures { IsTrue result ↔ HasFewParameters member.now }
{
    match member {
        MemberName::Method(sig) => has_few_types(sig),
        MemberName::Property(_) | MemberName::Destruction => true,
    }
}
