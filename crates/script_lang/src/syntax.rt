//! The grammar of events, one function a rule.

ghost use Rattle.std.specs.Prelude.{ℕ, List, ◌<◌, length, OnOk};
ghost use Rattle.script_lang.specs.Grammar.{InputReading, spell_input, tree_of_input, spell_verb, spell_member, spell_invocation};
ghost use Rattle.script_lang.specs.code.Grammar.{tree_of_invocation, ReadsNames, ReadsFollow, ReadsEvent};
ghost use Rattle.script_lang.specs.declared.verb.Verb.TheVariants.{Loop, Turn, New, Adopt, Move, Connect, Disconnect, Set, Emit, Call, Bind, Block, Unblock, Delete, Later};
ghost use Rattle.token_reading.specs.code.Reading.{Reads, EndsAnywhere};
ghost use Rattle.token_reading.specs.Reading.{spell_name};

use crate::event::{Event, Input};
use crate::verb::Verb;
use basic_types::Name;
use sqlite_items::Items;
use texts::{Symbol, Token};
use token_reading::{Cursor, ParseFault, Part, Wanted, both_ends, list};

/// Takes the event that the tokens are to be: what is left behind it has to be judged by the caller.
pub fn event(cursor: &mut Cursor) -> Result<Event, ParseFault>
    ensures { ReadsEvent cursor.old result cursor.new }
{
    let verb = verb(cursor)?;
    follow(cursor, verb)
}

/// The first word of an event.
fn verb(cursor: &mut Cursor) -> Result<Verb, ParseFault>
    ensures { Reads spell_verb (λ verb. verb) EndsAnywhere cursor.old result cursor.new }
{
    let token = cursor.next_of(&[Wanted::Verb])?;
    match Verb::of(token) {
        Some(verb) => Ok(verb),
        None => Err(ParseFault::Syntax),
    }
}

/// What follows the verb.
fn follow(cursor: &mut Cursor, verb: Verb) -> Result<Event, ParseFault>
    ensures { ReadsFollow verb cursor.old result cursor.new }
{
    match verb {
        Verb::Loop => add_loop(cursor),
        Verb::Turn => turn(cursor),
        Verb::New => new(cursor),
        Verb::Adopt => adopt(cursor),
        Verb::Move => move_object(cursor),
        Verb::Connect => connect(cursor),
        Verb::Disconnect => disconnect(cursor),
        Verb::Set => set(cursor),
        Verb::Emit => emit(cursor),
        Verb::Call => call(cursor),
        Verb::Bind => bind(cursor),
        Verb::Block => block(cursor),
        Verb::Unblock => unblock(cursor),
        Verb::Delete => delete(cursor),
        Verb::Later => later(cursor),
    }
}

/// `L`, after `loop`.
fn add_loop(cursor: &mut Cursor) -> Result<Event, ParseFault>
    ensures { ReadsFollow Loop cursor.old result cursor.new }
{
    let home = cursor.name()?;
    Ok(Event::Loop(home))
}

/// `L`, after `turn`.
fn turn(cursor: &mut Cursor) -> Result<Event, ParseFault>
    ensures { ReadsFollow Turn cursor.old result cursor.new }
{
    let home = cursor.name()?;
    Ok(Event::Turn(home))
}

/// `O C [L]`, after `new`.
fn new(cursor: &mut Cursor) -> Result<Event, ParseFault>
    ensures { ReadsFollow New cursor.old result cursor.new }
{
    let object = cursor.name()?;
    let class = cursor.name()?;
    let home = cursor.optional_name()?;
    Ok(Event::New(object, class, home))
}

/// `P O`, after `adopt`.
fn adopt(cursor: &mut Cursor) -> Result<Event, ParseFault>
    ensures { ReadsFollow Adopt cursor.old result cursor.new }
{
    let parent = cursor.name()?;
    let child = cursor.name()?;
    Ok(Event::Adopt(parent, child))
}

/// `O L`, after `move`.
fn move_object(cursor: &mut Cursor) -> Result<Event, ParseFault>
    ensures { ReadsFollow Move cursor.old result cursor.new }
{
    let object = cursor.name()?;
    let home = cursor.name()?;
    Ok(Event::Move(object, home))
}

/// `A S B M kind [unique] [single]`, after `connect`.
fn connect(cursor: &mut Cursor) -> Result<Event, ParseFault>
    ensures { ReadsFollow Connect cursor.old result cursor.new }
{
    let ends = both_ends::<NamePart>(cursor, None)?;
    let how = cursor.connection_type(None)?;
    Ok(Event::Connect(ends, how))
}

/// `A S B M`, after `disconnect`.
fn disconnect(cursor: &mut Cursor) -> Result<Event, ParseFault>
    ensures { ReadsFollow Disconnect cursor.old result cursor.new }
{
    let ends = both_ends::<NamePart>(cursor, None)?;
    Ok(Event::Disconnect(ends))
}

/// `O.P V`, after `set`.
fn set(cursor: &mut Cursor) -> Result<Event, ParseFault>
    ensures { ReadsFollow Set cursor.old result cursor.new }
{
    let (object, property) = member(cursor)?;
    let value = input(cursor)?;
    Ok(Event::Set(object, property, value))
}

/// `O.M(V,..)`, after `emit`.
fn emit(cursor: &mut Cursor) -> Result<Event, ParseFault>
    ensures { ReadsFollow Emit cursor.old result cursor.new }
{
    let (object, signal, arguments) = invocation(cursor)?;
    Ok(Event::Emit(object, signal, arguments))
}

/// `O.M(V,..)`, after `call`.
fn call(cursor: &mut Cursor) -> Result<Event, ParseFault>
    ensures { ReadsFollow Call cursor.old result cursor.new }
{
    let (object, method, arguments) = invocation(cursor)?;
    Ok(Event::Call(object, method, arguments))
}

/// `N O X ..`, after `bind`.
fn bind(cursor: &mut Cursor) -> Result<Event, ParseFault>
    ensures { ReadsFollow Bind cursor.old result cursor.new }
{
    let site = cursor.name()?;
    let target = cursor.name()?;
    let sources = names(cursor)?;
    Ok(Event::Bind(site, target, sources))
}

/// `O`, after `block`.
fn block(cursor: &mut Cursor) -> Result<Event, ParseFault>
    ensures { ReadsFollow Block cursor.old result cursor.new }
{
    let object = cursor.name()?;
    Ok(Event::Block(object))
}

/// `O`, after `unblock`.
fn unblock(cursor: &mut Cursor) -> Result<Event, ParseFault>
    ensures { ReadsFollow Unblock cursor.old result cursor.new }
{
    let object = cursor.name()?;
    Ok(Event::Unblock(object))
}

/// `O`, after `delete`.
fn delete(cursor: &mut Cursor) -> Result<Event, ParseFault>
    ensures { ReadsFollow Delete cursor.old result cursor.new }
{
    let object = cursor.name()?;
    Ok(Event::Delete(object))
}

/// `O`, after `later`.
fn later(cursor: &mut Cursor) -> Result<Event, ParseFault>
    ensures { ReadsFollow Later cursor.old result cursor.new }
{
    let object = cursor.name()?;
    Ok(Event::Later(object))
}

/// `O.M(V,..)`: the object, its method's name, the arguments.
fn invocation(cursor: &mut Cursor) -> Result<(Name, Name, Items<Input>), ParseFault>
    ensures { Reads spell_invocation tree_of_invocation EndsAnywhere cursor.old result cursor.new }
{
    let (object, method) = member(cursor)?;
    let arguments = list::<InputPart>(cursor)?;
    Ok((object, method, arguments))
}

/// `O.M`: the object, and the name of its property or method.
fn member(cursor: &mut Cursor) -> Result<(Name, Name), ParseFault>
    ensures { Reads spell_member (λ member. member) EndsAnywhere cursor.old result cursor.new }
{
    let object = cursor.name()?;
    cursor.expect(Symbol::Dot)?;
    let name = cursor.name()?;
    Ok((object, name))
}

/// `{X}`, names up to the end.
fn names(cursor: &mut Cursor) -> Result<Items<Name>, ParseFault>
    ensures { ReadsNames cursor.old result cursor.new }
{
    let mut names = Items::new(cursor.alloc());
    while !cursor.is_empty() {
        let name = cursor.name()?;
        names.push(name)?;
    }
    Ok(names)
}

/// `V`
fn input(cursor: &mut Cursor) -> Result<Input, ParseFault>
    ensures reads { Reads spell_input tree_of_input EndsAnywhere cursor.old result cursor.new }
    ensures shorter { OnOk result (length cursor.new < length cursor.old) }
{
    if let Some(Token::Name(_)) = cursor.ahead(&[Wanted::Name]).first() {
        Ok(Input::Object(cursor.name()?))
    } else {
        Ok(Input::Literal(cursor.literal()?))
    }
}

/// A value that a script writes, as a part of a list.
struct InputPart;

impl Part for InputPart {
    type Tree = Input;

    ghost Reading = { InputReading };

    ghost spell = { spell_input };

    ghost tree = { tree_of_input };

    ghost Ends = { EndsAnywhere };

    fn read(cursor: &mut Cursor) -> Result<Input, ParseFault> {
        input(cursor)
    }
}

/// An object's name, as an end of a connection.
struct NamePart;

impl Part for NamePart {
    type Tree = Name;

    ghost Reading = { List ℕ };

    ghost spell = { spell_name };

    ghost tree = { λ name. name };

    ghost Ends = { EndsAnywhere };

    fn read(cursor: &mut Cursor) -> Result<Name, ParseFault> {
        cursor.name()
    }
}
