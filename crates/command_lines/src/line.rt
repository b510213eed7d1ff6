//! The text of the output's lines.

ghost use Rattle.std.specs.Prelude.{◌++◌, ◌<◌, ◌≤◌, codes, decimal};
ghost use Rattle.std.specs.Fmt.{signed_decimal};
ghost use Rattle.std.specs.List.{join_by};
ghost use Rattle.command_lines.specs.Lines.{newline, value_text, call_text, given_text, action_text, actions_text, member_text, property_text, entry_kind_text, entry_line, trace_text};
ghost use Rattle.command_lines.specs.Sent.{Puts};

use crate::output::Output;
use basic_types::{Name, Text};
use itoa::{Buffer, Integer};
use std::io::Write;
use trace_entries::{Entry, EntryKind, Shown, ShownAction};

impl<W: Write> Output<'_, W> {
    /// Adds a number in decimal digits.
    pub fn number<I: Integer>(&mut self, number: I)
        ensures { Puts W.contents self.old self.new (I.text number) }
    {
        let mut buffer = Buffer::new();
        self.put(buffer.format(number).as_bytes());
    }

    /// Adds a name.
    pub fn name(&mut self, name: &Name)
        ensures { Puts W.contents self.old self.new name.now }
    {
        self.put(name.bytes());
    }

    /// Adds a value.
    fn value(&mut self, value: &Shown)
        ensures { Puts W.contents self.old self.new (value_text value.now) }
    {
        match value {
            Shown::Int(number) => self.int(*number),
            Shown::Bool(true) => self.put_word(b"true"),
            Shown::Bool(false) => self.put_word(b"false"),
            Shown::Text(text) => self.quoted(text),
            Shown::Object(name) => self.name(name),
            Shown::Null => self.put_word(b"null"),
        }
    }

    /// Adds a whole number. Most have one digit.
    fn int(&mut self, number: i32)
        ensures { Puts W.contents self.old self.new (signed_decimal number) }
    {
        if 0 <= number && number < 10 {
            self.put_byte(b'0' + number as u8);
        } else {
            self.number(number);
        }
    }

    /// Adds a text in quotes.
    fn quoted(&mut self, text: &Text)
        ensures { Puts W.contents self.old self.new (codes "\"" ++ text.now ++ codes "\"") }
    {
        self.put_byte(b'"');
        self.put(text.bytes());
        self.put_byte(b'"');
    }

    /// Adds values, separated by commas.
    fn arguments(&mut self, values: &[Shown])
        ensures { Puts W.contents self.old self.new (join_by value_text (codes ",") values.now) }
    {
        let Some((first, rest)) = values.split_first() else {
            return;
        };
        self.value(first);
        for value in rest {
            self.put_byte(b',');
            self.value(value);
        }
    }

    /// Adds `object.member`.
    pub fn member(&mut self, object: &Name, member: &Name)
        ensures { Puts W.contents self.old self.new (member_text object.now member.now) }
    {
        self.name(object);
        self.put_byte(b'.');
        self.name(member);
    }

    /// Adds `object.method(arguments)`.
    fn call(&mut self, object: &Name, method: &Name, arguments: &[Shown])
        ensures { Puts W.contents self.old self.new (call_text (member_text object.now method.now) arguments.now) }
    {
        self.member(object, method);
        self.put_byte(b'(');
        self.arguments(arguments);
        self.put_byte(b')');
    }

    /// Adds an emission, and whether the object is blocked.
    fn emitted(&mut self, object: &Name, signal: &Name, arguments: &[Shown], blocked: bool)
        ensures { let call = call_text (member_text object.now signal.now) arguments.now in
            Puts W.contents self.old self.new (codes "emit " ++ call ++ given_text blocked (codes "blocked")) }
    {
        self.put_word(b"emit ");
        self.call(object, signal, arguments);
        self.given(blocked, b"blocked");
    }

    /// Adds a call.
    fn called(&mut self, object: &Name, slot: &Name, arguments: &[Shown])
        ensures { Puts W.contents self.old self.new (codes "call " ++ call_text (member_text object.now slot.now) arguments.now) }
    {
        self.put_word(b"call ");
        self.call(object, slot, arguments);
    }

    /// Adds what a native answers.
    fn answered(&mut self, actions: &[ShownAction])
        ensures { Puts W.contents self.old self.new (codes "native" ++ actions_text actions.now) }
    {
        self.put_word(b"native");
        self.actions(actions);
    }

    /// Adds a blank and the actions, separated by `, `.
    fn actions(&mut self, actions: &[ShownAction])
        ensures { Puts W.contents self.old self.new (actions_text actions.now) }
    {
        let Some((first, rest)) = actions.split_first() else {
            return;
        };
        self.put_byte(b' ');
        self.action(first);
        for action in rest {
            self.put_word(b", ");
            self.action(action);
        }
    }

    /// Adds an action of a native.
    fn action(&mut self, action: &ShownAction)
        ensures { Puts W.contents self.old self.new (action_text action.now) }
    {
        match action {
            ShownAction::Set { property, value } => self.set_action(property, value),
            ShownAction::Emit { signal, arguments } => {
                self.emit_action(signal, arguments.as_slice())
            }
        }
    }

    /// Adds that an action sets a property.
    fn set_action(&mut self, property: &Name, value: &Shown)
        ensures { Puts W.contents self.old self.new (codes "set " ++ property.now ++ codes " " ++ value_text value.now) }
    {
        self.put_word(b"set ");
        self.name(property);
        self.put_byte(b' ');
        self.value(value);
    }

    /// Adds that an action emits a signal.
    fn emit_action(&mut self, signal: &Name, arguments: &[Shown])
        ensures { Puts W.contents self.old self.new (codes "emit " ++ call_text signal.now arguments.now) }
    {
        self.put_word(b"emit ");
        self.name(signal);
        self.put_byte(b'(');
        self.arguments(arguments);
        self.put_byte(b')');
    }

    /// Adds a call that is posted to an event loop.
    fn posted(&mut self, event_loop: &Name, object: &Name, method: &Name, arguments: &[Shown])
        ensures { let call = call_text (member_text object.now method.now) arguments.now in
            Puts W.contents self.old self.new (codes "post " ++ event_loop.now ++ codes " " ++ call) }
    {
        self.put_word(b"post ");
        self.name(event_loop);
        self.put_byte(b' ');
        self.call(object, method, arguments);
    }

    /// Adds the deletion of an object that is posted to an event loop.
    fn scheduled(&mut self, event_loop: &Name, object: &Name)
        ensures { Puts W.contents self.old self.new (codes "post " ++ event_loop.now ++ codes " ~" ++ object.now) }
    {
        self.put_word(b"post ");
        self.name(event_loop);
        self.put_word(b" ~");
        self.name(object);
    }

    /// Adds that an object dies.
    fn died(&mut self, object: &Name)
        ensures { Puts W.contents self.old self.new (codes "dead " ++ object.now) }
    {
        self.put_word(b"dead ");
        self.name(object);
    }

    /// Adds a property and its new value, after a word that says how it came by it.
    #[inline(always)]
    fn changed<const N: usize>(
        &mut self,
        word: &[u8; N],
        object: &Name,
        property: &Name,
        value: &Shown,
    )
        ensures { Puts W.contents self.old self.new (word.now ++ property_text object.now property.now value.now) }
    {
        self.put_word(word);
        self.member(object, property);
        self.put_byte(b' ');
        self.value(value);
    }

    /// Adds what happens.
    fn entry_kind(&mut self, entry_kind: &EntryKind)
        ensures { Puts W.contents self.old self.new (entry_kind_text entry_kind.now) }
    {
        match entry_kind {
            EntryKind::Emitted {
                object,
                signal,
                arguments,
                blocked,
            } => self.emitted(object, signal, arguments.as_slice(), *blocked),
            EntryKind::Called {
                object,
                slot,
                arguments,
            } => self.called(object, slot, arguments.as_slice()),
            EntryKind::Answered { actions } => self.answered(actions.as_slice()),
            EntryKind::Posted {
                event_loop,
                object,
                method,
                arguments,
            } => self.posted(event_loop, object, method, arguments.as_slice()),
            EntryKind::Scheduled { event_loop, object } => self.scheduled(event_loop, object),
            EntryKind::Died { object } => self.died(object),
            EntryKind::Written {
                object,
                property,
                value,
            } => self.changed(b"set ", object, property, value),
            EntryKind::Bound {
                object,
                property,
                value,
            } => self.changed(b"bind ", object, property, value),
            EntryKind::Followed {
                object,
                property,
                value,
            } => self.changed(b"follow ", object, property, value),
            EntryKind::OnNull => self.put_word(b"null"),
            EntryKind::Grouped => self.put_word(b"group"),
            EntryKind::Connected(ends, how) => self.connected(ends, *how),
            EntryKind::Disconnected(ends) => self.disconnected(ends),
            EntryKind::Refused(refusal) => self.refused_statement(*refusal),
        }
    }

    /// Adds the line of what happens at a depth. Most depths have one digit.
    fn at_depth(&mut self, depth: usize, entry_kind: &EntryKind)
        ensures { Puts W.contents self.old self.new (decimal depth ++ codes " " ++ entry_kind_text entry_kind.now ++ newline) }
    {
        if depth < 10 {
            self.at_small_depth(depth, entry_kind);
        } else {
            self.at_any_depth(depth, entry_kind);
        }
    }

    /// The same, with what most lines begin with added at once.
    #[inline(always)]
    fn at_small_depth(&mut self, depth: usize, entry_kind: &EntryKind)
        requires { depth < 10 }
        ensures { Puts W.contents self.old self.new (decimal depth ++ codes " " ++ entry_kind_text entry_kind.now ++ newline) }
    {
        let digit = b'0' + depth as u8;
        match entry_kind {
            EntryKind::Emitted {
                object,
                signal,
                arguments,
                blocked,
            } => {
                if *blocked {
                    self.at_any_depth(depth, entry_kind);
                } else {
                    let word = [digit, b' ', b'e', b'm', b'i', b't', b' '];
                    self.call_line(&word, object, signal, arguments.as_slice());
                }
            }
            EntryKind::Called {
                object,
                slot,
                arguments,
            } => {
                let word = [digit, b' ', b'c', b'a', b'l', b'l', b' '];
                self.call_line(&word, object, slot, arguments.as_slice());
            }
            EntryKind::Written {
                object,
                property,
                value,
            } => {
                let word = [digit, b' ', b's', b'e', b't', b' '];
                self.change_line(&word, object, property, value);
            }
            EntryKind::Followed {
                object,
                property,
                value,
            } => {
                let word = [digit, b' ', b'f', b'o', b'l', b'l', b'o', b'w', b' '];
                self.change_line(&word, object, property, value);
            }
            _ => self.at_any_depth(depth, entry_kind),
        }
    }

    /// Adds a line that ends with a call, after a word.
    #[inline(always)]
    fn call_line<const N: usize>(
        &mut self,
        word: &[u8; N],
        object: &Name,
        method: &Name,
        arguments: &[Shown],
    )
        requires few { N ≤ 16 }
        ensures { let call = call_text (member_text object.now method.now) arguments.now in
            Puts W.contents self.old self.new (word.now ++ call ++ newline) }
    {
        if arguments.is_empty() {
            self.put_member(word, object, method, b"()\n");
        } else {
            self.put_member(word, object, method, b"(");
            self.arguments(arguments);
            self.put_word(b")\n");
        }
    }

    /// Adds a line that ends with a property and its new value, after a word.
    #[inline(always)]
    fn change_line<const N: usize>(
        &mut self,
        word: &[u8; N],
        object: &Name,
        property: &Name,
        value: &Shown,
    )
        requires few { N ≤ 16 }
        ensures { Puts W.contents self.old self.new (word.now ++ property_text object.now property.now value.now ++ newline) }
    {
        self.put_member(word, object, property, b" ");
        self.value(value);
        self.put_byte(b'\n');
    }

    /// Adds the line of what happens at a depth, piece by piece.
    #[inline(never)]
    fn at_any_depth(&mut self, depth: usize, entry_kind: &EntryKind)
        ensures { Puts W.contents self.old self.new (decimal depth ++ codes " " ++ entry_kind_text entry_kind.now ++ newline) }
    {
        self.depth(depth);
        self.put_byte(b' ');
        self.entry_kind(entry_kind);
        self.put_byte(b'\n');
    }

    /// Adds a depth in decimal digits. Each line has one, and most have one digit.
    fn depth(&mut self, depth: usize)
        ensures { Puts W.contents self.old self.new (decimal depth) }
    {
        if depth < 10 {
            self.put_byte(b'0' + depth as u8);
        } else {
            self.number(depth);
        }
    }

    /// Adds that a statement is refused.
    fn refused_statement(&mut self, refusal: u8)
        ensures { Puts W.contents self.old self.new (codes "refused " ++ decimal refusal) }
    {
        self.put_word(b"refused ");
        self.number(refusal);
    }

    /// Adds the line of an accepted event.
    fn accepted(&mut self, event: u64)
        ensures { Puts W.contents self.old self.new (codes "event " ++ decimal event ++ newline) }
    {
        self.put_word(b"event ");
        self.number(event);
        self.put_byte(b'\n');
    }

    /// Adds the line of a refused event.
    fn refused_event(&mut self, event: u64, refusal: u8)
        ensures { Puts W.contents self.old self.new (codes "event " ++ decimal event ++ (codes " refused " ++ decimal refusal ++ newline)) }
    {
        self.put_word(b"event ");
        self.number(event);
        self.numbered(b" refused ", refusal);
    }

    /// Adds a line that ends with a number.
    pub fn numbered<I: Integer>(&mut self, words: &[u8], number: I)
        ensures { Puts W.contents self.old self.new (words.now ++ I.text number ++ newline) }
    {
        self.put(words);
        self.number(number);
        self.put_byte(b'\n');
    }

    /// Adds an entry's line.
    fn entry(&mut self, entry: &Entry)
        ensures { Puts W.contents self.old self.new (entry_line entry.now) }
    {
        match entry {
            Entry::Accepted(event) => self.accepted(*event),
            Entry::Refused(event, refusal) => self.refused_event(*event, *refusal),
            Entry::At(depth, entry_kind) => self.at_depth(*depth, entry_kind),
        }
    }

    /// Adds the lines of a trace.
    pub fn entries(&mut self, entries: &[Entry])
        ensures { Puts W.contents self.old self.new (trace_text entries.now) }
    {
        for entry in entries {
            self.entry(entry);
        }
    }
}
