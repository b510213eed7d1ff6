//! The program's commands.

ghost use Rattle.std.specs.Prelude.{◌≡◌, map, OnErr};
ghost use Rattle.command_lines.specs.Failing.{HasFailed};
ghost use Rattle.command_lines.specs.Words.{IsLine};
ghost use Rattle.command_lines.specs.declared.words.CommandLine.{CommandLine as ALine};
ghost use Rattle.trace_tool.specs.Outcomes.{Writes};
ghost use Rattle.trace_tool.specs.Commands.{CommandComesTo, WritesCommand, read_of};

use crate::any_machine::{Answered, InputFault, Sent, answer, prepare_for, sent};
use native_slots::{Answering, Natives};
use qt_runtime::Machine;
use std::alloc::Global;
use std::io::{Read, Write};

/// Does what a command line's words say, on the bytes that the reader has left, and answers the exit status: reads them,
/// no more than a byte past the largest input, and leaves the rest to [`respond`]. For words that are no command nothing
/// is read.
pub fn command<R: Read, W: Write>(
    alloc: Global,
    words: &[&str],
    reader: &mut R,
    natives: Natives,
    w: &mut W,
) -> Sent
    ensures answers { let said = map (λ word. word.now) words.now in
        let heads = map (λ slot. slot.head) natives.slots.items in
        WritesCommand ⟦<Natives as Answering>⟧.gives heads natives said (R.remaining reader.old)
        (W.contents w.old) (W.contents w.new) result.status }
    ensures failed { OnErr result.status (HasFailed result.writing) }
    ensures unread { let said = map (λ word. word.now) words.now in
        ((line : ALine) → IsLine said line → ⊥) → reader.new ≡ reader.old }
{
    let Answered {
        input: _,
        reading: _,
        carried,
    } = answer::<Natives, Machine<Natives>, R, W>(alloc, words, reader, natives, w);
    sent(carried)
}

/// Does what a command line's words say, on the bytes that were read or on why there are none, and answers the exit
/// status.
///
/// - `meta` takes one text, a program, and writes its classes.
/// - `certify` takes one text, a program, and writes its least valid certificate, or why it has none.
/// - `check` takes two texts, a program and its certificate, and writes `yes` or the checker's no.
/// - `certify --settling` takes one text, a program, and writes a settling certificate of it, or why none was made.
/// - `check --settling` takes two texts, a program and its settling certificate, and answers as `check`.
/// - `run [--steps M]` takes three texts, a program, its certificate and a script, checks the program, and runs it on the
///   script.
/// - `run --settling [--steps M]` takes three texts, a program, its settling certificate and a script, and does as `run`.
/// - `run --unchecked N [--steps M]` takes two texts, a program and a script, with a line `%%` between them, and runs
///   the one on the other; N is from 1 to 256, M from 1 to 2^63 - 1, or 1,000,000 where it isn't given.
///
/// With `--wide` in front of these words the program may be as large as one that a tool writes (docs/language.md, "Limits").
///
/// Other words, another number of texts and an input of more than 67,108,864 bytes write `usage`. After a read that
/// failed nothing is written, and `memory` where there was none for the input. All of these end with 1.
///
/// There is a `WriteFault` only where a write failed (`failed`): what was taken by then is the beginning of what is written, and
/// nothing is written after that.
pub fn respond<W: Write>(
    alloc: Global,
    words: &[&str],
    input: Result<&[u8], InputFault>,
    natives: Natives,
    w: &mut W,
) -> Sent
    ensures written { let said = map (λ word. word.now) words.now in
        let heads = map (λ slot. slot.head) natives.slots.items in
        let ComesTo = CommandComesTo ⟦<Natives as Answering>⟧.gives heads natives said (read_of input.entry) in
        Writes ComesTo (W.contents w.old) (W.contents w.new) result.status }
    ensures failed { OnErr result.status (HasFailed result.writing) }
{
    sent(prepare_for::<Natives, Machine<Natives>>(alloc, words, input, natives).carry_out(alloc, w))
}
