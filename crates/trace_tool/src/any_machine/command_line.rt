//! What is done for a command line.

ghost use Rattle.std.specs.Prelude.{◌≡◌, map};
ghost use Rattle.command_lines.specs.declared.usage.UsageFault.TheVariants.{Words};
ghost use Rattle.command_lines.specs.Words.{IsLine, IsWithinLimits};
ghost use Rattle.command_lines.specs.declared.words.CommandLine.{CommandLine as ALine};
ghost use Rattle.command_lines.specs.Failing.{HasFailed};
ghost use Rattle.trace_tool.specs.Failed.{IfUnread};
ghost use Rattle.trace_tool.specs.Outcomes.{seen_outcome};
ghost use Rattle.trace_tool.specs.declared.any_machine.outcome.Outcome.TheVariants.{Program, Usage};
ghost use Rattle.trace_tool.specs.Commands.{CommandComesTo, ReadsAndComesTo, InputComesTo, limits_of, read_of};
ghost use Rattle.trace_tool.specs.Prepared.{CarriesOut, Prepares, seen_prepared};
ghost use Rattle.trace_tool.specs.declared.any_machine.prepared.Prepared.TheVariants.{Done};

use crate::any_machine::natives::FittingNatives;
use crate::any_machine::outcome::Outcome;
use crate::any_machine::prepared::{Carried, Prepared};
use crate::any_machine::runs::{prepare_run, prepare_settling_run, prepare_unchecked_run};
use class_lang::Limits;
use command_lines::{
    Command, CommandLine, Failing, InputFault, LARGEST_INPUT, UsageFault, one_text, read_input,
    three_texts, two_texts,
};
use object_machine::ObjectMachine;
use program_commands::{
    Outcome as ProgramOutcome, certify_outcome, certify_settling_outcome, check_outcome,
    check_settling_outcome, meta_outcome,
};
use std::alloc::Global;
use std::io::{Read, Write};

/// What was done for a command line, with the input that was read for it.
#[derive(Drop)]
pub struct Answered<M: Drop> {
    /// The bytes that were read, no more than a byte past the largest input; `None` where the words are no command, or the
    /// input can't be read.
    pub input: Option<Vec<u8>>,
    /// Whether a read failed.
    pub reading: Failing,
    /// What the command line came to, and whether that could be written.
    pub carried: Carried<M>,
}

/// Does what a command line's words say, on the bytes that the reader has left, as `trace_tool`'s `command` does, and hands
/// back what that came to, for those who explain it. For words that are no command nothing is read. Only where a read failed it
/// comes to `Unread`, and only where a write failed to a `WriteFault`: that one did is noted where the reader or the writer is
/// called, and nowhere else.
pub fn answer<N: FittingNatives, M: ObjectMachine<Natives = N>, R: Read, W: Write>(
    alloc: Global,
    words: &[&str],
    reader: &mut R,
    natives: N,
    w: &mut W,
) -> Answered<M>
    ensures answers { let said = map (λ word. word.now) words.now in
        let heads = N.heads natives in
        CarriesOut (ReadsAndComesTo N.gives heads natives said (R.remaining reader.old))
        (W.contents w.old) (W.contents w.new) (seen_outcome M.seen result.carried.outcome)
        result.carried.written result.carried.writing }
    ensures failed { IfUnread result.carried.outcome (HasFailed result.reading) }
    ensures unread { let said = map (λ word. word.now) words.now in
        ((line : ALine) → IsLine said line → ⊥) → reader.new ≡ reader.old }
{
    let Some(_) = CommandLine::of(words) else {
        return Answered {
            input: None,
            reading: Failing::none(),
            carried: prepared_usage().carry_out(alloc, w),
        };
    };
    let mut reading = Failing::none();
    match read_input(alloc, reader, &mut reading) {
        Ok(input) => {
            let carried = prepare_for(alloc, words, Ok(input.as_slice()), natives).carry_out(
                alloc, w,
            );
            Answered {
                input: Some(input),
                reading,
                carried,
            }
        }
        Err(fault) => Answered {
            input: None,
            reading,
            carried: prepare_for(alloc, words, Err(fault), natives).carry_out(alloc, w),
        },
    }
}

/// The words are no command.
fn prepared_usage<M: ObjectMachine>() -> Prepared<M>
    ensures { result ≡ Done (Usage Words) }
{
    Prepared::Done(Outcome::Usage(UsageFault::Words))
}

/// What is to be done for a command line's words, on the bytes that were read or on why there are none.
pub fn prepare_for<N: FittingNatives, M: ObjectMachine<Natives = N>>(
    alloc: Global,
    words: &[&str],
    input: Result<&[u8], InputFault>,
    natives: N,
) -> Prepared<M>
    ensures { let said = map (λ word. word.now) words.now in
        let heads = N.heads natives in
        Prepares N.takes N.gives
        (CommandComesTo N.gives heads natives said (read_of input.entry))
        (seen_prepared M.seen result) }
{
    let Some(line) = CommandLine::of(words) else {
        return prepared_usage();
    };
    match input {
        Ok(bytes) => prepare(alloc, limits_of(line.is_wide), line.command, bytes, natives),
        Err(fault) => Prepared::Done(Outcome::NoInput(fault)),
    }
}

/// How large a program may be, with `--wide` and without it.
pub fn limits_of(is_wide: bool) -> Limits
    ensures { result ≡ limits_of is_wide }
{
    if is_wide {
        Limits::wide()
    } else {
        Limits::standard()
    }
}

/// What is to be done for a command on its input, where the program is read by these limits.
fn prepare<N: FittingNatives, M: ObjectMachine<Natives = N>>(
    alloc: Global,
    limits: Limits,
    command: Command,
    input: &[u8],
    natives: N,
) -> Prepared<M>
    requires limits { IsWithinLimits command }
    ensures { let heads = N.heads natives in
        Prepares N.takes N.gives
        (InputComesTo limits N.gives heads natives command input.now)
        (seen_prepared M.seen result) }
{
    if input.len() > LARGEST_INPUT {
        return Prepared::Done(Outcome::Usage(UsageFault::TooLarge));
    }
    match command {
        Command::Meta => match one_text(input) {
            Some(program) => of_program(meta_outcome(alloc, limits, program)),
            None => Prepared::Done(Outcome::Usage(UsageFault::Texts(1))),
        },
        Command::Certify => match one_text(input) {
            Some(program) => of_program(certify_outcome(alloc, limits, program)),
            None => Prepared::Done(Outcome::Usage(UsageFault::Texts(1))),
        },
        Command::Check => match two_texts(input) {
            Some((program, certificate)) => of_program(check_outcome(
                alloc,
                limits,
                program,
                certificate,
            )),
            None => Prepared::Done(Outcome::Usage(UsageFault::Texts(2))),
        },
        Command::CertifySettling => match one_text(input) {
            Some(program) => of_program(certify_settling_outcome(alloc, limits, program)),
            None => Prepared::Done(Outcome::Usage(UsageFault::Texts(1))),
        },
        Command::CheckSettling => match two_texts(input) {
            Some((program, certificate)) => of_program(check_settling_outcome(
                alloc,
                limits,
                program,
                certificate,
            )),
            None => Prepared::Done(Outcome::Usage(UsageFault::Texts(2))),
        },
        Command::Run(steps) => match three_texts(input) {
            Some((program, certificate, script)) => {
                prepare_run(alloc, limits, program, certificate, script, natives, steps)
            }
            None => Prepared::Done(Outcome::Usage(UsageFault::Texts(3))),
        },
        Command::RunSettling(steps) => match three_texts(input) {
            Some((program, certificate, script)) => prepare_settling_run(
                alloc,
                limits,
                program,
                certificate,
                script,
                natives,
                steps,
            ),
            None => Prepared::Done(Outcome::Usage(UsageFault::Texts(3))),
        },
        Command::RunUnchecked(options) => match two_texts(input) {
            Some((program, script)) => prepare_unchecked_run(
                alloc,
                limits,
                program,
                script,
                natives,
                options.depth,
                options.steps,
            ),
            None => Prepared::Done(Outcome::Usage(UsageFault::Texts(2))),
        },
    }
}

/// A command that runs nothing came to this.
fn of_program<M: ObjectMachine>(outcome: ProgramOutcome) -> Prepared<M>
    ensures { result ≡ Done (Program outcome) }
{
    Prepared::Done(Outcome::Program(outcome))
}
