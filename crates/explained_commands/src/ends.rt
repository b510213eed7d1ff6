//! What a command writes on standard output, what is reported of its end on standard error, and its exit status.

ghost use Rattle.std.specs.Prelude.{◌≡◌, ◌↔◌, ◌∷◌, [], codes, map, None, false, IsTrue, OnOk, OnErr};
ghost use Rattle.explained_commands.specs.Judged.{IsUnjudged};
ghost use Rattle.explained_commands.specs.Refused.{HasRefused};
ghost use Rattle.trace_tool.specs.Commands.{WritesCommand};

use crate::explain::explanation;
use crate::explanations::push_untyped;
use crate::remarks::{is_judged, may_run, remarks_on};
use crate::reports::{fault_report, has_refused, has_unexpected, refusal_report};
use std::alloc::{AllocError, Global};
use std::io::{Read, Write};
use trace_entries::Fault;
use trace_tool::{
    Answered, Entry, FittingNatives, InputFault, ObjectMachine, Outcome, Ran, WriteFault, answer,
};

/// What stands in front of what is said of no text.
const NAME: &str = "gammonfig";

/// The exit status of a command that did what it was asked.
const SUCCESS: u8 = 0;

/// The most bytes of an input in which a place is looked for.
const MOST_EXPLAINED: usize = 8388608;

/// What a command came to, once what is reported of its end is written.
#[derive(Drop)]
pub struct Explained<M: Drop> {
    /// The exit status, or why the output couldn't be written.
    pub status: Result<u8, WriteFault>,
    /// Whether an event was refused and no comment in its line expects that.
    pub is_unexpected: bool,
    /// All that was read and made, which a process that ends with it needn't take apart.
    pub answered: Answered<M>,
}

/// Does what the words say, on any object machine, as `trace_tool`'s `command` does, and then writes to `errors` what a
/// person needs of this end: of the first `most_refusals` refused events why they were, what another answer than success
/// means, or what is reported beside a yes, and why the input can't be read or the output can't be written. Where that fails
/// nothing else changes. Where nothing is judged (`meta`, `run --unchecked`) nothing but refused events is reported beside
/// success, and of `meta` nothing.
pub fn explained_command<
    N: FittingNatives,
    M: ObjectMachine<Natives = N>,
    R: Read,
    W: Write,
    E: Write,
>(
    alloc: Global,
    words: &[&str],
    reader: &mut R,
    natives: N,
    writer: &mut W,
    errors: &mut E,
    most_refusals: usize,
) -> Explained<M>
    ensures answers { let said = map (λ word. word.now) words.now in
        let heads = N.heads natives in
        WritesCommand N.gives heads natives said (R.remaining reader.old)
        (W.contents writer.old) (W.contents writer.new) result.status }
    ensures silent { let said = map (λ word. word.now) words.now in
        IsUnjudged said → result.status ≡ Ok 0 → most_refusals ≡ 0 → errors.new ≡ errors.old }
    ensures meta { let said = map (λ word. word.now) words.now in
        said ≡ codes "meta" ∷ [] → result.status ≡ Ok 0 → errors.new ≡ errors.old }
    ensures unexpected { IsTrue result.is_unexpected → HasRefused result.answered.carried.refused }
    ensures unread { OnOk result.status (result.answered.input ≡ None → HasRefused result.answered.carried.refused → IsTrue result.is_unexpected) }
    ensures unwritten { OnErr result.status (result.is_unexpected ≡ false) }
{
    let answered = answer::<N, M, R, W>(alloc, words, reader, natives, writer);
    match answered.carried.written {
        Ok(status) => {
            tell_end(alloc, words, &answered, status, most_refusals, errors);
            let is_unexpected = is_unexpected(alloc, &answered);
            Explained {
                status: Ok(status),
                is_unexpected,
                answered,
            }
        }
        Err(fault) => {
            tell_fault(errors, fault);
            Explained {
                status: Err(fault),
                is_unexpected: false,
                answered,
            }
        }
    }
}

/// Writes what a person needs of what the words come to, with this exit status: why the first events were refused, and what another answer than success means, or what is reported beside a yes.
fn tell_end<M: ObjectMachine, E: Write>(
    alloc: Global,
    words: &[&str],
    answered: &Answered<M>,
    status: u8,
    most_refusals: usize,
    errors: &mut E,
)
    ensures silent { let said = map (λ word. word.now) words.now in
        IsUnjudged said → status ≡ 0 → most_refusals ≡ 0 → errors.new ≡ errors.old }
    ensures meta { let said = map (λ word. word.now) words.now in
        said ≡ codes "meta" ∷ [] → status ≡ 0 → errors.new ≡ errors.old }
{
    if most_refusals > 0 && may_run(words) {
        tell_refusals(alloc, answered, most_refusals, errors);
    }
    if status != SUCCESS {
        explain(alloc, words, answered, errors);
    } else if is_judged(words) {
        tell(
            errors,
            remarks_on(alloc, explained_input(answered), &answered.carried.outcome),
        );
    }
}

/// Writes why the output can't be written.
pub fn tell_fault<E: Write>(errors: &mut E, fault: WriteFault) {
    let WriteFault::Failed(reason) = fault;
    writeln!(errors, "{NAME}: {fault}: {reason}").ok();
}

/// The input, as far as places are looked for in it; `None` where it is too large, or there is none.
fn explained_input<M: Drop>(answered: &Answered<M>) -> Option<&[u8]>
    ensures { answered.now.input ≡ None → result ≡ None }
{
    match &answered.input {
        Some(input) if input.len() <= MOST_EXPLAINED => Some(input.as_slice()),
        _ => None,
    }
}

/// Whether an event was refused and no comment in its line expects that: where the input isn't known, none does.
fn is_unexpected<M: Drop>(alloc: Global, answered: &Answered<M>) -> bool
    ensures refused { IsTrue result → HasRefused answered.now.carried.refused }
    ensures unread { answered.now.input ≡ None → HasRefused answered.now.carried.refused
        → IsTrue result }
{
    let refused = answered.carried.refused.as_slice();
    match explained_input(answered) {
        Some(input) => has_unexpected(alloc, input, refused),
        None => has_refused(refused),
    }
}

/// Writes why the first events of a run were refused, if any were.
fn tell_refusals<M: Drop, E: Write>(
    alloc: Global,
    answered: &Answered<M>,
    most: usize,
    errors: &mut E,
) {
    let refused = answered.carried.refused.as_slice();
    tell(
        errors,
        refusal_report(alloc, explained_input(answered), refused, most),
    );
}

/// Writes what the words come to, if it is something that is explained.
fn explain<M: ObjectMachine, E: Write>(
    alloc: Global,
    words: &[&str],
    answered: &Answered<M>,
    errors: &mut E,
) {
    let input = explained_input(answered);
    tell(
        errors,
        explanation(alloc, words, input, &answered.carried.outcome),
    );
    match &answered.carried.outcome {
        Outcome::NoInput(InputFault::Unread(reason)) => {
            writeln!(errors, "{NAME}: the input can't be read: {reason}").ok();
        }
        Outcome::Ran(ran) => {
            let last = answered.carried.last.as_slice();
            tell(errors, report_on_fault(alloc, words, input, ran, last))
        }
        _ => {}
    }
}

/// What is reported of the fault that stopped a run of these words, if one did, from what was written down since the last whole event, and
/// from what was for that one.
fn report_on_fault<M: ObjectMachine>(
    alloc: Global,
    words: &[&str],
    input: Option<&[u8]>,
    ran: &Ran<M>,
    last: &[Entry],
) -> Result<Option<String>, AllocError> {
    let Err(fault) = ran.ended else {
        return Ok(None);
    };
    let is_settling = words.contains(&"--settling");
    let mut text = fault_report(alloc, input, ran.trace(), last, fault, is_settling)?;
    if let (Fault::BadType, Some(input)) = (fault, input) {
        push_untyped(&mut text, alloc, input, ran.machine.meta())?;
    }
    Ok(Some(text))
}

/// Writes a text, if there is one.
fn tell<E: Write>(errors: &mut E, text: Result<Option<String>, AllocError>) {
    if let Ok(Some(text)) = text {
        errors.write_all(text.as_bytes()).ok();
    }
}
