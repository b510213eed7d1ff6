//! What a command line is about to do, and how it is done: with a run's trace as a value, or written out while the run goes on.

ghost use Rattle.std.specs.Prelude.{◌≡◌, IfErr};
ghost use Rattle.object_machine.specs.Checked.{IsChecked, StopsAtLimit};
ghost use Rattle.object_machine.specs.Seen.{AreKept};
ghost use Rattle.trace_tool.specs.Outcomes.{seen_outcome, seen_run};
ghost use Rattle.trace_tool.specs.Prepared.{ComesOf, ComesOfRun, CarriesOut, MayBeDone, RunsSo, seen_prepared};
ghost use Rattle.trace_tool.specs.code.Streaming.{Streams};

use crate::any_machine::outcome::{Outcome, Ran, Sent};
use command_lines::{Failing, Output, WriteFault};
use object_machine::ObjectMachine;
use script_lang::Event;
use sqlite_items::Items;
use std::alloc::Global;
use std::io::Write;
use trace_entries::{Entry, Fault, Trace};

/// A run that is about to begin.
#[derive(Drop)]
pub struct Ready<M: Drop> {
    /// The machine, which has done nothing.
    pub machine: M,
    /// The events that it is to take.
    pub events: Items<Event>,
}

/// What a command line is about to do.
#[derive(Drop)]
pub enum Prepared<M: Drop> {
    /// Nothing runs: this is what it comes to.
    Done(Outcome<M>),
    /// A program runs.
    Ready(Ready<M>),
}

/// What was done, and written.
#[derive(Drop)]
pub struct Carried<M: Drop> {
    /// What it came to. A run's trace was handed over as it was written: its machine has what was written down since the last
    /// whole event.
    pub outcome: Outcome<M>,
    /// What a run wrote down for the last whole event; empty where there was none.
    pub last: Trace,
    /// The lines of a run's refused events, in their order, up to the first for which there was no memory.
    pub refused: Trace,
    /// The exit status, or why the output couldn't be written.
    pub written: Result<u8, WriteFault>,
    /// Whether a write failed.
    pub writing: Failing,
}

/// What events came to that were written out one by one.
#[derive(Drop)]
struct Streamed {
    ended: Result<(), Fault>,
    last: Trace,
    refused: Trace,
}

impl<M: ObjectMachine> Prepared<M> {
    /// Does it, and keeps the trace of a run.
    pub fn outcome(self) -> Outcome<M>
        requires { MayBeDone M.Natives.takes M.Natives.gives (seen_prepared M.seen self) }
        ensures { ComesOf M.Natives.gives (seen_prepared M.seen self) (seen_outcome M.seen result) }
    {
        match self {
            Prepared::Done(outcome) => outcome,
            Prepared::Ready(ready) => Outcome::Ran(ready.run()),
        }
    }

    /// Does it, and writes what it comes to: the trace of a run event by event, as each is done. There is a `WriteFault` only
    /// where a write failed: what was taken by then is the beginning of what is written, and nothing is written after that,
    /// though the run goes on to its end.
    pub fn carry_out<W: Write>(self, alloc: Global, w: &mut W) -> Carried<M>
        requires { MayBeDone M.Natives.takes M.Natives.gives (seen_prepared M.seen self) }
        ensures { CarriesOut (ComesOf M.Natives.gives (seen_prepared M.seen self))
            (W.contents w.old) (W.contents w.new)
            (seen_outcome M.seen result.outcome) result.written result.writing }
    {
        match self {
            Prepared::Done(outcome) => {
                let written = outcome.write(alloc, w);
                Carried {
                    outcome,
                    last: Trace::new(alloc),
                    refused: Trace::new(alloc),
                    written: written.status,
                    writing: written.writing,
                }
            }
            Prepared::Ready(ready) => ready.stream(alloc, w),
        }
    }
}

impl<M: ObjectMachine> Ready<M> {
    /// Runs to its end, and keeps the trace.
    fn run(self) -> Ran<M>
        requires { AreKept M.Natives.takes M.Natives.gives (M.seen self.machine) }
        ensures { RunsSo M.Natives.gives (M.seen self.machine) self.events
            (seen_run M.seen result) }
    {
        let Ready {
            mut machine,
            events,
        } = self;
        let ended = machine.run(events.as_slice());
        Ran { machine, ended }
    }

    /// Runs to its end, and writes the trace event by event.
    fn stream<W: Write>(self, alloc: Global, w: &mut W) -> Carried<M>
        requires { AreKept M.Natives.takes M.Natives.gives (M.seen self.machine) }
        ensures { CarriesOut (ComesOfRun M.Natives.gives (M.seen self.machine) self.events)
            (W.contents w.old) (W.contents w.new)
            (seen_outcome M.seen result.outcome) result.written result.writing }
    {
        let Ready {
            mut machine,
            events,
        } = self;
        let mut output = Output::new(alloc, w);
        let streamed = stream_events(alloc, &mut machine, events.as_slice(), &mut output);
        let Streamed {
            ended,
            last,
            refused,
        } = streamed;
        let ran = Ran { machine, ended };
        ran.put(&mut output);
        let written = output.finish(ran.status());
        Carried {
            outcome: Outcome::Ran(ran),
            last,
            refused,
            written,
            writing: output.failing(),
        }
    }
}

/// The exit status of what was done, or why it couldn't be written; and whether a write failed.
pub fn sent<M: ObjectMachine>(carried: Carried<M>) -> Sent
    ensures status { result.status ≡ carried.written }
    ensures writing { result.writing ≡ carried.writing }
{
    let Carried {
        outcome: _,
        last: _,
        refused: _,
        written,
        writing,
    } = carried;
    Sent {
        status: written,
        writing,
    }
}

/// Applies events in their order until a fault comes, and puts what each has written down into the output when it is done.
/// What was written down of an event at which a fault came stays in the machine's trace.
fn stream_events<M: ObjectMachine, W: Write>(
    alloc: Global,
    machine: &mut M,
    events: &[Event],
    output: &mut Output<'_, W>,
) -> Streamed
    requires { AreKept M.Natives.takes M.Natives.gives (M.seen machine.old) }
    ensures streams { Streams M.Natives.gives W.contents (M.seen machine.old) events.now
        result.ended (M.seen machine.new) output.old output.new }
    ensures limits { IsChecked M.Natives.gives (M.seen machine.old)
        → IfErr result.ended (StopsAtLimit (M.seen machine.old)) }
{
    let mut last = Trace::new(alloc);
    let mut refused = Trace::new(alloc);
    let mut notes_all = true;
    if machine.is_stopped() {
        return Streamed {
            ended: Err(Fault::Stopped),
            last,
            refused,
        };
    }
    for event in events {
        match machine.apply(event) {
            Ok(_answer) => {
                last.keep_first(0);
                last = machine.hand_over(last);
                output.entries(last.as_slice());
                notes_all = notes_all && note_refusal(&mut refused, last.as_slice());
            }
            Err(fault) => {
                return Streamed {
                    ended: Err(fault),
                    last,
                    refused,
                };
            }
        }
    }
    Streamed {
        ended: Ok(()),
        last,
        refused,
    }
}

/// Adds the line of an event, of which these are the entries, to those of refused events, if it was refused. Whether there was
/// memory for it.
fn note_refusal(refused: &mut Trace, entries: &[Entry]) -> bool {
    match entries.first() {
        Some(Entry::Refused(event, reason)) => {
            refused.append([Entry::Refused(*event, *reason)]).is_ok()
        }
        _ => true,
    }
}
