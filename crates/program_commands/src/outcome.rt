//! What the commands that run nothing come to, and how it is written.

ghost use Rattle.std.specs.Prelude.{◌≡◌};
ghost use Rattle.command_lines.specs.Sent.{Puts, TakesWith};
ghost use Rattle.program_commands.specs.Outcomes.{outcome_text, outcome_status};

use crate::certified::Certified;
use crate::reasons::{put_reason, status_of_reason};
use crate::refusal::Refusal;
use crate::settling_commands::SettlingOutcome;
use command_lines::{Output, WriteFault};
use meta_model::Meta;
use rank_check::Checked;
use rank_make::Why;
use std::alloc::Global;
use std::io::Write;

/// The exit status of a command that did what it was asked.
pub const DONE: u8 = 0;

/// What a command comes to that runs nothing.
#[derive(Drop)]
pub enum Outcome {
    /// A text is refused, or the certificate isn't valid for the program.
    Refused(Refusal),
    /// The program loads, and these are its classes.
    Classes(Meta),
    /// The program has a certificate, and this is the text of its least valid one.
    Certificate(Certified),
    /// No certificate is valid for this program, for this reason.
    Uncertified(Meta, Why),
    /// The certificate is valid for the program.
    Valid(Checked),
    /// What a command on settling certificates comes to.
    Settling(SettlingOutcome),
}

impl Outcome {
    /// The exit status: 0 where the command did what it was asked, 3 where no certificate is valid for the program or this one
    /// isn't, 2 where a text is refused, 1 where memory ran out.
    pub fn status(&self) -> u8
        ensures { result ≡ outcome_status self.now }
    {
        match self {
            Outcome::Refused(refusal) => refusal.status(),
            Outcome::Uncertified(_, why) => status_of_reason(why),
            Outcome::Classes(_) | Outcome::Certificate(_) | Outcome::Valid(_) => DONE,
            Outcome::Settling(outcome) => outcome.status(),
        }
    }

    /// Adds its lines to an output.
    pub fn put<W: Write>(&self, output: &mut Output<'_, W>)
        ensures { Puts W.contents output.old output.new (outcome_text self.now) }
    {
        match self {
            Outcome::Refused(refusal) => refusal.put(output),
            Outcome::Classes(meta) => output.classes(meta),
            Outcome::Certificate(certified) => output.put(certified.text()),
            Outcome::Uncertified(meta, why) => put_reason(output, meta, why),
            Outcome::Valid(_) => output.put(b"yes\n"),
            Outcome::Settling(outcome) => outcome.put(output),
        }
    }

    /// Writes its lines, and answers the exit status. There is a `WriteFault` only where a write failed: what was taken by
    /// then is the beginning of the lines, and nothing is written after that.
    pub fn write<W: Write>(&self, alloc: Global, w: &mut W) -> Result<u8, WriteFault>
        ensures { TakesWith (W.contents w.old) (W.contents w.new)
            (outcome_text self.now) (outcome_status self.now) result }
    {
        let mut output = Output::new(alloc, w);
        self.put(&mut output);
        output.finish(self.status())
    }
}
