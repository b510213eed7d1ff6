//! What the commands on settling certificates come to, and how it is written.

ghost use Rattle.std.specs.Prelude.{◌≡◌};
ghost use Rattle.command_lines.specs.Sent.{Puts};
ghost use Rattle.program_commands.specs.Outcomes.{settling_text, settling_status};

use crate::outcome::DONE;
use crate::reasons::{put_reason, status_of_reason};
use command_lines::Output;
use meta_model::Meta;
use rank_make::Why;
use settling::Checked;
use sqlite_items::Items;
use std::io::Write;

/// What a command on settling certificates comes to, where it refuses no text.
#[derive(Drop)]
pub enum SettlingOutcome {
    /// The program has a settling certificate, and this is the text of one.
    Certificate(Meta, Items<u8>),
    /// No settling certificate was made for this program, for this reason.
    Uncertified(Meta, Why),
    /// The settling certificate is valid for the program.
    Valid(Checked),
}

impl SettlingOutcome {
    /// The exit status: 0 where the command did what it was asked, 3 where no certificate was made, 1
    /// where memory ran out.
    pub fn status(&self) -> u8
        ensures { result ≡ settling_status self.now }
    {
        match self {
            SettlingOutcome::Certificate(_, _) | SettlingOutcome::Valid(_) => DONE,
            SettlingOutcome::Uncertified(_, why) => status_of_reason(why),
        }
    }

    /// Adds its lines to an output.
    pub fn put<W: Write>(&self, output: &mut Output<'_, W>)
        ensures { Puts W.contents output.old output.new (settling_text self.now) }
    {
        match self {
            SettlingOutcome::Certificate(_, text) => output.put(text.as_slice()),
            SettlingOutcome::Uncertified(meta, why) => put_reason(output, meta, why),
            SettlingOutcome::Valid(_) => output.put(b"yes\n"),
        }
    }
}
