//! Why a program isn't checked or run.

ghost use Rattle.std.specs.Prelude.{◌≡◌};
ghost use Rattle.command_lines.specs.Sent.{Puts};
ghost use Rattle.program_commands.specs.Refusals.{refusal_line, refusal_number, refusal_status, line_of, script_line, script_number, status_of};

use crate::unloaded::Unloaded;
use certificate_lang::CertificateFault;
use class_lang::TextFault;
use class_outlines::LoadFault;
use command_lines::Output;
use native_slots::Misfit;
use rank_check::{Denied, No};
use script_lang::ScriptFault;
use std::io::Write;
use thiserror::Error;

/// Why a program isn't checked or run, with its certificate, its script and its natives: what is refused, and why.
#[derive(Debug, Drop, Error)]
pub enum Refusal {
    /// The program's text can't be read.
    #[error(transparent)]
    Text(TextFault),
    /// The program doesn't load.
    #[error(transparent)]
    Loading(Unloaded),
    /// The certificate can't be read.
    #[error(transparent)]
    Certificate(CertificateFault),
    /// The script can't be read.
    #[error(transparent)]
    Script(ScriptFault),
    /// The certificate isn't valid for the program.
    #[error(transparent)]
    Check(Denied),
    /// The settling certificate isn't valid for the program.
    #[error(transparent)]
    Unsettled(No),
    /// The closures aren't those of the natives that the program declares.
    #[error(transparent)]
    Natives(Misfit),
}

/// The exit status where nothing was done.
pub const UNDONE: u8 = 1;
/// The exit status where a text or a native is refused.
const REFUSED: u8 = 2;
/// The exit status where the checker says no, or a program has no certificate.
pub const DENIED: u8 = 3;

impl Refusal {
    /// The number under which it is answered: that of the refusal, from 2 to 18 or 77, or of the checker's no, from 70 to
    /// 76. Running out of memory has none.
    pub fn number(&self) -> Option<u8>
        ensures { result ≡ refusal_number self.now }
    {
        match self {
            Refusal::Text(fault) => fault.number(),
            Refusal::Loading(unloaded) => unloaded.number(),
            Refusal::Certificate(fault) => fault.number(),
            Refusal::Script(fault) => number_of_script(fault),
            Refusal::Check(denied) => denied.no().number(),
            Refusal::Unsettled(no) => no.number(),
            Refusal::Natives(misfit) => Some(misfit.fault().number()),
        }
    }

    /// The exit status.
    pub fn status(&self) -> u8
        ensures { result ≡ refusal_status self.now }
    {
        match self {
            Refusal::Text(fault) => status_or_undone(REFUSED, fault.number()),
            Refusal::Loading(unloaded) => status_or_undone(REFUSED, unloaded.number()),
            Refusal::Certificate(fault) => status_or_undone(REFUSED, fault.number()),
            Refusal::Script(fault) => status_or_undone(REFUSED, number_of_script(fault)),
            Refusal::Check(denied) => status_or_undone(DENIED, denied.no().number()),
            Refusal::Unsettled(no) => status_or_undone(DENIED, no.number()),
            Refusal::Natives(misfit) => { status_or_undone(REFUSED, Some(misfit.fault().number())) }
        }
    }

    /// Adds its line to an output.
    pub fn put<W: Write>(&self, output: &mut Output<'_, W>)
        ensures { Puts W.contents output.old output.new (refusal_line self.now) }
    {
        match self {
            Refusal::Text(fault) => put_line(output, b"refused ", fault.number()),
            Refusal::Loading(unloaded) => put_line(output, b"refused ", unloaded.number()),
            Refusal::Certificate(fault) => put_line(output, b"refused ", fault.number()),
            Refusal::Script(fault) => put_script(output, fault),
            Refusal::Check(denied) => put_line(output, b"no ", denied.no().number()),
            Refusal::Unsettled(no) => put_line(output, b"no ", no.number()),
            Refusal::Natives(misfit) => output.numbered(b"refused ", misfit.fault().number()),
        }
    }
}

/// The number of a refused script; running out of memory has none.
fn number_of_script(fault: &ScriptFault) -> Option<u8>
    ensures { result ≡ script_number fault.now }
{
    match fault {
        ScriptFault::TooLarge => Some(7),
        ScriptFault::BadLine(_) => Some(16),
        ScriptFault::Memory => None,
    }
}

/// Adds the line of a refused script.
fn put_script<W: Write>(output: &mut Output<'_, W>, fault: &ScriptFault)
    ensures { Puts W.contents output.old output.new (script_line fault.now) }
{
    match fault {
        ScriptFault::TooLarge => put_line(output, b"refused ", number_of_script(fault)),
        ScriptFault::BadLine(line) => output.numbered(b"refused 16 line ", *line),
        ScriptFault::Memory => put_line(output, b"refused ", number_of_script(fault)),
    }
}

/// This exit status, where there is a number, and else that of running out of memory.
pub fn status_or_undone(status: u8, number: Option<u8>) -> u8
    ensures { result ≡ status_of status number }
{
    match number {
        Some(_) => status,
        None => UNDONE,
    }
}

/// Adds a line of these words and a number, or that of running out of memory.
pub fn put_line<W: Write>(output: &mut Output<'_, W>, words: &[u8], number: Option<u8>)
    ensures { Puts W.contents output.old output.new (line_of words.now number) }
{
    match number {
        Some(number) => output.numbered(words, number),
        None => output.put(b"memory\n"),
    }
}

impl From<TextFault> for Refusal {
    ghost use Rattle.std.specs.Prelude.{◌≡◌};
    ghost use Rattle.program_commands.specs.declared.refusal.Refusal.TheVariants.{Text};

    ghost from_gives = { λ fault refusal. refusal ≡ Text fault };

    fn from(fault: TextFault) -> Refusal {
        Refusal::Text(fault)
    }
}

impl From<LoadFault> for Refusal {
    ghost use Rattle.std.specs.Prelude.{◌≡◌};
    ghost use Rattle.class_outlines.specs.Offences.{fault_told};
    ghost use Rattle.program_commands.specs.declared.refusal.Refusal.TheVariants.{Loading};

    ghost from_gives = { λ fault refusal. refusal ≡ Loading (fault_told fault) };

    fn from(fault: LoadFault) -> Refusal {
        Refusal::Loading(Unloaded::new(fault))
    }
}

impl From<CertificateFault> for Refusal {
    ghost use Rattle.std.specs.Prelude.{◌≡◌};
    ghost use Rattle.program_commands.specs.declared.refusal.Refusal.TheVariants.{Certificate};

    ghost from_gives = { λ fault refusal. refusal ≡ Certificate fault };

    fn from(fault: CertificateFault) -> Refusal {
        Refusal::Certificate(fault)
    }
}

impl From<ScriptFault> for Refusal {
    ghost use Rattle.std.specs.Prelude.{◌≡◌};
    ghost use Rattle.program_commands.specs.declared.refusal.Refusal.TheVariants.{Script};

    ghost from_gives = { λ fault refusal. refusal ≡ Script fault };

    fn from(fault: ScriptFault) -> Refusal {
        Refusal::Script(fault)
    }
}

impl From<Denied> for Refusal {
    ghost use Rattle.std.specs.Prelude.{◌≡◌};
    ghost use Rattle.program_commands.specs.declared.refusal.Refusal.TheVariants.{Check};

    ghost from_gives = { λ denied refusal. refusal ≡ Check denied };

    fn from(denied: Denied) -> Refusal {
        Refusal::Check(denied)
    }
}

impl From<Misfit> for Refusal {
    ghost use Rattle.std.specs.Prelude.{◌≡◌};
    ghost use Rattle.program_commands.specs.declared.refusal.Refusal.TheVariants.{Natives};

    ghost from_gives = { λ misfit refusal. refusal ≡ Natives misfit };

    fn from(misfit: Misfit) -> Refusal {
        Refusal::Natives(misfit)
    }
}

impl From<No> for Refusal {
    ghost use Rattle.std.specs.Prelude.{◌≡◌};
    ghost use Rattle.program_commands.specs.declared.refusal.Refusal.TheVariants.{Unsettled};

    ghost from_gives = { λ reason refusal. refusal ≡ Unsettled reason };

    fn from(no: No) -> Refusal {
        Refusal::Unsettled(no)
    }
}
