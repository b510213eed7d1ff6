//! Runs with the closures of a thermostat, and with one that does nothing for the program's own native.

use crate::calls::command_line::{CHECKED, CommandRun, UNCHECKED};
use crate::calls::task::{Reply, with_idle_doubler, with_thermostat};
use crate::calls::thermostat::PROGRAM;
use anyhow::Result;
use std::alloc::{AllocError, Global};
use std::str;

/// A run of a script with a thermostat.
struct ThermostatRun {
    title: &'static str,
    words: &'static [&'static str],
    script: &'static str,
    reply: Reply,
}

/// It gets colder than is wanted, as warm, and warmer.
const SCRIPT: &str =
    "new hall Thermostat\nnew lamp Lamp\nconnect hall switched(bool) lamp show(bool) direct\nset hall.wanted 20\ncall hall.measured(17)\ncall hall.measured(20)\ncall hall.measured(21)\n";

/// It is colder than is wanted, which is 0 at first.
const FROST: &str = "new hall Thermostat\ncall hall.measured(-1)\n";

/// What parts two texts of an input.
const PARTING: &[u8] = b"\n%%\n";

const RUNS: &[ThermostatRun] = &[
    ThermostatRun {
        title: "A thermostat",
        words: UNCHECKED,
        script: SCRIPT,
        reply: Reply::Judged,
    },
    ThermostatRun {
        title: "A thermostat, with a certificate",
        words: CHECKED,
        script: SCRIPT,
        reply: Reply::Judged,
    },
    ThermostatRun {
        title: "A thermostat that does nothing",
        words: UNCHECKED,
        script: FROST,
        reply: Reply::Nothing,
    },
    ThermostatRun {
        title: "A thermostat without memory",
        words: UNCHECKED,
        script: FROST,
        reply: Reply::NoMemory,
    },
    ThermostatRun {
        title: "A thermostat without memory, with a certificate",
        words: CHECKED,
        script: FROST,
        reply: Reply::NoMemory,
    },
];

/// The program's own native, and a call of it.
const DOUBLER: &[u8] =
    b"class Doubler { property int out; signal done(int); native twice(int v) emits done(int) sets out; }\n%%\nnew d Doubler\ncall d.twice(21)\n";

/// Writes what the runs write, behind the certificate of those that need one.
pub fn tell_runs<R: Print + AllocGlobal>(rt: &R) -> Result<()> {
    let mut certify = CommandRun::new(rt.alloc(), &["certify"], PROGRAM.as_bytes());
    with_thermostat(rt.alloc(), Reply::Judged, &mut certify)?;
    tell_answer(rt, "The certificate of a thermostat", &certify)?;
    for run in RUNS {
        tell_run(rt, run, certify.output.as_slice())?;
    }
    let mut doubled = CommandRun::new(rt.alloc(), UNCHECKED, DOUBLER);
    with_idle_doubler(rt.alloc(), &mut doubled)?;
    tell_answer(rt, "A doubler that does nothing", &doubled)
}

/// Writes what a run writes, with this certificate where it is checked.
fn tell_run<R: Print + AllocGlobal>(rt: &R, run: &ThermostatRun, certificate: &[u8]) -> Result<()> {
    let input = input_of(rt.alloc(), run, certificate)?;
    let mut line = CommandRun::new(rt.alloc(), run.words, input.as_slice());
    with_thermostat(rt.alloc(), run.reply, &mut line)?;
    tell_answer(rt, run.title, &line)
}

/// The program and the script of a run, with the certificate between them where it is checked.
fn input_of(alloc: Global, run: &ThermostatRun, certificate: &[u8]) -> Result<Vec<u8>, AllocError> {
    let mut input = Vec::from_slice(alloc, PROGRAM.as_bytes())?;
    if run.words.len() == 1 {
        input.extend_from_slice(PARTING)?;
        input.extend_from_slice(certificate)?;
    }
    input.extend_from_slice(PARTING)?;
    input.extend_from_slice(run.script.as_bytes())?;
    Ok(input)
}

/// Writes a command line's exit status, and below it what it writes.
pub fn tell_answer(rt: &impl Print, title: &str, line: &CommandRun<'_>) -> Result<()> {
    tell_text(rt, title, line.status, line.output.as_slice())
}

/// Writes a status, and below it a text.
pub fn tell_text(rt: &impl Print, title: &str, status: u8, text: &[u8]) -> Result<()> {
    let text = str::from_utf8(text).unwrap_or("no text\n");
    println!(rt; "{title}, status {status}:")?;
    print!(rt; "{text}")?;
    Ok(())
}
