//! The commands.

use crate::trials::{CERTIFICATE, ReportBuffer, SCRIPT, SOURCE, TrialAnswer};
use native_slots::Natives;
use std::alloc::Global;
use trace_tool::{WriteFault, certify, check, command, meta, run, run_settling, run_unchecked};

/// A counter that is wired to itself.
pub const COUNTER: &str =
    "class Counter { property int value notify valueChanged(int); signal valueChanged(int); slot setValue(int v) { set this.value = v; } } wire Counter valueChanged(int) -> Counter setValue(int) direct;";

/// Its settling certificate.
const SETTLING: &str =
    "settling 1\nbound 4 3\nQObject.destroyed(QObject*) 0 0\nQObject.objectNameChanged(QString) 0 0\nQObject.deleteLater() 0 0\nQObject.objectName 1 0\n~QObject 1 0 ~QObject\nCounter.destroyed(QObject*) 0 0\nCounter.objectNameChanged(QString) 0 0\nCounter.deleteLater() 0 0\nCounter.valueChanged(int) 2 3\nCounter.setValue(int) 1 3\nCounter.objectName 1 0\nCounter.value 3 3\n~Counter 1 0 ~Counter\nround 3 Counter.setValue(int) Counter.value Counter.valueChanged(int)\n";

/// Two counters that follow one another.
const COUNTING: &str =
    "new a Counter\nnew b Counter\nconnect a valueChanged(int) b setValue(int) direct\nconnect b valueChanged(int) a setValue(int) direct\nset a.value 5\n";

/// How many rules a run uses at most.
const STEPS: u64 = 1_000_000;

/// How a command ended.
fn ended(status: Result<u8, WriteFault>) -> TrialAnswer {
    match status {
        Ok(status) => TrialAnswer::Ended(status),
        Err(_) => TrialAnswer::Other,
    }
}

/// `meta`.
pub fn described(alloc: Global, told: &mut ReportBuffer) -> TrialAnswer {
    ended(meta(alloc, SOURCE.as_bytes(), &mut told.text))
}

/// `certify` of no program at all.
pub fn certified(alloc: Global, told: &mut ReportBuffer) -> TrialAnswer {
    ended(certify(alloc, b"", &mut told.text))
}

/// `check`, the command.
pub fn judged(alloc: Global, told: &mut ReportBuffer) -> TrialAnswer {
    ended(check(
        alloc,
        SOURCE.as_bytes(),
        CERTIFICATE.as_bytes(),
        &mut told.text,
    ))
}

/// `run`.
pub fn checked_run(alloc: Global, told: &mut ReportBuffer) -> TrialAnswer {
    ended(
        run(
            alloc,
            SOURCE.as_bytes(),
            CERTIFICATE.as_bytes(),
            SCRIPT.as_bytes(),
            Natives::of(Vec::new(alloc)),
            STEPS,
            &mut told.text,
        )
        .status,
    )
}

/// `run_settling`.
pub fn settling_run(alloc: Global, told: &mut ReportBuffer) -> TrialAnswer {
    ended(
        run_settling(
            alloc,
            COUNTER.as_bytes(),
            SETTLING.as_bytes(),
            COUNTING.as_bytes(),
            Natives::of(Vec::new(alloc)),
            STEPS,
            &mut told.text,
        )
        .status,
    )
}

/// `run_unchecked`.
pub fn unchecked_run(alloc: Global, told: &mut ReportBuffer) -> TrialAnswer {
    ended(
        run_unchecked(
            alloc,
            COUNTER.as_bytes(),
            COUNTING.as_bytes(),
            Natives::of(Vec::new(alloc)),
            7,
            STEPS,
            &mut told.text,
        )
        .status,
    )
}

/// `command`.
pub fn command_line(alloc: Global, told: &mut ReportBuffer) -> Option<TrialAnswer> {
    let input = format!(in alloc; "{SOURCE}%%\n{CERTIFICATE}%%\n{SCRIPT}").ok()?;
    let mut reader = input.as_bytes();
    let natives = Natives::of(Vec::new(alloc));
    Some(ended(command(alloc, &["run"], &mut reader, natives, &mut told.text).status))
}
