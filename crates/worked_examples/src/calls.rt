//! What only direct calls show: a native of one's own, a machine event by event, readers and writers that fail, what binds
//! and writes evaluate, inputs that are too large for a file, what texts stand for, what leads to what, and what memory the stores
//! hold. What has to be written was worked out by hand from the documents.

mod checking;
mod command_line;
mod following;
mod holding;
mod loading;
mod machines;
mod reading;
mod runs;
mod scheduling;
mod sizes;
mod streams;
mod task;
mod thermostat;

use anyhow::Result;
use checking::tell_checking;
use following::tell_following;
use holding::tell_holding;
use machines::tell_machines;
use reading::tell_reading;
use runs::tell_runs;
use scheduling::tell_scheduling;
use sizes::tell_sizes;
use streams::tell_streams;

/// Writes what each of these calls answers.
pub fn tell_calls<R: Print + AllocGlobal>(rt: &R) -> Result<()> {
    tell_runs(rt)?;
    tell_machines(rt)?;
    tell_following(rt)?;
    tell_scheduling(rt)?;
    tell_streams(rt)?;
    tell_sizes(rt)?;
    tell_reading(rt)?;
    tell_checking(rt)?;
    tell_holding(rt)?;
    Ok(())
}
