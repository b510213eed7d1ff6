//! Scripts as tests: what the comments of a script expect of its events, whether the trace of a run has it, and the script with
//! the comments that a trace meets.
#![tactic(auto)]

mod difference;
mod expected;
mod finding;
mod happened;
mod judging;
mod recording;
mod telling;

pub use difference::{LineDifference, first_difference};
pub use expected::{ExpectationFault, Expected, ExpectedAnswer, expectations};
pub use finding::{EventOutcome, find, went_as_expected};
pub use happened::{Happened, split_event};
pub use judging::{Test, judge};
pub use recording::{Recorded, record};
pub use telling::{TestFormat, report};
