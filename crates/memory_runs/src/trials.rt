//! How calls are tried that can run out of memory: what each answers, where there is memory for all and where a request
//! is refused, and whether what was lent to it is then as before.

mod answer;
mod calls;
mod programs;
mod report_buffer;

pub use answer::TrialAnswer;
pub use calls::{CallTable, tell_calls};
pub use programs::{CERTIFICATE, SCRIPT, SOURCE, certificate, loaded};
pub use report_buffer::ReportBuffer;
