//! The object machine: a run of a program, event by event, and all that is known of its runs.
#![tactic(auto)]

mod events;
mod machine;
mod quiet;
mod taking;

pub use class_outlines::MetaFault;
pub use machine::Machine;
pub use meta_model::Meta;
pub use native_slots::{Answering, Natives};
pub use object_machine::{
    ObjectMachine, always_settled, each_is_faultless, each_run_is_faultless, never_in_use,
    never_lacks_value, never_loops, never_stuck, never_too_deep, one_fault, one_judgement,
    one_prefix, one_prefix_of_answers, one_run, one_run_of_answers, one_taking, run_reads_no_trace,
    stops_at_limits, taking_settles,
};
pub use rank_check::Checked;
pub use script_lang::{ConnectionType, Endpoints, Event, Input, Literal, ScriptFault, read_script};
pub use trace_entries::{Answer, Entry, EntryKind, Fault, Shown, ShownAction, Trace};
