//! What an object machine does that runs programs, whatever its code: which events are accepted and what they ask for, its
//! runs, why they stop, the calls of a machine, and what holds of its runs, also of what they never come to where a program
//! is checked.
#![tactic(auto)]

mod assigning;
mod binding;
mod checked_laws;
mod connecting;
mod ends;
mod invoking;
mod laws;
mod machine;
mod named;
mod not_accepted;
mod values;

pub use assigning::judge_write;
pub use binding::{Asked, judge_bind};
pub use checked_laws::{
    each_is_faultless, each_run_is_faultless, never_in_use, never_lacks_value, never_loops,
    never_stuck, never_too_deep, stops_at_limits,
};
pub use connecting::{judge_connect, judge_disconnect};
pub use invoking::{Invocation, Invoked, judge_invocation};
pub use laws::{
    always_settled, one_fault, one_judgement, one_prefix, one_prefix_of_answers, one_run,
    one_run_of_answers, one_taking, run_reads_no_trace, taking_settles,
};
pub use machine::ObjectMachine;
pub use named::find_living;
pub use not_accepted::NotAccepted;
