//! Makes each call of the languages, the checker, the stores, natives, machines and commands that can run out of memory, and
//! tells what it answers.
#![tactic(auto)]

mod calls;
mod commanding;
mod machines;
mod trials;

use crate::calls::make_call;
use crate::trials::{CallTable, ReportBuffer, TrialAnswer, tell_calls};
use std::alloc::Global;
use std::io;

fn main(rt: HostRuntime) -> io::Result<()> {
    tell_calls::<AllCalls, HostRuntime>(&rt)
}

/// The calls, from the languages to the commands.
struct AllCalls;

impl CallTable for AllCalls {
    const WORDS: &'static str =
        "normalise sig_text text_of value_copy type_of eval_sum eval_joined tokens nesting parse_body parse_expr read_program build read_script read_certificate unfit_wire untyped scan nodes edges destroys make check new_tree new_connections new_loops new_bindings new_store create adopt connect add post schedule below rehome move_tree bind_sum write_sum bind write write_group natives native_call checked unchecked apply meta certify check_text run run_settling run_unchecked command";

    fn make(alloc: Global, word: &str, told: &mut ReportBuffer) -> Option<TrialAnswer> {
        match word {
            "checked" => machines::checked_machine(alloc, told),
            "unchecked" => machines::unchecked_machine(alloc, told),
            "apply" => machines::events(alloc, told),
            "meta" => Some(commanding::described(alloc, told)),
            "certify" => Some(commanding::certified(alloc, told)),
            "check_text" => Some(commanding::judged(alloc, told)),
            "run" => Some(commanding::checked_run(alloc, told)),
            "run_settling" => Some(commanding::settling_run(alloc, told)),
            "run_unchecked" => Some(commanding::unchecked_run(alloc, told)),
            "command" => commanding::command_line(alloc, told),
            _ => make_call(alloc, word, told),
        }
    }
}
