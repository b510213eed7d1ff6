//! Each call of the languages, the checker, the stores and natives that can run out of memory, with what it answers.

mod bindings;
mod checking;
mod holding;
mod holds;
mod moving;
mod natives;
mod reading;
mod scheduling;
mod stores;
mod words;

use crate::trials::{ReportBuffer, TrialAnswer};
use bindings::{DIAMOND, GROUP, SUM, step_of};
use std::alloc::Global;

/// Makes what the call of this word is made on, makes the call, and tells what it answers. `None` where no call has the
/// word, and where there is no memory for what the call is made on.
pub fn make_call(alloc: Global, word: &str, told: &mut ReportBuffer) -> Option<TrialAnswer> {
    match word {
        "normalise" => Some(words::normal_form(alloc, told)),
        "sig_text" => words::signature_text(alloc, told),
        "text_of" => Some(words::text_of(alloc, told)),
        "value_copy" => words::value_copy(alloc, told),
        "type_of" => words::expression_type(alloc, told),
        "eval_sum" => words::sum(alloc, told),
        "eval_joined" => words::joined(alloc, told),
        "tokens" => Some(reading::program_tokens(alloc, told)),
        "nesting" => reading::program_nesting(alloc, told),
        "parse_body" => reading::body(alloc, told),
        "parse_expr" => reading::expression(alloc, told),
        "read_program" => Some(reading::program(alloc, told)),
        "build" => reading::meta_objects(alloc, told),
        "read_script" => Some(reading::script(alloc, told)),
        "read_certificate" => Some(reading::certificate(alloc, told)),
        _ => make_check(alloc, word, told),
    }
}

/// The calls that check programs.
fn make_check(alloc: Global, word: &str, told: &mut ReportBuffer) -> Option<TrialAnswer> {
    match word {
        "unfit_wire" => checking::unfit(alloc, told),
        "untyped" => checking::untyped_part(alloc, told),
        "scan" => checking::scan(alloc, told),
        "nodes" => checking::nodes(alloc, told),
        "edges" => checking::edges(alloc, told),
        "destroys" => checking::destroys(alloc, told),
        "make" => checking::made(alloc, told),
        "check" => checking::checked(alloc, told),
        _ => make_change(alloc, word, told),
    }
}

/// The calls of the stores and of natives.
fn make_change(alloc: Global, word: &str, told: &mut ReportBuffer) -> Option<TrialAnswer> {
    match word {
        "new_tree" => Some(stores::empty_tree(alloc, told)),
        "new_connections" => Some(stores::no_connections(alloc, told)),
        "new_loops" => Some(stores::first_loops(alloc, told)),
        "new_bindings" => Some(stores::no_bindings(alloc, told)),
        "new_store" => Some(stores::first_store(alloc, told)),
        "create" => stores::create(alloc, told),
        "adopt" => stores::adopt(alloc, told),
        "connect" => stores::connect(alloc, told),
        "add" => stores::add(alloc, told),
        "post" => stores::post(alloc, told),
        "schedule" => scheduling::schedule(alloc, told),
        "below" => moving::below(alloc, told),
        "rehome" => moving::rehome(alloc, told),
        "move_tree" => moving::move_tree(alloc, told),
        "bind_sum" => step_of(alloc, &SUM, 1, told),
        "write_sum" => step_of(alloc, &SUM, 2, told),
        "bind" => step_of(alloc, &DIAMOND, 2, told),
        "write" => step_of(alloc, &DIAMOND, 3, told),
        "write_group" => step_of(alloc, &GROUP, 1, told),
        "natives" => natives::doubler_fits(alloc, told),
        "native_call" => natives::doubler_call(alloc, told),
        _ => None,
    }
}
