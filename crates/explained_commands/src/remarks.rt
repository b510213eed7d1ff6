//! What is reported beside a yes, from what the words came to.

ghost use Rattle.std.specs.Prelude.{◌↔◌, ◌≡◌, ◌∷◌, [], codes, map, IsTrue};
ghost use Rattle.explained_commands.specs.Judged.{IsUnjudged};

use crate::escapes::push_escapes;
use crate::placed::some_text;
use diagnostics::PARTING;
use program_commands::SettlingOutcome;
use program_flaws::{Ranked, Yes, told_beside};
use std::alloc::{AllocError, Global};
use texts::split_at_line;
use trace_tool::{ObjectMachine, Outcome, ProgramOutcome};

/// Whether a command whose words these are judges a program where it succeeds: `meta` doesn't, and neither does
/// `run --unchecked`.
pub fn is_judged(words: &[&str]) -> bool
    ensures judged { let said = map (λ word. word.now) words.now in IsTrue result → IsUnjudged said → ⊥ }
    ensures meta { IsTrue result → map (λ word. word.now) words.now ≡ codes "meta" ∷ [] → ⊥ }
{
    match words {
        [] => false,
        [only] => *only != "meta",
        [_, second, ..] => *second != "--unchecked",
    }
}

/// Whether the words may be those of a run; `meta` alone is none.
pub fn may_run(words: &[&str]) -> bool
    ensures { IsTrue result → map (λ word. word.now) words.now ≡ codes "meta" ∷ [] → ⊥ }
{
    match words {
        [] => false,
        [only] => *only != "meta",
        [_, _, ..] => true,
    }
}

/// What is reported beside the yes that the words came to on this input, if they came to one: warnings of the program,
/// which is the first text, and where it didn't run how deep its chains are. `None` where there is nothing to tell, and
/// where the input isn't known.
pub fn remarks_on<M: ObjectMachine>(
    alloc: Global,
    input: Option<&[u8]>,
    outcome: &Outcome<M>,
) -> Result<Option<String>, AllocError> {
    let (Some(input), Some(yes)) = (input, yes_of(outcome)) else {
        return Ok(None);
    };
    let program = match split_at_line(input, PARTING) {
        Some((program, _)) => program,
        None => input,
    };
    let mut text = String::new(alloc);
    push_escapes(&mut text, alloc, input)?;
    if let Some(told) = told_beside(alloc, program, yes)? {
        text.push_str(told.as_str())?;
    }
    if let Outcome::Program(ProgramOutcome::Settling(SettlingOutcome::Valid(checked))) = outcome {
        let (bound, step) = (checked.bound(), checked.step());
        writeln!(text, "bound {bound}, step {step}")?;
    }
    Ok(some_text(text))
}

/// The yes that this is, if it is one.
fn yes_of<M: ObjectMachine>(outcome: &Outcome<M>) -> Option<Yes<'_>> {
    match outcome {
        Outcome::Program(ProgramOutcome::Certificate(certified)) => {
            Some(Yes::Certified(Ranked::of(certified.meta(), certified.ranks())))
        }
        Outcome::Program(ProgramOutcome::Valid(checked)) => Some(Yes::Valid(checked)),
        // The ranks of these tell nothing of a program with a circle.
        Outcome::Program(ProgramOutcome::Settling(SettlingOutcome::Certificate(meta, _))) => {
            Some(Yes::Ran(meta))
        }
        Outcome::Program(ProgramOutcome::Settling(SettlingOutcome::Valid(checked))) => {
            Some(Yes::Ran(checked.meta()))
        }
        Outcome::Ran(ran) => Some(Yes::Ran(ran.machine.meta())),
        _ => None,
    }
}
