//! Runs of a program by which it is seen what scripts show.

ghost use Rattle.std.specs.Prelude.{◌≡◌, ◌≤◌, ◌<◌, ◌^◌, IsTrue};
ghost use Rattle.run_witness.specs.Shows.{Shows, is_shown, shows_fault};

use crate::lent::Lent;
use class_lang::Limits;
use qt_runtime::Machine;
use std::alloc::Global;
use texts::MOST_DEPTH;
use trace_tool::{Fault, FittingNatives, Outcome, prepare_unchecked_run};

/// The depth to which runs are tried, which is the greatest that there is.
const DEPTH: usize = MOST_DEPTH as usize;

/// A program's text, how large it may be, and the natives that are lent to its runs.
#[derive(Drop)]
pub struct Trials<'t, N> {
    pub limits: Limits,
    pub program: &'t [u8],
    pub natives: &'t N,
}

impl<N: FittingNatives> Trials<'_, N> {
    /// Whether the unchecked run of the script, by so many rules at most (1 to 2^63 - 1), ends with fault 61, 62 or 63.
    pub fn ends_so(&self, alloc: Global, script: &[u8], steps: u64) -> bool
        requires steps { (1 ≤ steps) × (steps < 2 ^ 63) }
        ensures { let heads = N.heads self.now.natives.now in
            IsTrue result → Shows self.now.limits heads (N.gives self.now.natives.now)
            self.now.program.now script.now steps }
    {
        let lent = Lent {
            natives: self.natives,
        };
        let prepared = prepare_unchecked_run::<Lent<'_, N>, Machine<Lent<'_, N>>>(
            alloc,
            self.limits,
            self.program,
            script,
            lent,
            DEPTH,
            steps,
        );
        let came = prepared.outcome();
        shows_fault(&came)
    }
}

/// Whether it is a run, and ended with fault 61, 62 or 63.
fn shows_fault<M: Drop>(outcome: &Outcome<M>) -> bool
    ensures { result ≡ shows_fault outcome.now }
{
    match outcome {
        Outcome::Ran(ran) => match ran.ended {
            Ok(()) => false,
            Err(fault) => is_shown(fault),
        },
        _ => false,
    }
}

/// Whether it is fault 61, 62 or 63.
fn is_shown(fault: Fault) -> bool
    ensures { result ≡ is_shown fault }
{
    matches!(fault, Fault::TooDeep | Fault::BindingLoop | Fault::InUse)
}
