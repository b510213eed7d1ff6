//! The search for a script, and what of it is needed.

ghost use Rattle.std.specs.Prelude.{IfOk, IsTrue};
ghost use Rattle.settling.specs.declared.certificate.SettlingCertificate.{SettlingCertificate};
ghost use Rattle.settling.specs.Valid.{IsValid};
ghost use Rattle.run_witness.specs.Shows.{IsCertified, IsSettling, IsSearchOutcome, Shows};

use crate::event_subset::{EventRange, EventSubset};
use crate::events::{push_begins, push_joints};
use crate::stage::push_stage;
use crate::trials::Trials;
use class_lang::Limits;
use effect_scan::Node;
use meta_model::Meta;
use program_commands::{Refusal, load_program};
use rank_make::{Why, make};
use settling_make::Why as Unmade;
use std::alloc::{AllocError, Global};
use thiserror::Error;
use trace_tool::FittingNatives;

/// How many rules a run uses at most, as many as `run` uses where it isn't told.
const STEPS: u64 = 1_000_000;

/// How many rules a run uses at most by which it is tried whether events can be left out.
const TRIAL_STEPS: u64 = 100_000;

/// So many bytes of programs are read at most to try whether events can be left out: each trial reads the program once.
const TRIED_BYTES: usize = 33_554_432;

/// So many trials are made at most.
const MOST_TRIALS: usize = 4096;

/// So many events are left out at once where they can be, the largest parts first.
const PARTS: [usize; 7] = [4096, 1024, 256, 64, 16, 4, 1];

/// What was found.
#[derive(Drop)]
pub enum SearchOutcome {
    /// A script whose run ends so, in whole lines.
    Found(String),
    /// No such script was found, which proves nothing.
    NotFound,
    /// The program has a certificate, so that no run of it ends so.
    Certified,
    /// The program has a settling certificate: its cycles come to rest.
    Settles,
}

/// Why nothing was sought.
#[derive(Clone, Copy, Debug, PartialEq, Eq, Error)]
pub enum WitnessFault {
    /// The text can't be read, or the program doesn't load: the number of the refusal.
    #[error("the program is refused with {0}")]
    Refused(u8),
    /// A growth of memory was refused.
    #[error("out of memory")]
    Memory,
}

impl From<AllocError> for WitnessFault {
    fn from(_: AllocError) -> WitnessFault {
        WitnessFault::Memory
    }
}

impl From<Refusal> for WitnessFault {
    fn from(refusal: Refusal) -> WitnessFault {
        match refusal.number() {
            Some(number) => WitnessFault::Refused(number),
            None => WitnessFault::Memory,
        }
    }
}

/// A script whose run of this program, which is read by these limits, unchecked and with the natives that are lent, ends as the
/// reason warns for which the program has no certificate: with fault 61, 62 or 63, at a depth of 256 and within 1,000,000 rules.
/// There is an object of each class, the wires and bindings of the chain that the reason names are used, and each of its
/// members is begun with; events that aren't needed are left out, as far as a bounded number of trials finds them.
pub fn find_witness<N: FittingNatives>(
    alloc: Global,
    limits: Limits,
    program: &[u8],
    natives: &N,
) -> Result<SearchOutcome, WitnessFault>
    ensures { let heads = N.heads natives.now in
        IfOk result (IsSearchOutcome
        (λ script. Shows limits heads (N.gives natives.now) program.now script 1000000)
        (IsCertified limits program.now)
        (IsSettling limits program.now)) }
{
    let meta = load_program(alloc, limits, program)?;
    let nodes = match make(alloc, &meta) {
        Ok(_) => return Ok(SearchOutcome::Certified),
        Err(Why::Memory) => return Err(WitnessFault::Memory),
        Err(Why::Wire(_) | Why::BodyType(_)) => return Ok(SearchOutcome::NotFound),
        // A program without cycles has a settling certificate only where it has one.
        Err(Why::Cycle(nodes)) => {
            if settles(alloc, &meta)? {
                return Ok(SearchOutcome::Settles);
            }
            nodes
        }
        Err(Why::DestroyPath(nodes) | Why::TooHigh(nodes)) => nodes,
    };
    let trials = Trials {
        limits,
        program,
        natives,
    };
    let sought = trials.search(alloc, &meta, nodes.as_slice())?;
    Ok(sought)
}

/// Whether a settling certificate is made of the program. Its error is that memory was refused.
fn settles(alloc: Global, meta: &Meta) -> Result<bool, AllocError>
    ensures { IfOk result (λ settles. IsTrue settles → (certificate : SettlingCertificate) × IsValid meta.now certificate) }
{
    match settling_make::make(alloc, meta) {
        Ok(_) => Ok(true),
        Err(Unmade::Memory) => Err(AllocError),
        Err(_) => Ok(false),
    }
}

impl<N: FittingNatives> Trials<'_, N> {
    /// Tries the events for these members, and leaves out those that aren't needed.
    fn search(
        &self,
        alloc: Global,
        meta: &Meta,
        nodes: &[Node],
    ) -> Result<SearchOutcome, AllocError>
        ensures { let heads = N.heads self.now.natives.now in
            IfOk result (IsSearchOutcome
            (λ script. Shows self.now.limits heads (N.gives self.now.natives.now)
            self.now.program.now script 1000000)
            (IsCertified self.now.limits self.now.program.now)
            (IsSettling self.now.limits self.now.program.now)) }
    {
        let mut events = Vec::new(alloc);
        push_stage(alloc, meta, &mut events)?;
        push_joints(alloc, meta, nodes, &mut events)?;
        push_begins(alloc, meta, nodes, &mut events)?;
        let mut subset = EventSubset::of(alloc, events)?;
        let whole = subset.script(alloc, EventRange::NONE)?;
        if !self.ends_so(alloc, whole.as_bytes(), STEPS) {
            return Ok(SearchOutcome::NotFound);
        }
        self.leave_out(alloc, &mut subset)?;
        let script = subset.script(alloc, EventRange::NONE)?;
        let sought = self.judge(alloc, script);
        Ok(sought)
    }

    /// This script, if its run ends so.
    fn judge(&self, alloc: Global, script: String) -> SearchOutcome
        ensures { let heads = N.heads self.now.natives.now in
            IsSearchOutcome
            (λ script. Shows self.now.limits heads (N.gives self.now.natives.now)
            self.now.program.now script 1000000)
            (IsCertified self.now.limits self.now.program.now)
            (IsSettling self.now.limits self.now.program.now)
            result }
    {
        if self.ends_so(alloc, script.as_bytes(), STEPS) {
            SearchOutcome::Found(script)
        } else {
            SearchOutcome::NotFound
        }
    }

    /// Leaves out what isn't needed, in smaller and smaller parts, each time from the last one on, until the trials are used up.
    fn leave_out(&self, alloc: Global, subset: &mut EventSubset) -> Result<(), AllocError> {
        let mut trials = (TRIED_BYTES / self.program.len().max(1)).min(MOST_TRIALS);
        for size in PARTS {
            let count = subset.len().checked_div(size).unwrap_or(0);
            for place in (0..=count).rev() {
                let start = place.saturating_mul(size);
                let end = start.saturating_add(size);
                let range = EventRange { start, end };
                if trials == 0 {
                    return Ok(());
                }
                if subset.has_some(range) {
                    trials = trials.saturating_sub(1);
                    let script = subset.script(alloc, range)?;
                    if self.ends_so(alloc, script.as_bytes(), TRIAL_STEPS) {
                        subset.leave_out(range);
                    }
                }
            }
        }
        Ok(())
    }
}
