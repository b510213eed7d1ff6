//! Signatures that a script has again and again are kept once.

ghost use Rattle.std.specs.Prelude.{◌≡◌, IfOk};

use crate::event::Event;
use basic_types::{Name, Shared, Sig};
use std::alloc::AllocError;
use syntax_trees::Endpoints;

/// The signatures of the last connection that a script makes. Most scripts name the same ones many times.
#[derive(Drop)]
pub struct KnownSignatures {
    signal: Option<Shared<Sig>>,
    method: Option<Shared<Sig>>,
}

impl KnownSignatures {
    /// None yet.
    pub fn new() -> KnownSignatures {
        KnownSignatures {
            signal: None,
            method: None,
        }
    }

    /// The event, where it makes a connection with the known signatures that are the same as its own, which are known from
    /// now on. The error is that there are more copies than can be counted.
    #[inline(always)]
    pub fn share_in(&mut self, event: Event) -> Result<Event, AllocError>
        ensures { IfOk result (λ same. same ≡ event) }
    {
        match event {
            Event::Connect(mut ends, how) => {
                self.share(&mut ends)?;
                Ok(Event::Connect(ends, how))
            }
            other => Ok(other),
        }
    }

    /// Lets the ends share the known signatures that are the same as theirs.
    fn share(&mut self, ends: &mut Endpoints<Name>) -> Result<(), AllocError>
        ensures { ends.new ≡ ends.old }
    {
        share_one(&mut self.signal, &mut ends.signal)?;
        share_one(&mut self.method, &mut ends.method)
    }
}

/// Shares the known signature where it is the same as this one, else knows this one.
fn share_one(known: &mut Option<Shared<Sig>>, sig: &mut Shared<Sig>) -> Result<(), AllocError>
    ensures { sig.new ≡ sig.old }
{
    match known {
        Some(kept) if kept.get().is_same(sig.get()) => *sig = kept.copy()?,
        _ => *known = Some(sig.copy()?),
    }
    Ok(())
}
