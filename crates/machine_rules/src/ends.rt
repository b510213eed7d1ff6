//! What connections join.

ghost use Rattle.std.specs.Prelude.{◌≡◌};
ghost use Rattle.machine_rules.specs.Connecting.{named_signal, kept_ends};

use machine_state::Endpoints;
use meta_model::{DESTROYED, DESTROYED_ALONE};

/// The ends of a connection, with the classes of the sender and of the receiver.
#[derive(Clone, Copy)]
pub struct FoundEnds {
    /// The number of the sender's class.
    pub from: usize,
    /// The number of the receiver's class.
    pub to: usize,
    /// The objects and their methods.
    pub ends: Endpoints,
}

/// The signal that a spelling names: `destroyed()` is `destroyed(QObject*)`.
pub fn named_signal(signal: usize) -> usize
    ensures { result ≡ named_signal signal }
{
    if signal == DESTROYED_ALONE {
        DESTROYED
    } else {
        signal
    }
}

/// The ends that a connection keeps, of those that are spelled.
pub fn kept_ends(ends: &Endpoints) -> Endpoints
    ensures { result ≡ kept_ends ends.now }
{
    Endpoints {
        signal: named_signal(ends.signal),
        ..*ends
    }
}
