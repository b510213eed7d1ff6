//! Connections, as bodies and scripts name them.

ghost use Rattle.std.specs.Prelude.{◌↔◌, IsTrue, All};
ghost use Rattle.syntax_trees.specs.Connections.{HasFewTypes, signatures_at};

use basic_types::{Kind, MOST_PARAMETERS, Shared, Sig};

/// The two ends of a connection: a signal of the sender and a method of the receiver. An O names an object: a path in a
/// slot's body, a name in a script. Copies share the signatures.
pub struct Endpoints<O: Drop> {
    /// The object whose signal is connected.
    pub sender: O,
    /// The sender's signal, with at most 8 types.
    pub signal: Shared<Sig>,
    /// The object whose method is called.
    pub receiver: O,
    /// The receiver's slot or signal, with at most 8 types.
    pub method: Shared<Sig>,
}

impl<O: Drop> Drop for Endpoints<O> {
    fn drop(self) {
        let Endpoints {
            sender: _,
            signal: _,
            receiver: _,
            method: _,
        } = self;
    }
}

/// How a connection is to be made (Qt 6, `Qt::ConnectionType`).
#[derive(Clone, Copy, Debug, PartialEq, Eq)]
pub struct ConnectionType {
    /// How the signal reaches the receiver.
    pub kind: Kind,
    /// Whether it is refused where the same signal and method are connected already.
    pub unique: bool,
    /// Whether it is removed when it is first used.
    pub single: bool,
}

impl<O: Drop> Endpoints<O> {
    /// Whether both signatures have at most 8 types.
    pub fn have_few_types(&self) -> bool
        ensures { IsTrue result ↔ All HasFewTypes (signatures_at self.now) }
    {
        has_few_types(&self.signal) && has_few_types(&self.method)
    }
}

/// Whether the signature has at most 8 types.
pub fn has_few_types(sig: &Sig) -> bool
    ensures { IsTrue result ↔ HasFewTypes sig.now }
{
    sig.types.len() <= MOST_PARAMETERS
}
