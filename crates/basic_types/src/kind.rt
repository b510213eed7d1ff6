/// How a connection reaches its receiver (Qt 6, "Signals & Slots"; docs/machine.md, "Connections").
#[derive(Clone, Copy, Debug, PartialEq, Eq)]
pub enum Kind {
    /// `Direct` where the receiver lives in the event loop that runs when the signal is emitted, else `Queued`.
    Auto,
    /// At once, inside the emission.
    Direct,
    /// Later, as an item of the event loop in which the receiver lives.
    Queued,
}
