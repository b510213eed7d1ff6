use basic_types::ObjectId;

/// What a connection joins: a signal of its sender to a method of its receiver.
#[derive(Clone, Copy)]
pub struct Endpoints {
    /// The object whose signal is connected.
    pub sender: ObjectId,
    /// The signal's number in the sender's class.
    pub signal: usize,
    /// The object whose method is called.
    pub receiver: ObjectId,
    /// The method's number in the receiver's class.
    pub method: usize,
}
