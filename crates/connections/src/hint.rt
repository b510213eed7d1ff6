//! Where the connections of a signal were found last.

ghost use Rattle.std.specs.Prelude.{◌≡◌};

/// Where the list of a signal's connections was found last, so that the next call needn't search for it. Any value gives
/// the same answers: one that no longer leads to the list, or leads to that of another signal, costs a search.
#[derive(Clone, Copy)]
pub struct SignalHint {
    pub index: usize,
}

impl SignalHint {
    /// Leads to the first list.
    pub fn new() -> SignalHint
        ensures { result.index ≡ 0 }
    {
        SignalHint { index: 0 }
    }
}
