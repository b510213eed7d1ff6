/// How a call was answered.
#[derive(Clone, Copy)]
pub enum TrialAnswer {
    /// It did what it is for, and what it answered is reported.
    Ample,
    /// A command ended with this exit status, and what it wrote is reported.
    Ended(u8),
    /// There was no memory.
    Memory,
    /// There was no memory, and what was lent to the call is as before or isn't. Made again it did what it is for.
    Again { is_as_before: bool },
    /// A machine stopped as memory ran out, and its trace is reported. It answers the next event as one that has
    /// stopped, and leaves its trace, or it doesn't.
    Stopped { stays: bool },
    /// The call was made, and there was no memory to tell what it answered.
    Untold,
    /// Another answer.
    Other,
}

impl TrialAnswer {
    /// What a call comes to that had no memory, where it was made again with this answer.
    pub fn again(self, is_as_before: bool) -> TrialAnswer {
        match self {
            TrialAnswer::Ample => TrialAnswer::Again { is_as_before },
            _ => TrialAnswer::Other,
        }
    }
}

/// Makes a call again if there was no memory, once it was looked whether all that is lent to it is as before.
#[macro_export]
macro_rules! once_or_twice {
    ($call:expr, $is_as_before:expr) => {
        match $call {
            TrialAnswer::Memory => {
                let is_as_before = $is_as_before;
                $call.again(is_as_before)
            }
            answer => answer,
        }
    };
}
