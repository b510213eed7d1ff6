//! Why nothing is connected or disconnected.

ghost use Rattle.std.specs.Prelude.{◌≡◌};
ghost use Rattle.connections.specs.FaultNumbers.{connect_number, disconnect_number};

use std::alloc::AllocError;
use thiserror::Error;

/// Why no connection is made.
#[derive(Clone, Copy, Debug, Error, PartialEq, Eq)]
pub enum ConnectFault {
    /// A unique one was asked for, and the same signal of the sender is connected to the same method of the receiver.
    #[error("the connection exists")]
    Exists,
    /// A growth of memory was refused.
    #[error("out of memory")]
    Memory,
}

impl From<AllocError> for ConnectFault {
    ghost use Rattle.std.specs.Prelude.{◌≡◌};
    ghost use Rattle.connections.specs.declared.fault.ConnectFault.TheVariants.{Memory};

    ghost from_gives = { λ _ fault. fault ≡ Memory };

    fn from(_: AllocError) -> ConnectFault {
        ConnectFault::Memory
    }
}

impl ConnectFault {
    /// The refusal's number; running out of memory has none.
    pub fn number(self) -> Option<u8>
        ensures { result ≡ connect_number self }
    {
        match self {
            ConnectFault::Exists => Some(40),
            ConnectFault::Memory => None,
        }
    }
}

/// Why nothing is disconnected.
#[derive(Clone, Copy, Debug, Error, PartialEq, Eq)]
pub enum DisconnectFault {
    /// There is no such connection.
    #[error("nothing to disconnect")]
    NoConnection,
}

impl DisconnectFault {
    /// The refusal's number.
    pub fn number(self) -> u8
        ensures { result ≡ disconnect_number self }
    {
        match self {
            DisconnectFault::NoConnection => 41,
        }
    }
}
