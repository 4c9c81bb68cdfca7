//! Why an exchange did not deliver what it drained.

ghost use Rattle.std.specs.Prelude.{◌≡◌};

use dcop_base::NoMemory;
use std::alloc::AllocFailed;
use wire_pump::DialFault;

/// Why an exchange did not deliver what it drained.
#[derive(Clone, Copy, Debug, PartialEq, Eq)]
pub enum PassFault {
    /// The dialer failed, or a wire did and was charged to it. The dialer's count of faults rose.
    Failed,
    /// The bytes that a node received are not whole frames of letters from an agent of the other
    /// node to a neighbour in this one. The fields give the first byte that differs from what was
    /// sent.
    Bytes {
        /// The node that sent.
        from_node: u32,
        /// The node that received.
        to_node: u32,
        /// The position in the bytes from the one node to the other in this exchange, from 0.
        place: u64,
        /// The byte that was sent; `None` if the bytes that were sent are over.
        sent: Option<u8>,
        /// The byte that was received; `None` if the bytes that were received are over.
        taken: Option<u8>,
    },
    /// Memory ran out.
    NoMemory,
}

impl From<NoMemory> for PassFault {
    ghost use Rattle.node_exchange.specs.declared.fault.PassFault.TheVariants.{NoMemory as no_memory};

    ghost from_gives = { λ _ e. e ≡ no_memory };

    fn from(_refused: NoMemory) -> Self {
        PassFault::NoMemory
    }
}

impl<T: Drop> From<AllocFailed<T>> for PassFault {
    ghost use Rattle.node_exchange.specs.declared.fault.PassFault.TheVariants.{NoMemory as no_memory};

    ghost from_gives = { λ _ e. e ≡ no_memory };

    fn from(_refused: AllocFailed<T>) -> Self {
        PassFault::NoMemory
    }
}

impl From<DialFault> for PassFault {
    ghost use Rattle.node_exchange.specs.Faults.{dial_fault};

    ghost from_gives = { λ d e. e ≡ dial_fault d };

    fn from(refused: DialFault) -> Self {
        match refused {
            DialFault::Failed => PassFault::Failed,
            DialFault::NoMemory => PassFault::NoMemory,
        }
    }
}
