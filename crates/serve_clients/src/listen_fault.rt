//! Faults of listeners.

ghost use Rattle.std.specs.Prelude.{◌≡◌};
ghost use Rattle.serve_clients.specs.declared.listen_fault.ListenFault.TheVariants.{Failed as failed, NoMemory as no_memory};

use dcop_base::NoMemory;
use dcop_edge::Failed;
use std::alloc::AllocError;

/// Why a listener gives no connection, or why clients are not served.
#[derive(Clone, Copy, Debug, PartialEq, Eq)]
pub enum ListenFault {
    /// The listener failed: its count of faults rose in the call that gives this error.
    Failed,
    /// Memory ran out. No clause says when this happens.
    NoMemory,
}

impl From<Failed> for ListenFault {
    ghost from_gives = { λ _ e. e ≡ failed };

    fn from(_failed: Failed) -> Self {
        ListenFault::Failed
    }
}

impl From<NoMemory> for ListenFault {
    ghost from_gives = { λ _ e. e ≡ no_memory };

    fn from(_refused: NoMemory) -> Self {
        ListenFault::NoMemory
    }
}

impl From<AllocError> for ListenFault {
    ghost from_gives = { λ _ e. e ≡ no_memory };

    fn from(_refused: AllocError) -> Self {
        ListenFault::NoMemory
    }
}
