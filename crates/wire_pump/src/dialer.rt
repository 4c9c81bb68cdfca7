//! Where pairs of wires come from.

ghost use Rattle.std.specs.Prelude.{◌≡◌, ◌≤◌, ◌<◌, ◌↔◌, ℕ, IfOk};
ghost use Rattle.dcop_edge.specs.Faults.{Rose};
ghost use Rattle.wire_pump.specs.Dialer.{HasDialCause, IsNew, TellsNothing};

use crate::wire::Wire;
use dcop_base::NoMemory;
use futures::Future;
use std::alloc::{AllocFailed, AllocGlobal, Global};
use std::net::Net;
use std::random::RandomSource;
use std::sync::Wait;
use std::thread::Threads;
use std::time::Clock;

/// Why a dialer refuses a call.
#[derive(Clone, Copy, Debug, PartialEq, Eq)]
pub enum DialFault {
    /// The dialer failed: its count of faults rose in this call, or was at its limit.
    Failed,
    /// Memory ran out.
    NoMemory,
}

impl From<NoMemory> for DialFault {
    ghost use Rattle.wire_pump.specs.declared.dialer.DialFault.TheVariants.{NoMemory as no_memory};

    ghost from_gives = { λ _ e. e ≡ no_memory };

    fn from(_refused: NoMemory) -> Self {
        DialFault::NoMemory
    }
}

impl<T: Drop> From<AllocFailed<T>> for DialFault {
    ghost use Rattle.wire_pump.specs.declared.dialer.DialFault.TheVariants.{NoMemory as no_memory};

    ghost from_gives = { λ _ e. e ≡ no_memory };

    fn from(_refused: AllocFailed<T>) -> Self {
        DialFault::NoMemory
    }
}

/// Makes pairs of wires, and drives a future over them until it is ready.
///
/// A dialer is honest if it promises that the two wires of each pair that it gives are joined. No
/// call changes whether it is.
pub trait Dialer {
    /// The wires that it makes.
    type W: Wire;

    /// The number of its calls that failed, and of charges for wires that had failed.
    ghost faults: { Self → ℕ };

    /// The two wires of each pair that it gives are joined.
    ghost is_honest: { Self → Type 0 };

    /// The two ends of a new stream. Their counts are 0, and those that tell their bytes have sent
    /// and received nothing. It may wait.
    ///
    /// # Errors
    ///
    /// - [`DialFault::Failed`] if the dialer failed: its count of faults rises.
    /// - [`DialFault::NoMemory`] if memory runs out.
    fn pair<R>(&mut self, rt: &R, alloc: Global) -> Result<(Self::W, Self::W), DialFault>
    where
        R: Threads + Wait + Clock + RandomSource + Net + AllocGlobal + Sync,
        ensures cause { HasDialCause (faults self.old) (faults self.new) result }
        ensures new { IfOk result (λ r. IsNew (Self.W.told r.0) × IsNew (Self.W.told r.1)) }
        ensures joined { is_honest self.old → IfOk result (λ r. Self.W.is_joined r.0 r.1) }
        ensures told { is_honest self.old → IfOk result
            (λ r. TellsNothing (Self.W.told r.0) × TellsNothing (Self.W.told r.1)) }
        ensures honest { is_honest self.old ↔ is_honest self.new };

    /// Polls `future` until it is ready, and answers its output. The future can be polled when this
    /// is called. It may wait.
    ///
    /// # Errors
    ///
    /// - [`DialFault::Failed`] if the dialer failed: its count of faults rises. The future is gone.
    /// - [`DialFault::NoMemory`] if memory runs out. The future is gone.
    fn drive<R, F>(&mut self, rt: &R, alloc: Global, future: F) -> Result<F::Output, DialFault>
    where
        R: Threads + Wait + Clock + RandomSource + Net + AllocGlobal + Sync,
        F: Future,
        requires { F.can_poll future }
        ensures cause { HasDialCause (faults self.old) (faults self.new) result }
        ensures gives { IfOk result (F.gives future) }
        ensures honest { is_honest self.old ↔ is_honest self.new };

    /// Raises the dialer's count of faults exactly when this wire has counted a fault. (A count
    /// that is at its limit stays there.)
    fn charge(&mut self, wire: &Self::W)
        ensures none { (Self.W.told wire.now).faults ≡ 0 → faults self.new ≡ faults self.old }
        ensures some { 0 < (Self.W.told wire.now).faults
            → (faults self.old ≤ faults self.new) × Rose (faults self.old) (faults self.new) }
        ensures honest { is_honest self.old ↔ is_honest self.new };
}
