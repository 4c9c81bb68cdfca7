//! Running a pump to its end, by a dialer.

ghost use Rattle.std.specs.Prelude.{◌↔◌, IfOk};
ghost use Rattle.wire_pump.specs.Dialer.{HasDialCause};
ghost use Rattle.wire_pump.specs.Pump.{EndsPump};

use crate::dialer::{DialFault, Dialer};
use crate::pump::{Pump, PumpFail, Pumped};
use dcop_base::Bytes;
use std::alloc::{AllocGlobal, Global};
use std::net::Net;
use std::random::RandomSource;
use std::sync::Wait;
use std::thread::Threads;
use std::time::Clock;

/// Sends one list of bytes at each of two wires of this dialer, which drives the [`Pump`] until it
/// is done. A wire that failed is not charged to the dialer. It may wait.
///
/// # Errors
///
/// - [`DialFault::Failed`] if the dialer failed: its count of faults rises. The wires are gone.
/// - [`DialFault::NoMemory`] if memory runs out. The wires are gone.
///
/// If a wire failed, the inner result is a [`PumpFail`] with both wires.
pub fn pump_by<R, D>(
    rt: &R,
    alloc: Global,
    dialer: &mut D,
    first: D::W,
    second: D::W,
    to_second: Bytes,
    to_first: Bytes,
) -> Result<Result<Pumped<D::W>, PumpFail<D::W>>, DialFault>
where
    R: Threads + Wait + Clock + RandomSource + Net + AllocGlobal + Sync,
    D: Dialer,
    ensures cause { HasDialCause (D.faults dialer.old) (D.faults dialer.new) result }
    ensures ends { IfOk result (EndsPump D.W.told D.W.is_joined first second to_second to_first) }
    ensures honest { D.is_honest dialer.old ↔ D.is_honest dialer.new }
{
    let pump = Pump::new(alloc, first, second, to_second, to_first)?;
    dialer.drive(rt, alloc, pump)
}
