//! Carrying bytes over the wires between two nodes.

ghost use Rattle.std.specs.Prelude.{◌≡◌, ◌≤◌, IfOk};
ghost use Rattle.dcop_edge.specs.Faults.{Rose};
ghost use Rattle.wire_pump.specs.Dialer.{HasDialCause};
ghost use Rattle.wire_pump.specs.Pump.{HaveAll};
ghost use Rattle.node_exchange.specs.Carried.{IsCarried, HaveAnyFault};
ghost use Rattle.node_exchange.specs.Turned.{HasCarried};

use dcop_base::Bytes;
use std::alloc::{AllocGlobal, Global};
use std::net::Net;
use std::random::RandomSource;
use std::sync::Wait;
use std::thread::Threads;
use std::time::Clock;
use wire_pump::{DialFault, Dialer, PumpFail, Pumped, pump_by};

/// Sends one list of bytes in each direction over the two wires between two nodes. If both lists
/// are empty, the wires are not used. A wire that failed is charged to the dialer. After a fault
/// both wires are gone.
pub(crate) fn carry<R, D>(
    rt: &R,
    alloc: Global,
    dialer: &mut D,
    ends: (D::W, D::W),
    there: Bytes,
    back: Bytes,
) -> Result<Pumped<D::W>, DialFault>
where
    R: Threads + Wait + Clock + RandomSource + Net + AllocGlobal + Sync,
    D: Dialer,
    ensures cause { HasDialCause (D.faults dialer.old) (D.faults dialer.new) result }
    ensures dialer { D.is_honest dialer.old → D.is_honest dialer.new }
    ensures later { IfOk result (λ p. HasCarried D.W.told D.W.is_joined (there, back)
        ends (p.first, p.second)) }
    ensures honest { D.W.is_joined ends.0 ends.1 → HaveAll (D.W.told ends.0) (D.W.told ends.1)
        → IfOk result (IsCarried D.W.told D.W.is_joined there back) }
    ensures carried { IfOk result (λ p. HaveAll (D.W.told p.first) (D.W.told p.second)
        → (p.at_second ≡ there) × (p.at_first ≡ back)) }
{
    let (first, second) = ends;
    if there.as_slice().is_empty() && back.as_slice().is_empty() {
        return Ok(Pumped {
            first,
            second,
            at_second: there,
            at_first: back,
        });
    }
    match pump_by(rt, alloc, dialer, first, second, there, back)? {
        Ok(pumped) => Ok(pumped),
        Err(failed) => {
            charge_both(dialer, failed);
            Err(DialFault::Failed)
        }
    }
}

/// Charges to the dialer the two wires of a pump that failed.
fn charge_both<D: Dialer>(dialer: &mut D, failed: PumpFail<D::W>)
    requires { HaveAnyFault D.W.told failed }
    ensures rose { (D.faults dialer.old ≤ D.faults dialer.new) × Rose (D.faults dialer.old) (D.faults dialer.new) }
    ensures dialer { D.is_honest dialer.old → D.is_honest dialer.new }
{
    dialer.charge(&failed.first);
    dialer.charge(&failed.second);
}
