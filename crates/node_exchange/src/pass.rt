//! Passing what was drained from node to node.

ghost use Rattle.std.specs.Prelude.{◌≡◌, ◌<◌, ◌+◌, ◌-◌, ℕ, [], ◌∷◌, length, OnOk, IfErr};
ghost use Rattle.std.specs.List.{All};
ghost use Rattle.worker_laws.specs.Cells.{EachAre};
ghost use Rattle.node_exchange.specs.Passings.{SamePassing, HasReceived, AreAcross, LeadApart, HaveCome, NothingCame, AllCame, letters_of, frames_of};
ghost use Rattle.node_exchange.specs.Letters.{IsLetter};
ghost use Rattle.node_exchange.specs.Busy.{IsBusyPart};
ghost use Rattle.node_exchange.specs.Honest.{AreHonest, HaveReceivedAll};
ghost use Rattle.node_exchange.specs.Turned.{load, row_loads, loads, AreTurned, HaveCarried, lost_by};
ghost use Rattle.node_exchange.specs.Faults.{HasPassCause, AreTwo, IsByteFault, IsNoDifference, IsNoFailure};

use crate::busy::{busy_part, write_part};
use crate::carry::carry;
use crate::fault::PassFault;
use crate::intake::receive;
use crate::passing::LinkPassing;
use std::alloc::{AllocGlobal, Global};
use std::net::Net;
use std::random::RandomSource;
use std::sync::Wait;
use std::thread::Threads;
use std::time::Clock;
use wire_pump::Dialer;

/// For each link, sends what was drained of it over the wires between its two nodes, and adds to it
/// what arrived for it. The wires are in the order of the pairs of nodes: (0, 1), (0, 2) and so on.
/// It may wait.
///
/// # Errors
///
/// - [`PassFault::Failed`] if the dialer failed, or a wire did and was charged to it: the dialer's
///   count of faults rises.
/// - [`PassFault::Bytes`] only if the bytes that a node received are not whole frames of letters on
///   the links from the other node; it has the first byte that differs from what was sent. It never
///   comes if the wires of each pair are joined, each has received all that the other has sent, and
///   nothing has arrived on the links. Nor does it come if nothing has arrived on the links and,
///   after the call, each wire tells that it has received all that the other one has sent.
/// - [`PassFault::NoMemory`] if memory runs out.
///
/// In any case the wires that were used are at the end of the list, in their order, and the clause
/// `loads` says what they have carried: the frames of what was drained, pair by pair, and after a
/// fault only those of the first pairs. After [`PassFault::Failed`] or [`PassFault::NoMemory`] the
/// pair that was the next in turn may be gone. After a fault letters may have been added.
pub fn pass_all<R, D>(
    rt: &R,
    alloc: Global,
    dialer: &mut D,
    wires: &mut Vec<(D::W, D::W)>,
    passings: &mut [LinkPassing],
    nodes: u32,
) -> Result<(), PassFault>
where
    R: Threads + Wait + Clock + RandomSource + Net + AllocGlobal + Sync,
    D: Dialer,
    requires across { AreAcross nodes passings.old }
    requires wires { 1 < nodes → 0 < length wires.old.items }
    ensures same { EachAre SamePassing passings.old passings.new }
    ensures wires { AreTurned D.W.told D.W.is_joined (lost_by result)
        wires.old.items wires.new.items }
    ensures loads { HaveCarried D.W.told D.W.is_joined (loads nodes passings.old)
        wires.old.items wires.new.items result }
    ensures cause { HasPassCause (D.faults dialer.old) (D.faults dialer.new) result }
    ensures dialer { D.is_honest dialer.old → D.is_honest dialer.new }
    ensures differs { IfErr result (IsByteFault nodes passings.old) }
    ensures honest { AreHonest D.W.told D.W.is_joined wires.old.items → NothingCame passings.old
        → OnOk result (AreHonest D.W.told D.W.is_joined wires.new.items × AllCame passings.new) × IfErr result IsNoDifference }
    ensures carried { HaveReceivedAll D.W.told wires.new.items → NothingCame passings.old
        → OnOk result (AllCame passings.new) × IfErr result IsNoDifference }
{
    let busy = busy_part(passings);
    for first in 0..nodes {
        pass_from(rt, alloc, dialer, wires, passings, busy, nodes, first)?;
    }
    Ok(())
}

/// [`pass_all`], for the pairs of `first` and each later node. Outside the range `busy` nothing was
/// drained.
fn pass_from<R, D>(
    rt: &R,
    alloc: Global,
    dialer: &mut D,
    wires: &mut Vec<(D::W, D::W)>,
    passings: &mut [LinkPassing],
    busy: (usize, usize),
    nodes: u32,
    first: u32,
) -> Result<(), PassFault>
where
    R: Threads + Wait + Clock + RandomSource + Net + AllocGlobal + Sync,
    D: Dialer,
    requires inside { first < nodes }
    requires busy { IsBusyPart passings.old busy.0 busy.1 }
    requires across { AreAcross nodes passings.old }
    requires wires { 1 < nodes → 0 < length wires.old.items }
    ensures same { EachAre SamePassing passings.old passings.new }
    ensures wires { AreTurned D.W.told D.W.is_joined (lost_by result)
        wires.old.items wires.new.items }
    ensures loads { HaveCarried D.W.told D.W.is_joined (row_loads first (nodes - 1 - first) passings.old)
        wires.old.items wires.new.items result }
    ensures cause { HasPassCause (D.faults dialer.old) (D.faults dialer.new) result }
    ensures dialer { D.is_honest dialer.old → D.is_honest dialer.new }
    ensures differs { IfErr result (IsByteFault nodes passings.old) }
    ensures honest { AreHonest D.W.told D.W.is_joined wires.old.items → HaveCome first (first + 1) passings.old
        → OnOk result (AreHonest D.W.told D.W.is_joined wires.new.items × HaveCome (first + 1) (first + 2) passings.new) × IfErr result IsNoDifference }
    ensures carried { HaveReceivedAll D.W.told wires.new.items → HaveCome first (first + 1) passings.old
        → OnOk result (HaveCome (first + 1) (first + 2) passings.new) × IfErr result IsNoDifference }
{
    for second in first + 1..nodes {
        pass_pair(rt, alloc, dialer, wires, passings, busy, first, second)?;
    }
    Ok(())
}

/// [`pass_all`], for one pair of nodes. Its wires are the first of the list, and go to its end as
/// soon as they were used; if the dialer, a wire or memory fails before, they may be gone.
fn pass_pair<R, D>(
    rt: &R,
    alloc: Global,
    dialer: &mut D,
    wires: &mut Vec<(D::W, D::W)>,
    passings: &mut [LinkPassing],
    busy: (usize, usize),
    first: u32,
    second: u32,
) -> Result<(), PassFault>
where
    R: Threads + Wait + Clock + RandomSource + Net + AllocGlobal + Sync,
    D: Dialer,
    requires order { first < second }
    requires busy { IsBusyPart passings.old busy.0 busy.1 }
    requires across { (nodes : ℕ) × AreAcross nodes passings.old }
    requires wires { 0 < length wires.old.items }
    ensures same { EachAre SamePassing passings.old passings.new }
    ensures wires { AreTurned D.W.told D.W.is_joined (lost_by result)
        wires.old.items wires.new.items }
    ensures loads { HaveCarried D.W.told D.W.is_joined (load first second passings.old ∷ [])
        wires.old.items wires.new.items result }
    ensures cause { HasPassCause (D.faults dialer.old) (D.faults dialer.new) result }
    ensures dialer { D.is_honest dialer.old → D.is_honest dialer.new }
    ensures differs { (nodes : ℕ) → AreTwo nodes first second → IfErr result (IsByteFault nodes passings.old) }
    ensures honest { AreHonest D.W.told D.W.is_joined wires.old.items → HaveCome first second passings.old
        → OnOk result (AreHonest D.W.told D.W.is_joined wires.new.items × HaveCome first (second + 1) passings.new) × IfErr result IsNoDifference }
    ensures carried { HaveReceivedAll D.W.told wires.new.items → HaveCome first second passings.old
        → OnOk result (HaveCome first (second + 1) passings.new) × IfErr result IsNoDifference }
{
    let there = write_part(alloc, passings, busy, first, second)?;
    let back = write_part(alloc, passings, busy, second, first)?;
    let ends = wires.remove(0);
    let came = carry(rt, alloc, dialer, ends, there, back)?;
    wires.push((came.first, came.second))?;
    take_in(alloc, passings, first, second, came.at_second.as_slice())?;
    take_in(alloc, passings, second, first, came.at_first.as_slice())?;
    Ok(())
}

/// Adds what came from one node to another to the links. No two links have the same sender and
/// receiver.
fn take_in(
    alloc: Global,
    passings: &mut [LinkPassing],
    from_node: u32,
    to_node: u32,
    came: &[u8],
) -> Result<(), PassFault>
    requires apart { LeadApart passings.old }
    ensures same { EachAre SamePassing passings.old passings.new }
    ensures fault { IfErr result IsNoFailure }
    ensures differs { (nodes : ℕ) → AreTwo nodes from_node to_node → IfErr result (IsByteFault nodes passings.old) }
    ensures honest { came.now ≡ frames_of from_node to_node passings.old → All IsLetter (letters_of from_node to_node passings.old)
        → OnOk result (EachAre (HasReceived from_node to_node (letters_of from_node to_node passings.old)) passings.old passings.new) × IfErr result IsNoDifference }
{
    match receive(alloc, passings, from_node, to_node, came)? {
        None => Ok(()),
        Some(other) => Err(PassFault::Bytes {
            from_node,
            to_node,
            place: other.place as u64,
            sent: other.sent,
            taken: other.taken,
        }),
    }
}
