//! A cell.

ghost use Rattle.std.specs.Prelude.{◌≤◌};
ghost use Rattle.dcop_base.specs.Limits.{amount_limit};

mod begin;
mod handle;
mod make;
mod neighbours;
mod read;
mod settle;
mod visit;

use crate::fault::VisitFault;
use crate::sealed::Sealed;
use crate::visits::VisitCount;
use dcop_base::VarId;
use fifo_links::{LinkHead, LinkTail};
use protocol_steps::{Journal, Machine};
use std::alloc::Global;

/// The ends on which a cell sends, each with the neighbour at the other end, in ascending order.
pub type TailList = Vec<(VarId, LinkTail<Sealed>)>;

/// The ends from which a cell takes, each with the neighbour at the other end, in ascending order.
pub type HeadList = Vec<(VarId, LinkHead<Sealed>)>;

/// An agent with its links, its stamp and its journal.
#[derive(Drop)]
pub struct Cell {
    machine: Box<dyn Machine + Send>,
    me: VarId,
    tails: TailList,
    heads: HeadList,
    stamp: u64,
    journal: Journal,
    begun: bool,
    fault: Option<VisitFault>,
    alloc: Global,
    visits: VisitCount,
    ghost stamped: { stamp ≤ amount_limit },
}
