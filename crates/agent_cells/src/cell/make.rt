//! A new cell.

ghost use Rattle.std.specs.Prelude.{◌≡◌, false, [], IfOk, None};
ghost use Rattle.std.specs.List.{All};
ghost use Rattle.std.specs.List.Sorted.{IsStrictlyIncreasing};
ghost use Rattle.protocol_steps.specs.View.{private_of, started_of};
ghost use Rattle.worker_laws.specs.Cells.{peers};
ghost use Rattle.agent_cells.specs.Links.{lanes_sent, lanes_taken};
ghost use Rattle.agent_cells.specs.State.{state_of, begun_in, fault_in, tails_in, heads_in, visits_in, IsCell};

use super::{Cell, HeadList, TailList};
use crate::visits::VisitCount;
use dcop_base::{NoMemory, VarId};
use protocol_steps::{Journal, Machine};
use std::alloc::Global;

impl Cell {
    /// Makes the cell of agent `me`, which has not started, over links on which nothing was sent.
    /// Tails and heads name exactly its neighbours, each once, in ascending order. It allocates no
    /// memory.
    pub fn new(
        alloc: Global,
        machine: Box<dyn Machine + Send>,
        me: VarId,
        tails: TailList,
        heads: HeadList,
    ) -> Result<Cell, NoMemory>
        requires fresh { started_of (meaning machine) ≡ false }
        requires me { (private_of (meaning machine)).me ≡ me }
        requires tails { peers (lanes_sent tails.items) ≡ (private_of (meaning machine)).neighbours }
        requires heads { peers (lanes_taken heads.items) ≡ (private_of (meaning machine)).neighbours }
        requires ascend { IsStrictlyIncreasing (private_of (meaning machine)).neighbours }
        requires unsent { All (λ l. l.messages ≡ []) (lanes_sent tails.items) }
        requires untaken { All (λ l. l.messages ≡ []) (lanes_taken heads.items) }
        ensures cell { IfOk result (λ c. IsCell (λ b. meaning b) c) }
        ensures begun { IfOk result (λ c. begun_in c ≡ false) }
        ensures fault { IfOk result (λ c. fault_in c ≡ None) }
        ensures me { IfOk result (λ c. (state_of (λ b. meaning b) c).me ≡ me) }
        ensures view { IfOk result (λ c. (state_of (λ b. meaning b) c).view ≡ meaning machine) }
        ensures visits { IfOk result (λ c. visits_in c ≡ 0) }
        ensures tails { IfOk result (λ c. tails_in c ≡ tails.items) }
        ensures heads { IfOk result (λ c. heads_in c ≡ heads.items) }
    {
        Ok(Cell {
            machine,
            me,
            tails,
            heads,
            stamp: 0,
            journal: Journal::from_vec(Vec::new(alloc)),
            begun: false,
            fault: None,
            alloc,
            visits: VisitCount::new(),
        })
    }
}
