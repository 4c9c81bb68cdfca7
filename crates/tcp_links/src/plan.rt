//! What is between the nodes of agents: wires, and the inner ends of links.

ghost use Rattle.std.specs.Prelude.{◌≡◌, ◌≢◌, ◌↔◌, ℕ, ◌<◌, ◌≤◌, true, [], length, Some, slice_get, IfOk, OnOk, OnErr};
ghost use Rattle.std.specs.List.{insert};
ghost use Rattle.dcop_base.specs.Limits.{variable_limit, node_limit};
ghost use Rattle.worker_laws.specs.OneNode.{home};
ghost use Rattle.link_records.specs.Differences.{IsLowerLink};
ghost use Rattle.link_records.specs.Left.{fresh_link};
ghost use Rattle.fifo_links.specs.Link.{AreEnds, sent_on, taken_from};
ghost use Rattle.wire_pump.specs.Dialer.{HasDialCause};
ghost use Rattle.tcp_links.specs.Plans.{pair_count, AreOrdered, AreNewWires, IsPlan, IsHonest, HasNoLink, IsNewPlan, IsNewLink, IsSamePlan, BelongsAt};

use agent_cells::Sealed;
use dcop_base::{NoMemory, VarId};
use fifo_links::{LinkHead, LinkTail, link};
use link_records::KeptLink;
use node_exchange::LinkPassing;
use std::alloc::{AllocGlobal, Global};
use std::net::Net;
use std::random::RandomSource;
use std::sync::Wait;
use std::thread::Threads;
use std::time::Clock;
use wire_pump::{DialFault, Dialer, Wire};

/// The inner ends of a link between two nodes. What the sender's cell sends is drained from
/// `drain`. What arrives is fed to `feed`, whose other end the receiver's cell has.
#[derive(Drop)]
pub struct InnerEnds {
    pub(crate) drain: LinkHead<Sealed>,
    pub(crate) feed: LinkTail<Sealed>,
    /// Whether anything waited for the receiver's cell when the link was last fed.
    pub(crate) waits: bool,
}

/// The wires between each two nodes, and the inner ends of the links between agents of different
/// nodes. The links are in order, by sender and then receiver. Agent i of n is in node i · nodes /
/// n, rounded down.
#[derive(Drop)]
pub struct NodePlan<W: Wire> {
    pub(crate) agents: u32,
    pub(crate) nodes: u32,
    pub(crate) wires: Vec<(W, W)>,
    pub(crate) kept: Vec<KeptLink>,
    pub(crate) ends: Vec<InnerEnds>,
    /// What an exchange passes on each link, during a run. Between exchanges they are empty.
    pub(crate) passings: Vec<LinkPassing>,
    /// How many entries each cell's journal had at the end of the last exchange. Empty if there was
    /// no exchange yet, or if a round was broken off since.
    pub(crate) seen: Vec<usize>,
}

impl<W: Wire> NodePlan<W> {
    /// Makes a plan with a new pair of wires for each pair of nodes. They are dialled in the order
    /// (0, 1), (0, 2) and so on, which no clause says. The plan has no links yet. It
    /// takes memory, and may wait.
    ///
    /// # Errors
    ///
    /// - [`DialFault::Failed`] if the dialer failed: its count of faults rises.
    /// - [`DialFault::NoMemory`] if memory runs out.
    pub fn new<R, D>(
        rt: &R,
        alloc: Global,
        dialer: &mut D,
        agents: u32,
        nodes: u32,
    ) -> Result<NodePlan<W>, DialFault>
    where
        R: Threads + Wait + Clock + RandomSource + Net + AllocGlobal + Sync,
        D: Dialer<W = W>,
        requires agents { (0 < agents) × (agents ≤ variable_limit) }
        requires nodes { (0 < nodes) × (nodes ≤ node_limit) }
        ensures new { IfOk result (IsNewPlan agents nodes) }
        ensures wires { IfOk result (λ plan. AreNewWires W.told plan.wires.items) }
        ensures cause { HasDialCause (D.faults dialer.old) (D.faults dialer.new) result }
        ensures dialer { D.is_honest dialer.old → D.is_honest dialer.new }
        ensures honest { D.is_honest dialer.old → IfOk result (IsHonest W.told W.is_joined) }
    {
        let mut wires = Vec::new(alloc);
        for _ in 0..pair_count(nodes) {
            let pair = dialer.pair(rt, alloc)?;
            wires.push(pair)?;
        }
        Ok(NodePlan {
            agents,
            nodes,
            wires,
            kept: Vec::new(alloc),
            ends: Vec::new(alloc),
            passings: Vec::new(alloc),
            seen: Vec::new(alloc),
        })
    }

    /// Whether two agents are in the same node.
    pub fn are_together(&self, one: VarId, other: VarId) -> bool
        requires plan { IsPlan self.now }
        requires inside { (one < self.now.agents) × (other < self.now.agents) }
        ensures { (result ≡ true) ↔ (home self.now.nodes self.now.agents one ≡ home self.now.nodes self.now.agents other) }
    {
        home(one, self.nodes, self.agents) == home(other, self.nodes, self.agents)
    }

    /// The outer ends of a new link from one agent to another in a different node: the tail for the
    /// cell that sends, and the head for the cell that receives. There is no such link yet. The
    /// plan keeps the two inner ends until [`run_nodes`](crate::run_nodes) succeeds. Links may be
    /// made in any order; by sender and then receiver is fastest. It takes memory.
    ///
    /// # Errors
    ///
    /// [`NoMemory`] if memory runs out. The plan stays as it was.
    pub fn link(
        &mut self,
        alloc: Global,
        from: VarId,
        to: VarId,
    ) -> Result<(LinkTail<Sealed>, LinkHead<Sealed>), NoMemory>
        requires plan { IsPlan self.old }
        requires inside { (from < self.old.agents) × (to < self.old.agents) }
        requires apart { home self.old.nodes self.old.agents from ≢ home self.old.nodes self.old.agents to }
        requires none { HasNoLink self.old from to }
        ensures plan { IsPlan self.new }
        ensures made { IfOk result (λ l. IsNewLink self.old from to l.0 l.1 self.new) }
        ensures same { OnErr result (IsSamePlan self.old self.new) }
    {
        let (tail, drain) = new_link(alloc)?;
        let (feed, head) = new_link(alloc)?;
        let place = place_of(self.kept.as_slice(), from, to);
        add_link(
            &mut self.kept,
            &mut self.ends,
            place,
            KeptLink::new(from, to),
            InnerEnds {
                drain,
                feed,
                waits: true,
            },
        )?;
        Ok((tail, head))
    }
}

/// The node of an agent.
pub(crate) fn home(agent: VarId, nodes: u32, agents: u32) -> u32
    requires inside { agent < agents }
    requires few { (agents ≤ variable_limit) × (nodes ≤ node_limit) }
    ensures { result ≡ home nodes agents agent }
{
    agent.0 * nodes / agents
}

/// The number of pairs of nodes.
fn pair_count(nodes: u32) -> u32
    requires { (0 < nodes) × (nodes ≤ node_limit) }
    ensures { result ≡ pair_count nodes }
{
    nodes * (nodes - 1) / 2
}

/// The two ends of a new link.
fn new_link(alloc: Global) -> Result<(LinkTail<Sealed>, LinkHead<Sealed>), NoMemory>
    ensures ends { IfOk result (λ l. AreEnds l.0 l.1) }
    ensures sent { IfOk result (λ l. sent_on l.0 ≡ []) }
    ensures taken { IfOk result (λ l. taken_from l.1 ≡ []) }
{
    let Ok((tail, head)) = link::<Sealed>(alloc) else {
        return Err(NoMemory);
    };
    Ok((tail, head))
}

/// The position of a new link among these, sought from the end.
fn place_of(kept: &[KeptLink], from: VarId, to: VarId) -> usize
    requires ordered { AreOrdered kept.now }
    requires none { (k : ℕ) (w : _) → slice_get kept.now k ≡ Some w → w.sender ≡ from → w.receiver ≢ to }
    ensures { BelongsAt kept.now from to result }
{
    let mut place = kept.len();
    while place > 0 {
        if comes_before(&kept[place - 1], from, to) {
            return place;
        }
        place -= 1;
    }
    place
}

/// Whether a link comes before one with this sender and receiver.
fn comes_before(link: &KeptLink, from: VarId, to: VarId) -> bool
    ensures { (result ≡ true) ↔ IsLowerLink link.now (fresh_link from to) }
{
    let sender = link.from();
    if sender != from {
        return sender < from;
    }
    link.to() < to
}

/// Inserts a link and its inner ends into two lists at the same position. If memory runs out, both
/// stay as they were.
fn add_link(
    kept: &mut Vec<KeptLink>,
    ends: &mut Vec<InnerEnds>,
    place: usize,
    link: KeptLink,
    inner: InnerEnds,
) -> Result<(), NoMemory>
    requires inside { (place ≤ length kept.old.items) × (place ≤ length ends.old.items) }
    ensures added { OnOk result ((kept.new.items ≡ insert kept.old.items place link) × (ends.new.items ≡ insert ends.old.items place inner)) }
    ensures same { OnErr result ((kept.new.items ≡ kept.old.items) × (ends.new.items ≡ ends.old.items)) }
{
    ends.insert(place, inner)?;
    if let Err(refused) = kept.insert(place, link) {
        ends.remove(place);
        return Err(NoMemory::from(refused));
    }
    Ok(())
}
