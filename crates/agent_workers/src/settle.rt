//! Settling every link inside a node.

ghost use Rattle.std.specs.Prelude.{◌≡◌, ◌≢◌, ◌<◌, ◌≤◌, ℕ, true, false, length, Some, slice_get, slice_index_or};
ghost use Rattle.dcop_base.specs.Limits.{variable_limit};
ghost use Rattle.worker_laws.specs.Cells.{peers};
ghost use Rattle.worker_laws.specs.OneNode.{home as home_of};
ghost use Rattle.agent_cells.specs.State.{state_of, IsCell};
ghost use Rattle.agent_workers.specs.Joined.{EachIs, AreCellsJoined};
ghost use Rattle.agent_workers.specs.Settled.{AreHomes, CanSettle, HasSettled, HasSettledPlace, HasSettledTo, HaveSettled};

use crate::tail_places::TailPlaces;
use crate::waiting::{MESSAGE_WORK, Waiting, work_of};
use agent_cells::Cell;
use dcop_base::MAX_VARIABLES;

/// Settles every link between two agents of the same node, for `nodes` nodes. Returns what may wait
/// for parts of `size` cells.
pub fn settle_all(cells: &mut [Cell], nodes: u32, size: usize) -> Waiting
    requires size { 0 < size }
    requires joined { AreCellsJoined (λ b. meaning (b.vtable, b.value)) nodes cells.old }
    requires sound { EachIs (λ c. IsCell (λ b. meaning (b.vtable, b.value)) c) cells.old }
    ensures settled { HaveSettled (λ b. meaning (b.vtable, b.value)) (home_of nodes (length cells.old)) (length cells.old) cells.old cells.new }
{
    let homes = homes_of(nodes, cells.len());
    let mut tails = TailPlaces::new();
    let mut waiting = Waiting::none();
    for to in 0..cells.len() {
        let work = settle_links_to(cells, to, nodes, &homes, &mut tails);
        waiting.add(to / size, work);
    }
    waiting
}

/// Settles every link to this agent inside its node. Returns how much work may wait for it.
fn settle_links_to(
    cells: &mut [Cell],
    to: usize,
    nodes: u32,
    homes: &[usize],
    tails: &mut TailPlaces,
) -> u64
    requires joined { AreCellsJoined (λ b. meaning (b.vtable, b.value)) nodes cells.old }
    requires sound { EachIs (λ c. IsCell (λ b. meaning (b.vtable, b.value)) c) cells.old }
    requires inside { to < length cells.old }
    requires homes { nodes ≢ 1 → AreHomes nodes (length cells.old) homes.now }
    ensures settled { (count : ℕ) → HasSettledTo (λ b. meaning (b.vtable, b.value)) (home_of nodes (length cells.old)) to count cells.old cells.new }
{
    let mut work = 0u64;
    for place in 0..cells[to].degree() {
        let more = settle_place(cells, to, place, nodes, homes, tails);
        work = work.saturating_add(more);
    }
    work
}

/// Settles the link to an agent from its neighbour at this place, if that neighbour is in the
/// agent's node. Returns how much work may wait on it.
fn settle_place(
    cells: &mut [Cell],
    to: usize,
    place: usize,
    nodes: u32,
    homes: &[usize],
    tails: &mut TailPlaces,
) -> u64
    requires joined { AreCellsJoined (λ b. meaning (b.vtable, b.value)) nodes cells.old }
    requires sound { EachIs (λ c. IsCell (λ b. meaning (b.vtable, b.value)) c) cells.old }
    requires inside { to < length cells.old }
    requires homes { nodes ≢ 1 → AreHomes nodes (length cells.old) homes.now }
    requires place { (c : _) → slice_get cells.old to ≡ Some c → place < length (peers (state_of (λ b. meaning (b.vtable, b.value)) c).taken) }
    ensures settled { HasSettledPlace (λ b. meaning (b.vtable, b.value)) (home_of nodes (length cells.old)) to place cells.old cells.new }
{
    let from = cells[to].neighbour(place).0 as usize;
    let near_tail = tails.pass(from);
    if !share_node(to, from, nodes, homes, cells.len()) {
        return MESSAGE_WORK;
    }
    settle_at(cells, to, from, near_tail, place)
}

/// Whether two agents are in one node, for `nodes` nodes and `agents` agents.
fn share_node(one: usize, other: usize, nodes: u32, homes: &[usize], agents: usize) -> bool
    requires inside { (one < agents) × (other < agents) }
    requires homes { nodes ≢ 1 → AreHomes nodes agents homes.now }
    ensures together { result ≡ true → home_of nodes agents one ≡ home_of nodes agents other }
    ensures apart { result ≡ false → home_of nodes agents one ≢ home_of nodes agents other }
{
    if nodes == 1 {
        return true;
    }
    homes[one] == homes[other]
}

/// The node of each agent, for `nodes` nodes and `agents` agents. One node needs no list, and may
/// get any.
fn homes_of(nodes: u32, agents: usize) -> [usize; MAX_VARIABLES]
    requires few { agents ≤ variable_limit }
    ensures { nodes ≢ 1 → AreHomes nodes agents result }
{
    let mut homes = [0; MAX_VARIABLES];
    if nodes == 1 {
        return homes;
    }
    for agent in 0..agents {
        homes[agent] = home(agent, nodes, agents);
    }
    homes
}

/// The node of an agent, for `nodes` nodes and `agents` agents.
fn home(agent: usize, nodes: u32, agents: usize) -> usize
    requires inside { agent < agents }
    requires few { agents ≤ variable_limit }
    ensures { result ≡ home_of nodes agents agent }
{
    agent * nodes as usize / agents
}

/// Settles the link to one agent from another. Its ends are looked for at these places first.
/// Returns how much work waits in its ring.
fn settle_at(cells: &mut [Cell], to: usize, from: usize, near_tail: usize, near_head: usize) -> u64
    requires inside { (to < length cells.old) × (from < length cells.old) × (to ≢ from) }
    requires can { (d : _) → CanSettle (λ b. meaning (b.vtable, b.value)) (slice_index_or cells.old from d) (slice_index_or cells.old to d) }
    ensures size { length cells.new ≡ length cells.old }
    ensures did { (d : _) → HasSettled (λ b. meaning (b.vtable, b.value)) (slice_index_or cells.old from d) (slice_index_or cells.old to d)
        (slice_index_or cells.new from d) (slice_index_or cells.new to d) }
    ensures rest { (k : ℕ) (d : _) → k ≢ to → k ≢ from → slice_index_or cells.new k d ≡ slice_index_or cells.old k d }
{
    if to < from {
        let (low, high) = cells.split_at_mut(from);
        settle_two(&mut high[0], near_tail, &mut low[to], near_head)
    } else {
        let (low, high) = cells.split_at_mut(to);
        settle_two(&mut low[from], near_tail, &mut high[0], near_head)
    }
}

/// Settles the link from one cell to another. Its ends are looked for at these places first.
/// Returns how much work waits in its ring.
fn settle_two(from: &mut Cell, near_tail: usize, to: &mut Cell, near_head: usize) -> u64
    requires can { CanSettle (λ b. meaning (b.vtable, b.value)) from.old to.old }
    ensures did { HasSettled (λ b. meaning (b.vtable, b.value)) from.old to.old from.new to.new }
{
    let messages = from.settle_to(near_tail, to, near_head);
    work_of(messages, from)
}
