//! Which agents are run, and their start.

ghost use Rattle.std.specs.Prelude.{◌≡◌, ℕ, ◌+◌, ◌<◌, ◌≤◌, List, length, map, IfOk, OnOk, Some, slice_get};
ghost use Rattle.std.specs.List.{range_with_len};
ghost use Rattle.dcop_base.specs.Limits.{variable_limit};
ghost use Rattle.dcop_base.specs.Problem.{Dcop};
ghost use Rattle.dcop_base.specs.Whole.{IsProblem};
ghost use Rattle.dcop_base.specs.Knowledge.{private_of};
ghost use Rattle.protocol_steps.specs.Placing.{IsPlaceFor};
ghost use Rattle.protocol_steps.specs.Machine.{MayStart};
ghost use Rattle.protocol_steps.specs.Step.{start_of};
ghost use Rattle.protocol_steps.specs.View.{View};
ghost use Rattle.protocol_steps.specs.TreeAgents.{place_at};
ghost use Rattle.delivery_core.specs.Agents.{IsTreeFor, IsStartFor, agents_of};
ghost use Rattle.delivery_core.specs.State.{SeatView};
ghost use Rattle.delivery_core.specs.Starts.{agent_of, knowledge_for, new_seat, Begun, Starts};
ghost use Rattle.delivery_core.specs.Takes.{KeepCalm};

use crate::agent::Agent;
use crate::deliver::post;
use crate::seat::Seat;
use agent_knowledge::{acquaintances, privates};
use dcop_base::{MAX_VARIABLES, NoMemory, Private, Problem, Sequence, VarId, problem_is_whole};
use letter_queues::{Arrivals, Inbox};
use protocol_steps::{Outbox, Parcel, acquaintance_is_knowledge, places_fit, private_is_knowledge};
use pseudotree::{Place, Tree, place};
use std::alloc::Global;

/// What a run starts with: the kind of its agents, and what they are made from besides the
/// problem.
#[derive(Debug, Drop)]
pub enum Start {
    /// Token agents, which find the depth-first tree of the problem.
    Token,
    /// DPOP agents on this tree.
    Dpop(Tree),
    /// ADOPT agents on this tree, for a requested error.
    Adopt(Tree, u64),
}

/// The place of a variable in a tree on which the agents run.
fn place_in(alloc: Global, problem: &Problem, tree: &Tree, me: VarId) -> Result<Place, NoMemory>
    requires whole { IsProblem problem.now }
    requires tree { IsTreeFor problem.now tree.now }
    requires inside { me < length problem.now.sizes }
    ensures placed { IfOk result (λ place. place ≡ place_at problem.now tree.now.paths me) }
    ensures fits { IfOk result (IsPlaceFor (private_of problem.now me)) }
{
    places_fit();
    place(alloc, tree, problem, me)
}

/// What each agent of a start knows, in order. Token agents read no cost, so they get no tables.
fn known_for(alloc: Global, problem: &Problem, start: &Start) -> Result<Vec<Private>, NoMemory>
    ensures { IfOk result (λ known. known.items ≡ map (knowledge_for problem.now start.now) (range_with_len 0 (length problem.now.sizes))) }
{
    match start {
        Start::Token => acquaintances(alloc, problem),
        Start::Dpop(_) | Start::Adopt(..) => privates(alloc, problem),
    }
}

/// Makes the agent of a variable from what it knows.
fn make_agent(
    alloc: Global,
    problem: &Problem,
    start: &Start,
    own: Private,
) -> Result<Agent, NoMemory>
    requires whole { IsProblem problem.now }
    requires start { IsStartFor problem.now start.now }
    requires inside { own.me < length problem.now.sizes }
    requires known { own ≡ knowledge_for problem.now start.now own.me }
    ensures { IfOk result (λ agent. agent ≡ agent_of problem.now start.now own.me) }
{
    private_is_knowledge();
    acquaintance_is_knowledge();
    match start {
        Start::Token => Agent::token(alloc, own),
        Start::Dpop(tree) => {
            let place = place_in(alloc, problem, tree, own.me)?;
            Agent::dpop(alloc, own, place)
        }
        Start::Adopt(tree, error) => {
            let place = place_in(alloc, problem, tree, own.me)?;
            Agent::adopt(alloc, own, place, *error)
        }
    }
}

/// Makes the agent of a variable from what it knows, with a link for each neighbour.
fn make_seat(
    alloc: Global,
    problem: &Problem,
    start: &Start,
    own: Private,
) -> Result<Seat, NoMemory>
    requires whole { IsProblem problem.now }
    requires start { IsStartFor problem.now start.now }
    requires inside { own.me < length problem.now.sizes }
    requires known { own ≡ knowledge_for problem.now start.now own.me }
    ensures { IfOk result (λ seat. seat ≡ new_seat (agent_of problem.now start.now own.me)) }
{
    let inbox = Inbox::new(alloc, own.neighbours.as_slice())?;
    let agent = make_agent(alloc, problem, start, own)?;
    Ok(Seat::new(agent, inbox))
}

/// Makes the agents of a start, in order.
pub(crate) fn make(alloc: Global, problem: &Problem, start: &Start) -> Result<Vec<Seat>, NoMemory>
    requires { IsStartFor problem.now start.now }
    ensures made { IfOk result (λ seats. seats.items ≡ map new_seat (agents_of problem.now start.now)) }
    ensures few { IfOk result (λ seats. length seats.items ≤ variable_limit) }
{
    problem_is_whole(problem);
    let known = known_for(alloc, problem, start)?;
    let mut seats = Vec::with_capacity(alloc, known.len())?;
    for own in known {
        seats.push(make_seat(alloc, problem, start, own)?)?;
    }
    Ok(seats)
}

/// What each agent of a start sends when it starts: item i of the result is what agent i sends, in
/// order. The tree of a start must be a pseudotree of the problem, and linked: each variable except
/// the root is a neighbour of its parent. The requested error must be at most 2^62.
///
/// # Errors
///
/// [`NoMemory`] if memory runs out.
pub fn first_parcels(
    alloc: Global,
    problem: &Problem,
    start: &Start,
) -> Result<Vec<Outbox>, NoMemory>
    requires { IsStartFor problem.now start.now }
    ensures { IfOk result (λ parcels. parcels.items
        ≡ map (λ v. (start_of v).sends) (agents_of problem.now start.now)) }
{
    let seats = make(alloc, problem, start)?;
    first_of_all(alloc, seats)
}

/// What an agent sends when it starts.
fn first_of(alloc: Global, mut seat: Seat) -> Result<Outbox, NoMemory>
    requires { MayStart seat.view }
    ensures { IfOk result (λ sent. sent ≡ (start_of seat.view).sends) }
{
    let mut parcels = Vec::new(alloc);
    seat.begin(alloc, &mut parcels)?;
    Ok(Sequence::from_vec(parcels))
}

/// What each of these agents sends when it starts, in order.
fn first_of_all(alloc: Global, seats: Vec<Seat>) -> Result<Vec<Outbox>, NoMemory>
    requires { (i : ℕ) (x : SeatView) → slice_get seats.items i ≡ Some x → MayStart x.view }
    ensures { IfOk result (λ sent. sent.items ≡ map (λ x. (start_of x.view).sends) seats.items) }
{
    let mut sent = Vec::with_capacity(alloc, seats.len())?;
    for seat in seats {
        sent.push(first_of(alloc, seat)?)?;
    }
    Ok(sent)
}

/// Starts agent `me`, after all agents below it have started. `parcels` is a buffer for what it
/// sends.
fn start_one(
    alloc: Global,
    seats: &mut [Seat],
    arrivals: &mut Arrivals,
    parcels: &mut Vec<Parcel>,
    me: usize,
) -> Result<(), NoMemory>
    requires begun { (p : Dcop) × (made : List View) × Begun p made me seats.old }
    requires inside { me < length seats.old }
    requires few { length seats.old ≤ variable_limit }
    ensures started { OnOk result (Starts me seats.old (me + 1) seats.new) }
    ensures calm { KeepCalm arrivals.old seats.old arrivals.new seats.new }
{
    arrivals.rouse(me);
    seats[me].begin(alloc, parcels)?;
    post(seats, arrivals, VarId(me as u32), parcels)
}

/// Starts all agents, in ascending order. `parcels` is a buffer for what each of them sends.
pub(crate) fn start_all(
    alloc: Global,
    seats: &mut [Seat],
    arrivals: &mut Arrivals,
    parcels: &mut Vec<Parcel>,
) -> Result<(), NoMemory>
    requires begun { (p : Dcop) × (made : List View) × Begun p made 0 seats.old }
    requires few { length seats.old ≤ variable_limit }
    ensures started { OnOk result (Starts 0 seats.old (length seats.old) seats.new) }
    ensures calm { KeepCalm arrivals.old seats.old arrivals.new seats.new }
{
    for me in 0..seats.len() {
        start_one(alloc, seats, arrivals, parcels, me)?;
    }
    Ok(())
}
