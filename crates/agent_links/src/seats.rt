//! The agents of a problem, each with the ends of its links.

ghost use Rattle.std.specs.Prelude.{◌≡◌, ◌<◌, [], length, map, IfOk};
ghost use Rattle.std.specs.List.{All, range_with_len};
ghost use Rattle.dcop_base.specs.Knowledge.{private_of as known_by, acquaintance_of};
ghost use Rattle.dcop_base.specs.Whole.{IsProblem};
ghost use Rattle.protocol_steps.specs.Placing.{IsPlaceFor};
ghost use Rattle.protocol_steps.specs.TreeAgents.{place_at};
ghost use Rattle.worker_laws.specs.Cells.{peers};
ghost use Rattle.agent_cells.specs.Links.{lanes_sent, lanes_taken};
ghost use Rattle.agent_links.specs.Links.{rows_in};
ghost use Rattle.delivery_core.specs.Agents.{IsTreeFor, IsStartFor};
ghost use Rattle.delivery_core.specs.Starts.{agent_of, knowledge_for};
ghost use Rattle.agent_links.specs.Kinds.{view_of};
ghost use Rattle.agent_links.specs.Seats.{all_neighbours, HaveEnds, IsSeat, AreSeated, AreSeats};

use crate::agent::{Agent, Kind};
use crate::links::{Links, link_all};
use crate::seat::Seat;
use adopt_agent::AdoptAgent;
use agent_cells::{HeadList, TailList};
use agent_knowledge::{acquaintances, add_tables, privates};
use dcop_base::{NoMemory, Private, Problem, VarId, problem_is_whole};
use delivery_core::Start;
use dfs_agent::TokenAgent;
use dpop_agent::DpopAgent;
use protocol_steps::{acquaintance_is_knowledge, places_fit, private_is_knowledge};
use pseudotree::{Place, Tree, place};
use std::alloc::Global;

/// Makes the agents of a start, each with the ends of new links to and from its neighbours. The
/// tree of a start must be a pseudotree of the problem, and linked: each variable except the root
/// is a neighbour of its parent. The requested error must be at most 2^62.
///
/// # Errors
///
/// [`NoMemory`] if memory runs out.
pub fn seats_of(alloc: Global, problem: &Problem, start: &Start) -> Result<Vec<Seat>, NoMemory>
    requires start { IsStartFor problem.now start.now }
    ensures { IfOk result (λ seats. AreSeats problem.now start.now seats.items) }
{
    problem_is_whole(problem);
    let known = acquaintances(alloc, problem)?;
    let links = link_all(alloc, known.as_slice())?;
    seat_known(alloc, problem, start, known, links)
}

/// What each agent knows of a problem, in order.
///
/// # Errors
///
/// [`NoMemory`] if memory runs out.
pub fn known_in(alloc: Global, problem: &Problem) -> Result<Vec<Private>, NoMemory>
    ensures { IfOk result (λ known. known.items ≡ map (known_by problem.now) (range_with_len 0 (length problem.now.sizes))) }
{
    privates(alloc, problem)
}

/// Makes the agents of a start over these links: agent i gets the ends at place i, which must be
/// those to and from its neighbours, with nothing sent on them.
///
/// # Errors
///
/// [`NoMemory`] if memory runs out.
pub fn seat_all(
    alloc: Global,
    problem: &Problem,
    start: &Start,
    links: Links,
) -> Result<Vec<Seat>, NoMemory>
    requires start { IsStartFor problem.now start.now }
    requires ends { HaveEnds (all_neighbours problem.now) (rows_in links.tails.items) (rows_in links.heads.items) }
    ensures { IfOk result (λ seats. AreSeated problem.now start.now (rows_in links.tails.items) (rows_in links.heads.items) seats.items) }
{
    let known = acquaintances(alloc, problem)?;
    seat_known(alloc, problem, start, known, links)
}

/// Makes the agents of a start over these links, from what they know without costs.
fn seat_known(
    alloc: Global,
    problem: &Problem,
    start: &Start,
    known: Vec<Private>,
    links: Links,
) -> Result<Vec<Seat>, NoMemory>
    requires start { IsStartFor problem.now start.now }
    requires known { known.items ≡ map (acquaintance_of problem.now) (range_with_len 0 (length problem.now.sizes)) }
    requires ends { HaveEnds (all_neighbours problem.now) (rows_in links.tails.items) (rows_in links.heads.items) }
    ensures { IfOk result (λ seats. AreSeated problem.now start.now (rows_in links.tails.items) (rows_in links.heads.items) seats.items) }
{
    let known = known_for(alloc, problem, start, known)?;
    seat_each(alloc, problem, start, known, links)
}

/// What each agent of a start knows, in order. Token agents read no cost, so they get no tables.
fn known_for(
    alloc: Global,
    problem: &Problem,
    start: &Start,
    known: Vec<Private>,
) -> Result<Vec<Private>, NoMemory>
    requires { known.items ≡ map (acquaintance_of problem.now) (range_with_len 0 (length problem.now.sizes)) }
    ensures { IfOk result (λ own. own.items ≡ map (knowledge_for problem.now start.now) (range_with_len 0 (length problem.now.sizes))) }
{
    match start {
        Start::Token => Ok(known),
        Start::Dpop(_) | Start::Adopt(..) => with_tables(alloc, problem, known),
    }
}

/// Adds to what each agent knows the cost tables that have its variable in their scope.
fn with_tables(
    alloc: Global,
    problem: &Problem,
    known: Vec<Private>,
) -> Result<Vec<Private>, NoMemory>
    requires { known.items ≡ map (acquaintance_of problem.now) (range_with_len 0 (length problem.now.sizes)) }
    ensures { IfOk result (λ own. own.items ≡ map (known_by problem.now) (range_with_len 0 (length problem.now.sizes))) }
{
    let mut known = known;
    add_tables(alloc, problem, known.as_mut_slice())?;
    Ok(known)
}

/// Makes the agents of a start over these links, from what they know.
fn seat_each(
    alloc: Global,
    problem: &Problem,
    start: &Start,
    known: Vec<Private>,
    links: Links,
) -> Result<Vec<Seat>, NoMemory>
    requires start { IsStartFor problem.now start.now }
    requires known { known.items ≡ map (knowledge_for problem.now start.now) (range_with_len 0 (length problem.now.sizes)) }
    requires ends { HaveEnds (all_neighbours problem.now) (rows_in links.tails.items) (rows_in links.heads.items) }
    ensures { IfOk result (λ seats. AreSeated problem.now start.now (rows_in links.tails.items) (rows_in links.heads.items) seats.items) }
{
    problem_is_whole(problem);
    let Links { tails, heads } = links;
    let mut seats = Vec::with_capacity(alloc, known.len())?;
    for (own, (own_tails, own_heads)) in known.into_iter().zip(tails.into_iter().zip(heads)) {
        seats.push(seat_for(alloc, problem, start, own, own_tails, own_heads)?)?;
    }
    Ok(seats)
}

/// Makes the agent of a variable from what it knows, with the ends of its links.
fn seat_for(
    alloc: Global,
    problem: &Problem,
    start: &Start,
    own: Private,
    tails: TailList,
    heads: HeadList,
) -> Result<Seat, NoMemory>
    requires whole { IsProblem problem.now }
    requires start { IsStartFor problem.now start.now }
    requires inside { own.me < length problem.now.sizes }
    requires known { own ≡ knowledge_for problem.now start.now own.me }
    requires tail_peers { peers (lanes_sent tails.items) ≡ own.neighbours }
    requires head_peers { peers (lanes_taken heads.items) ≡ own.neighbours }
    requires unsent { All (λ l. l.messages ≡ []) (lanes_sent tails.items) }
    requires untaken { All (λ l. l.messages ≡ []) (lanes_taken heads.items) }
    ensures { IfOk result (IsSeat (agent_of problem.now start.now own.me) own.me tails.items heads.items) }
{
    private_is_knowledge();
    acquaintance_is_knowledge();
    let me = own.me;
    let agent = make_agent(alloc, problem, start, own)?;
    Ok(Seat {
        agent,
        me,
        tails,
        heads,
    })
}

/// Makes the agent of a variable from what it knows.
fn make_agent(
    alloc: Global,
    problem: &Problem,
    start: &Start,
    own: Private,
) -> Result<Agent, NoMemory>
    requires whole { IsProblem problem.now }
    requires start { IsStartFor problem.now start.now }
    requires inside { own.me < length problem.now.sizes }
    requires known { own ≡ knowledge_for problem.now start.now own.me }
    ensures { IfOk result (λ agent. view_of agent ≡ agent_of problem.now start.now own.me) }
{
    private_is_knowledge();
    acquaintance_is_knowledge();
    match start {
        Start::Token => Ok(Agent {
            kind: Kind::Token(TokenAgent::new(alloc, own)?),
        }),
        Start::Dpop(tree) => {
            let place = place_in(alloc, problem, tree, own.me)?;
            Ok(Agent {
                kind: Kind::Dpop(DpopAgent::new(alloc, own, place)?),
            })
        }
        Start::Adopt(tree, error) => {
            let place = place_in(alloc, problem, tree, own.me)?;
            Ok(Agent {
                kind: Kind::Adopt(AdoptAgent::new(alloc, own, place, *error)?),
            })
        }
    }
}

/// The place of a variable in a tree on which the agents run.
fn place_in(alloc: Global, problem: &Problem, tree: &Tree, me: VarId) -> Result<Place, NoMemory>
    requires whole { IsProblem problem.now }
    requires tree { IsTreeFor problem.now tree.now }
    requires inside { me < length problem.now.sizes }
    ensures placed { IfOk result (λ place. place ≡ place_at problem.now tree.now.paths me) }
    ensures fits { IfOk result (IsPlaceFor (known_by problem.now me)) }
{
    places_fit();
    place(alloc, tree, problem, me)
}
