//! The agents of a problem in nodes, each with the ends of its links.

ghost use Rattle.std.specs.Prelude.{◌≡◌, length, IfOk};
ghost use Rattle.delivery_core.specs.Agents.{IsStartFor};
ghost use Rattle.tcp_links.specs.Plans.{IsNewPlan};
ghost use Rattle.node_seats.specs.Seats.{AreSeatsOver, IsSameFrame};

use crate::links::link_over;
use agent_links::{Seat, known_in, seat_all};
use dcop_base::{NoMemory, Problem, problem_is_whole};
use delivery_core::Start;
use std::alloc::Global;
use tcp_links::NodePlan;
use wire_pump::Wire;

/// The agents of a start in the nodes of a plan, linked to their neighbours. The plan has no links
/// yet.
///
/// # Errors
///
/// [`NoMemory`] if memory runs out. The plan may then have some of the links.
pub fn seats_over<W: Wire>(
    alloc: Global,
    problem: &Problem,
    start: &Start,
    plan: &mut NodePlan<W>,
) -> Result<Vec<Seat>, NoMemory>
    requires start { IsStartFor problem.now start.now }
    requires plan { IsNewPlan (length problem.now.sizes) plan.old.nodes plan.old }
    ensures seats { IfOk result (λ seats. AreSeatsOver problem.now start.now plan.new seats.items) }
    ensures frame { IsSameFrame plan.old plan.new }
{
    problem_is_whole(problem);
    let known = known_in(alloc, problem)?;
    let links = link_over(alloc, known.as_slice(), plan)?;
    seat_all(alloc, problem, start, links)
}
