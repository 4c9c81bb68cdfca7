//! What agents reach by auto: by DPOP if its tables fit, and by ADOPT otherwise.

ghost use Rattle.std.specs.Prelude.{◌≤◌, length, IfOk};
ghost use Rattle.dcop_base.specs.Limits.{amount_limit, budget_limit};
ghost use Rattle.minimised_problem.specs.Goal.{problem_solved};
ghost use Rattle.solve_methods.specs.Auto.{GivesSettled};
ghost use Rattle.solve_agents.specs.Phases.{IsPhaseByAuto};
ghost use Rattle.solve_agents.specs.Wiring.{nodes_in, IsWiringFor, IsHonestWiring, HasUntrustedWire, MayFail};

use crate::choosing::choose_on;
use crate::crew::Crew;
use crate::nodes::{Wiring, find_over};
use crate::reaching::reach_on;
use dcop_base::Problem;
use dcop_edge::Gate;
use minimised_problem::ProblemSolved;
use problem_text::ProblemFile;
use pseudotree::widths;
use solve_methods::{Asked, Settled};
use std::alloc::{AllocGlobal, Global};
use std::net::Net;
use std::random::RandomSource;
use std::sync::Wait;
use std::thread::Threads;
use std::time::Clock;
use tcp_links::NodeFault;
use wire_pump::Dialer;

/// What the agents reach by auto on the problem that is solved for a file: they first search for
/// its depth-first tree, and then continue by DPOP if nothing is too wide in it, and by ADOPT
/// otherwise.
///
/// # Errors
///
/// With any number of nodes [`NodeFault::NoMemory`] if memory runs out; with one node there is no
/// other fault. With more, [`NodeFault::Failed`] if the dialer gave no wires or a wire failed,
/// which its count of faults shows; and [`NodeFault::Differs`] if what a node received differs from
/// what another one sent, which happens only if the dialer is not honest and there is a new wire.
pub fn settle_for<R, D, G>(
    crew: &Crew<R, G>,
    alloc: Global,
    dialer: &mut D,
    file: &ProblemFile,
    asked: Asked,
) -> Result<Settled, NodeFault>
where
    R: Threads + Wait + Clock + RandomSource + Net + AllocGlobal + Sync,
    D: Dialer,
    G: Gate,
    requires error { asked.error ≤ amount_limit }
    requires budget { asked.budget ≤ budget_limit }
    ensures settled { IfOk result (GivesSettled (problem_solved file.now) asked.error asked.budget asked.certified) }
    ensures links { MayFail (problem_solved file.now) (IsPhaseByAuto (problem_solved file.now) asked.error asked.budget) crew.now.nodes (HasUntrustedWire D.W.told (D.is_honest dialer.old)) (D.faults dialer.old) (D.faults dialer.new) result }
{
    let solved = ProblemSolved::of(alloc, file)?;
    let problem = solved.problem();
    let mut wiring = Wiring::between(crew, alloc, dialer, problem)?;
    settle(crew, alloc, dialer, &mut wiring, problem, asked)
}

/// What the agents of a problem reach. They first search for its depth-first tree; they continue by
/// DPOP if nothing is too wide in it.
fn settle<R, D, G>(
    crew: &Crew<R, G>,
    alloc: Global,
    dialer: &mut D,
    wiring: &mut Wiring<D::W>,
    problem: &Problem,
    asked: Asked,
) -> Result<Settled, NodeFault>
where
    R: Threads + Wait + Clock + RandomSource + Net + AllocGlobal + Sync,
    D: Dialer,
    G: Gate,
    requires error { asked.error ≤ amount_limit }
    requires budget { asked.budget ≤ budget_limit }
    requires wiring { IsWiringFor (length problem.now.sizes) wiring.old }
    ensures settled { IfOk result (GivesSettled problem.now asked.error asked.budget asked.certified) }
    ensures links { MayFail problem.now (IsPhaseByAuto problem.now asked.error asked.budget) (nodes_in wiring.old) (¬ IsHonestWiring D.W.told D.W.is_joined wiring.old) (D.faults dialer.old) (D.faults dialer.new) result }
{
    let found = find_over(crew, alloc, dialer, wiring, problem)?;
    match widths(&found.tree, problem) {
        None => {
            let certified = asked.certified;
            let chosen = choose_on(crew, alloc, dialer, wiring, problem, found, certified)?;
            Ok(Settled::ByDpop(chosen))
        }
        Some(_) => {
            let reached = reach_on(crew, alloc, dialer, wiring, problem, found, asked)?;
            Ok(Settled::ByAdopt(reached))
        }
    }
}
