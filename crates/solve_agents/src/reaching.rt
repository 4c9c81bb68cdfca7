//! What ADOPT agents reach.

ghost use Rattle.std.specs.Prelude.{◌≡◌, ◌≤◌, length, IfOk};
ghost use Rattle.dcop_base.specs.Limits.{amount_limit, budget_limit};
ghost use Rattle.minimised_problem.specs.Goal.{problem_solved};
ghost use Rattle.minimised_problem.specs.Found.{IsFound};
ghost use Rattle.solve_methods.specs.Reached.{HaveReached};
ghost use Rattle.solve_agents.specs.Phases.{IsAdoptPhase, IsPhaseByAdopt};
ghost use Rattle.solve_agents.specs.Wiring.{nodes_in, IsWiringFor, IsHonestWiring, HasUntrustedWire, MayFail};

use crate::crew::Crew;
use crate::nodes::{Wiring, find_over, run_over};
use dcop_base::Problem;
use dcop_edge::Gate;
use delivery_core::Start;
use minimised_problem::{Found, ProblemSolved};
use problem_text::ProblemFile;
use solve_methods::{Asked, Reached, reached_by};
use std::alloc::{AllocGlobal, Global};
use std::net::Net;
use std::random::RandomSource;
use std::sync::Wait;
use std::thread::Threads;
use std::time::Clock;
use tcp_links::NodeFault;
use wire_pump::Dialer;

/// What the agents reach by ADOPT on the problem that is solved for a file, on its depth-first
/// tree. They first search for that tree. If a certificate is requested, the result includes the
/// log of their run.
///
/// # Errors
///
/// With any number of nodes [`NodeFault::NoMemory`] if memory runs out; with one node there is no
/// other fault. With more, [`NodeFault::Failed`] if the dialer gave no wires or a wire failed,
/// which its count of faults shows; and [`NodeFault::Differs`] if what a node received differs from
/// what another one sent, which happens only if the dialer is not honest and there is a new wire.
pub fn reach_for<R, D, G>(
    crew: &Crew<R, G>,
    alloc: Global,
    dialer: &mut D,
    file: &ProblemFile,
    asked: Asked,
) -> Result<Reached, NodeFault>
where
    R: Threads + Wait + Clock + RandomSource + Net + AllocGlobal + Sync,
    D: Dialer,
    G: Gate,
    requires error { asked.error ≤ amount_limit }
    requires budget { asked.budget ≤ budget_limit }
    ensures reached { IfOk result (HaveReached (problem_solved file.now) asked.error asked.budget asked.certified) }
    ensures links { MayFail (problem_solved file.now) (IsPhaseByAdopt (problem_solved file.now) asked.error asked.budget) crew.now.nodes (HasUntrustedWire D.W.told (D.is_honest dialer.old)) (D.faults dialer.old) (D.faults dialer.new) result }
{
    let solved = ProblemSolved::of(alloc, file)?;
    let problem = solved.problem();
    let mut wiring = Wiring::between(crew, alloc, dialer, problem)?;
    reach(crew, alloc, dialer, &mut wiring, problem, asked)
}

/// What the agents of a problem reach on its depth-first tree.
fn reach<R, D, G>(
    crew: &Crew<R, G>,
    alloc: Global,
    dialer: &mut D,
    wiring: &mut Wiring<D::W>,
    problem: &Problem,
    asked: Asked,
) -> Result<Reached, NodeFault>
where
    R: Threads + Wait + Clock + RandomSource + Net + AllocGlobal + Sync,
    D: Dialer,
    G: Gate,
    requires error { asked.error ≤ amount_limit }
    requires budget { asked.budget ≤ budget_limit }
    requires wiring { IsWiringFor (length problem.now.sizes) wiring.old }
    ensures reached { IfOk result (HaveReached problem.now asked.error asked.budget asked.certified) }
    ensures links { MayFail problem.now (IsPhaseByAdopt problem.now asked.error asked.budget) (nodes_in wiring.old) (¬ IsHonestWiring D.W.told D.W.is_joined wiring.old) (D.faults dialer.old) (D.faults dialer.new) result }
{
    let found = find_over(crew, alloc, dialer, wiring, problem)?;
    reach_on(crew, alloc, dialer, wiring, problem, found, asked)
}

/// What the agents of a problem reach on the tree that was found.
pub(crate) fn reach_on<R, D, G>(
    crew: &Crew<R, G>,
    alloc: Global,
    dialer: &mut D,
    wiring: &mut Wiring<D::W>,
    problem: &Problem,
    found: Found,
    asked: Asked,
) -> Result<Reached, NodeFault>
where
    R: Threads + Wait + Clock + RandomSource + Net + AllocGlobal + Sync,
    D: Dialer,
    G: Gate,
    requires found { IsFound problem.now found }
    requires error { asked.error ≤ amount_limit }
    requires budget { asked.budget ≤ budget_limit }
    requires wiring { IsWiringFor (length problem.now.sizes) wiring.old }
    ensures reached { IfOk result (HaveReached problem.now asked.error asked.budget asked.certified) }
    ensures links { MayFail problem.now (IsAdoptPhase problem.now asked.error asked.budget) (nodes_in wiring.old) (¬ IsHonestWiring D.W.told D.W.is_joined wiring.old) (D.faults dialer.old) (D.faults dialer.new) result }
{
    let start = Start::Adopt(found.tree, asked.error);
    let ran = run_over(
        crew,
        alloc,
        dialer,
        wiring,
        problem,
        &start,
        asked.budget,
        asked.certified,
    )?;
    Ok(reached_by(problem, asked, ran))
}
