//! What DPOP agents choose.

ghost use Rattle.std.specs.Prelude.{◌≡◌, length, is_some, IfOk};
ghost use Rattle.pseudotree.specs.Width.{IsNarrow};
ghost use Rattle.minimised_problem.specs.Goal.{problem_solved};
ghost use Rattle.solve_methods.specs.Dpop.{GivesChosen, HaveAgreed};
ghost use Rattle.minimised_problem.specs.Found.{IsFound};
ghost use Rattle.solve_agents.specs.Phases.{IsDpopPhase, IsPhaseByDpop};
ghost use Rattle.solve_agents.specs.Wiring.{nodes_in, IsWiringFor, IsHonestWiring, HasUntrustedWire, MayFail};

use crate::crew::Crew;
use crate::nodes::{Wiring, find_over, run_over};
use dcop_base::Problem;
use dcop_edge::Gate;
use delivery_core::Start;
use minimised_problem::{Found, ProblemSolved};
use problem_text::ProblemFile;
use pseudotree::widths;
use solve_methods::{Choice, Chosen, choice_deliveries, chosen_by, node_rows_if};
use std::alloc::{AllocGlobal, Global};
use std::net::Net;
use std::random::RandomSource;
use std::sync::Wait;
use std::thread::Threads;
use std::time::Clock;
use tcp_links::NodeFault;
use wire_pump::Dialer;

/// What the agents choose by DPOP on the problem that is solved for a file, or what is too wide in
/// its tree. They first search for its depth-first tree. If a certificate is requested, the choice
/// includes their tables.
///
/// # Errors
///
/// With any number of nodes [`NodeFault::NoMemory`] if memory runs out; with one node there is no
/// other fault. With more, [`NodeFault::Failed`] if the dialer gave no wires or a wire failed,
/// which its count of faults shows; and [`NodeFault::Differs`] if what a node received differs from
/// what another one sent, which happens only if the dialer is not honest and there is a new wire.
pub fn choose_for<R, D, G>(
    crew: &Crew<R, G>,
    alloc: Global,
    dialer: &mut D,
    file: &ProblemFile,
    certified: bool,
) -> Result<Choice, NodeFault>
where
    R: Threads + Wait + Clock + RandomSource + Net + AllocGlobal + Sync,
    D: Dialer,
    G: Gate,
    ensures chosen { IfOk result (GivesChosen (problem_solved file.now) certified) }
    ensures links { MayFail (problem_solved file.now) (IsPhaseByDpop (problem_solved file.now)) crew.now.nodes (HasUntrustedWire D.W.told (D.is_honest dialer.old)) (D.faults dialer.old) (D.faults dialer.new) result }
{
    let solved = ProblemSolved::of(alloc, file)?;
    let problem = solved.problem();
    let mut wiring = Wiring::between(crew, alloc, dialer, problem)?;
    choose(crew, alloc, dialer, &mut wiring, problem, certified)
}

/// The choice of the agents of a problem. They first search for its depth-first tree; if it is too
/// wide for their tables, they choose nothing.
fn choose<R, D, G>(
    crew: &Crew<R, G>,
    alloc: Global,
    dialer: &mut D,
    wiring: &mut Wiring<D::W>,
    problem: &Problem,
    certified: bool,
) -> Result<Choice, NodeFault>
where
    R: Threads + Wait + Clock + RandomSource + Net + AllocGlobal + Sync,
    D: Dialer,
    G: Gate,
    requires wiring { IsWiringFor (length problem.now.sizes) wiring.old }
    ensures chosen { IfOk result (GivesChosen problem.now certified) }
    ensures links { MayFail problem.now (IsPhaseByDpop problem.now) (nodes_in wiring.old) (¬ IsHonestWiring D.W.told D.W.is_joined wiring.old) (D.faults dialer.old) (D.faults dialer.new) result }
{
    let found = find_over(crew, alloc, dialer, wiring, problem)?;
    match widths(&found.tree, problem) {
        Some(wide) => Ok(Choice::TooWide(wide)),
        None => Ok(Choice::Values(choose_on(
            crew, alloc, dialer, wiring, problem, found, certified,
        )?)),
    }
}

/// The values that the agents of a problem choose on its depth-first tree. The nodes of the tree
/// are kept for the certificate only if one is requested.
pub(crate) fn choose_on<R, D, G>(
    crew: &Crew<R, G>,
    alloc: Global,
    dialer: &mut D,
    wiring: &mut Wiring<D::W>,
    problem: &Problem,
    found: Found,
    certified: bool,
) -> Result<Chosen, NodeFault>
where
    R: Threads + Wait + Clock + RandomSource + Net + AllocGlobal + Sync,
    D: Dialer,
    G: Gate,
    requires found { IsFound problem.now found }
    requires narrow { IsNarrow problem.now found.tree.paths }
    requires wiring { IsWiringFor (length problem.now.sizes) wiring.old }
    ensures asked { IfOk result (λ chosen. is_some chosen.certificate ≡ certified) }
    ensures agreed { IfOk result (HaveAgreed problem.now) }
    ensures links { MayFail problem.now (IsDpopPhase problem.now) (nodes_in wiring.old) (¬ IsHonestWiring D.W.told D.W.is_joined wiring.old) (D.faults dialer.old) (D.faults dialer.new) result }
{
    let rows = node_rows_if(alloc, certified, &found.tree)?;
    let budget = choice_deliveries(problem);
    let start = Start::Dpop(found.tree);
    let ran = run_over(crew, alloc, dialer, wiring, problem, &start, budget, false)?;
    Ok(chosen_by(alloc, problem, rows, ran.outcome)?)
}
