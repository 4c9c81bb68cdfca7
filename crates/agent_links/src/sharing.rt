//! Whether workers share the agents of a run.

ghost use Rattle.std.specs.Prelude.{◌<◌, length};
ghost use Rattle.pseudotree.specs.Pseudotree.{IsPseudotreeOf};
ghost use Rattle.delivery_core.specs.Agents.{IsStartFor};

use agent_workers::useful_workers;
use dcop_base::{NoMemory, Problem, VarId};
use delivery_core::Start;
use pseudotree::{Tree, joined_cells};
use std::alloc::Global;
use std::thread::Threads;

/// How many cells of joined tables take as long as what threads need for one agent: its cell, and
/// the buffers of its links.
const AGENT_CELLS: u64 = 16_384;

/// How many cells of joined tables take as long as starting the threads of a run.
const THREAD_CELLS: u64 = 1_048_576;

/// Whether workers share the agents of a run, in cells. Otherwise one thread plays them alone,
/// without cells and links. No clause depends on this choice.
///
/// If each worker gets one agent at most, they share, whether or not it pays. Otherwise they share
/// only DPOP agents, and only if threads save more cells of joined tables than they cost. Token
/// agents pass on one token, so threads save nothing. ADOPT agents mainly answer each other: on
/// several threads they may send more messages than the threads save.
///
/// # Errors
///
/// [`NoMemory`] if memory runs out.
pub fn workers_share<R: Threads>(
    rt: &R,
    alloc: Global,
    problem: &Problem,
    start: &Start,
    workers: u32,
) -> Result<bool, NoMemory>
    requires workers { 0 < workers }
    requires start { IsStartFor problem.now start.now }
{
    if workers == 1 {
        return Ok(false);
    }
    let agents = problem.sizes.as_slice().len();
    if agents <= useful_workers(rt, workers) as usize {
        return Ok(true);
    }
    match start {
        Start::Token | Start::Adopt(..) => Ok(false),
        Start::Dpop(tree) => Ok(saved_cells(alloc, problem, tree)? >= cells_of_threads(agents)),
    }
}

/// How many cells of joined tables take as long as what threads need for this many agents.
fn cells_of_threads(agents: usize) -> u64 {
    AGENT_CELLS
        .saturating_mul(agents as u64)
        .saturating_add(THREAD_CELLS)
}

/// How many cells of joined tables threads save at most on a tree: all that they may share, but not
/// those of the greatest table of each depth. Tables of one depth can be joined concurrently.
fn saved_cells(alloc: Global, problem: &Problem, tree: &Tree) -> Result<u64, NoMemory>
    requires { IsPseudotreeOf problem.now tree.now }
{
    let mut greatest = Vec::new(alloc);
    let mut total: u64 = 0;
    for index in 0..problem.sizes.as_slice().len() {
        let var = VarId(index as u32);
        let cells = shared_cells(problem, tree, var);
        total = total.saturating_add(cells);
        put_greatest(&mut greatest, tree.path(var).as_slice().len(), cells)?;
    }
    Ok(total.saturating_sub(sum_of(greatest.as_slice())))
}

/// How many cells of an agent's joined table threads may share: none if it has no children. Such an
/// agent joins its table at its start, and one thread starts all agents.
fn shared_cells(problem: &Problem, tree: &Tree, var: VarId) -> u64
    requires tree { IsPseudotreeOf problem.now tree.now }
    requires within { var < length problem.now.sizes }
{
    if tree.children(var).as_slice().is_empty() {
        return 0;
    }
    joined_cells(tree, problem, var)
}

/// Puts the cells of a table at this depth among the greatest of each depth.
fn put_greatest(greatest: &mut Vec<u64>, depth: usize, cells: u64) -> Result<(), NoMemory> {
    while greatest.len() <= depth {
        greatest.push(0)?;
    }
    greatest[depth] = greatest[depth].max(cells);
    Ok(())
}

/// The sum of these numbers of cells.
fn sum_of(cells: &[u64]) -> u64 {
    let mut sum: u64 = 0;
    for more in cells {
        sum = sum.saturating_add(*more);
    }
    sum
}
