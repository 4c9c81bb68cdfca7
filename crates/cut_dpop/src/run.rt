//! A cut, from the choice of its variables to its answer.

ghost use Rattle.std.specs.Prelude.{◌<◌, ◌≤◌, IfOk, IfErr};
ghost use Rattle.std.specs.List.{All};
ghost use Rattle.dcop_base.specs.Limits.{joined_limit};
ghost use Rattle.delivery_core.specs.Agents.{IsTreeFor};
ghost use Rattle.cut_dpop.specs.End.{IsCutEnd, IsCutRefused};

use crate::crew::Crew;
use crate::fault::CutFault;
use crate::room::turns_of;
use crate::tree::copy_of;
use crate::turn::play_turns;
use certificate_text::CutList;
use dcop_base::{Problem, ValList, VarList, problem_is_whole, sizes_of};
use dcop_edge::Gate;
use delivery_core::Start;
use problem_cut::cut_set;
use pseudotree::Tree;
use run_laws::{cut_sets_are_one, cut_sets_make_narrow};
use std::alloc::Global;
use std::thread::Threads;

/// The result of a cut.
#[derive(Debug, Drop)]
pub struct CutEnd {
    /// The optimum of the problem, which is the cost of the values.
    pub cost: u64,
    /// The values of the first turn of least cost.
    pub values: ValList,
    /// The variables that are cut, in order of cutting.
    pub cut: VarList,
    /// How many turns were run.
    pub turns: u64,
    /// How many messages were taken in all turns.
    pub deliveries: u64,
    /// The tables of all turns in order if they are kept, and none otherwise.
    pub tables: CutList,
}

/// Cuts variables so that no joined table has more than `limit` cells, and lets DPOP agents solve
/// the slice of each turn on the tree. At most `workers` workers share them, where that pays; no
/// clause speaks of agents or workers. The first turn of least cost gives the values. `keep` says
/// whether the tables of all turns are kept.
///
/// # Errors
///
/// [`CutFault::TooMany`] if the cut has more than [`MAX_TURNS`](dcop_base::MAX_TURNS) turns;
/// otherwise [`CutFault::Total`] if the tables that are sent in one turn, or in all turns if tables
/// are kept, have more than [`MAX_SENT_CELLS`](dcop_base::MAX_SENT_CELLS) cells;
/// [`CutFault::NoMemory`] if memory runs out.
pub fn run_cut<R: Threads + Sync, G: Gate>(
    rt: &R,
    alloc: Global,
    problem: &Problem,
    tree: &Tree,
    limit: u64,
    workers: u32,
    keep: bool,
    gate: &G,
) -> Result<CutEnd, CutFault>
    requires tree { IsTreeFor problem.now tree.now }
    requires limit { All (λ s. s ≤ limit) problem.now.sizes }
    requires most { limit ≤ joined_limit }
    requires workers { 0 < workers }
    ensures end { IfOk result (IsCutEnd problem.now tree.now.paths limit keep) }
    ensures refused { IfErr result (IsCutRefused problem.now tree.now.paths limit keep) }
{
    cut_sets_are_one();
    cut_sets_make_narrow();
    problem_is_whole(problem);
    let cut = cut_set(alloc, tree, problem, limit)?;
    let sizes = sizes_of(alloc, problem.sizes.as_slice(), cut.as_slice())?;
    let turns = turns_of(alloc, tree, problem, &cut, sizes.as_slice(), keep)?;
    let start = Start::Dpop(copy_of(alloc, tree, problem)?);
    let crew = Crew { rt, gate, workers };
    let all = play_turns(
        &crew,
        alloc,
        problem,
        &start,
        &cut,
        sizes.as_slice(),
        turns,
        keep,
    )?;
    Ok(CutEnd {
        cost: all.best.cost,
        values: all.best.values,
        cut,
        turns,
        deliveries: turns * all.best.deliveries,
        tables: all.tables,
    })
}
