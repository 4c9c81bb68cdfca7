//! The turns of a cut, one after the other.

ghost use Rattle.std.specs.Prelude.{◌≡◌, ◌<◌, ◌≤◌, length, IfOk, OnOk};
ghost use Rattle.std.specs.List.{All};
ghost use Rattle.dcop_base.specs.Limits.{turn_limit};
ghost use Rattle.cost_table.specs.Slices.{put_in};
ghost use Rattle.pseudotree.specs.Place.{sizes_of};
ghost use Rattle.pseudotree.specs.Width.{IsNarrow};
ghost use Rattle.run_laws.specs.Slice.{AreCut};
ghost use Rattle.run_laws.specs.Turns.{turn_count};
ghost use Rattle.cut_dpop.specs.Start.{paths_in, IsDpopStart, IsNarrowForSlices, HaveFirst};
ghost use Rattle.cut_dpop.specs.Kept.{AreTurnsKept, IsKeptNext};
ghost use Rattle.cut_dpop.specs.Played.{IsTurnPlayed, IsBestOf};

use crate::agents::run_agents;
use crate::crew::Crew;
use crate::keep::keep_turn;
use certificate_text::{CutList, Turn};
use dcop_base::{NoMemory, Problem, Val, ValList, VarId, VarList, cost_of, problem_is_whole};
use dcop_edge::Gate;
use delivery_core::Start;
use problem_cut::{slice_at, turn_at};
use protocol_steps::{Outcome, rounds_are_a_run};
use run_laws::{dpop_runs, slices_are_problems, slices_keep_trees, turns_are_in_order};
use std::alloc::Global;
use std::thread::Threads;

/// The result of a turn.
#[derive(Debug, Drop)]
pub(crate) struct Played {
    /// The cost of the values.
    pub(crate) cost: u64,
    /// The values of the slice, with the turn's own values of the cut variables.
    pub(crate) values: ValList,
    /// How many messages were taken.
    pub(crate) deliveries: u64,
}

/// The result of all turns.
#[derive(Debug, Drop)]
pub(crate) struct AllPlayed {
    /// The result of the first turn of least cost.
    pub(crate) best: Played,
    /// The tables of all turns in order if they are kept, and none otherwise.
    pub(crate) tables: CutList,
}

/// The result of all turns of a cut. `keep` says whether their tables are kept.
pub(crate) fn play_turns<R: Threads + Sync, G: Gate>(
    crew: &Crew<R, G>,
    alloc: Global,
    problem: &Problem,
    start: &Start,
    cut: &VarList,
    sizes: &[u16],
    turns: u64,
    keep: bool,
) -> Result<AllPlayed, NoMemory>
    requires start { IsDpopStart problem.now start.now }
    requires cut { AreCut problem.now cut.now }
    requires narrow { IsNarrowForSlices problem.now (paths_in start.now) cut.now }
    requires sizes { sizes.now ≡ sizes_of problem.now cut.now }
    requires turns { turns ≡ turn_count problem.now cut.now }
    requires few { turns ≤ turn_limit }
    ensures best { IfOk result (λ all. IsBestOf problem.now (paths_in start.now) cut.now turns all.best) }
    ensures kept { IfOk result (λ all. AreTurnsKept keep problem.now (paths_in start.now) cut.now turns all.tables) }
{
    problem_is_whole(problem);
    let mut kept = Vec::new(alloc);
    let mut best = play_turn(crew, alloc, problem, start, cut, sizes, 0, keep, &mut kept)?;
    for number in 1..turns {
        let played = play_turn(
            crew, alloc, problem, start, cut, sizes, number, keep, &mut kept,
        )?;
        if played.cost < best.cost {
            best = played;
        }
    }
    Ok(AllPlayed {
        best,
        tables: CutList::from_vec(kept),
    })
}

/// The result of the turn with this number. Its tables are kept after those of earlier turns if
/// `keep` is true.
fn play_turn<R: Threads + Sync, G: Gate>(
    crew: &Crew<R, G>,
    alloc: Global,
    problem: &Problem,
    start: &Start,
    cut: &VarList,
    sizes: &[u16],
    number: u64,
    keep: bool,
    kept: &mut Vec<Turn>,
) -> Result<Played, NoMemory>
    requires start { IsDpopStart problem.now start.now }
    requires cut { AreCut problem.now cut.now }
    requires narrow { IsNarrowForSlices problem.now (paths_in start.now) cut.now }
    requires sizes { sizes.now ≡ sizes_of problem.now cut.now }
    requires few { turn_count problem.now cut.now ≤ turn_limit }
    requires within { number < turn_count problem.now cut.now }
    ensures played { IfOk result (IsTurnPlayed problem.now (paths_in start.now) cut.now number) }
    ensures kept { OnOk result (IsKeptNext keep problem.now (paths_in start.now) cut.now number kept.old.items kept.new.items) }
{
    slices_are_problems();
    slices_keep_trees();
    turns_are_in_order();
    let turn = turn_at(alloc, sizes, number as usize)?;
    let left = slice_at(alloc, problem, cut, &turn)?;
    let outcome = solve_left(crew, alloc, &left, start)?;
    let cost = cost_of(&left, outcome.values.as_slice());
    let values = with_own(outcome.values, cut.as_slice(), turn.as_slice());
    keep_turn(alloc, start, keep, kept, turn, &outcome.tables)?;
    Ok(Played {
        cost,
        values,
        deliveries: outcome.deliveries,
    })
}

/// The result of DPOP agents on the slice that is left of a problem in a turn.
fn solve_left<R: Threads + Sync, G: Gate>(
    crew: &Crew<R, G>,
    alloc: Global,
    left: &Problem,
    start: &Start,
) -> Result<Outcome, NoMemory>
    requires start { IsDpopStart left.now start.now }
    requires narrow { IsNarrow left.now (paths_in start.now) }
    ensures { IfOk result (HaveFirst left.now (paths_in start.now)) }
{
    dpop_runs();
    rounds_are_a_run();
    problem_is_whole(left);
    run_agents(crew, alloc, left, start)
}

/// The values, with a turn's own values of the cut variables.
fn with_own(values: ValList, cut: &[VarId], turn: &[Val]) -> ValList
    requires long { length cut.now ≡ length turn.now }
    requires within { All (λ v. v < length values) cut.now }
    ensures { result ≡ put_in cut.now turn.now values }
{
    let mut values = values.into_vec();
    put_in(values.as_mut_slice(), cut, turn);
    ValList::from_vec(values)
}

/// Puts a turn's own values of the cut variables among the values.
fn put_in(values: &mut [Val], cut: &[VarId], turn: &[Val])
    requires long { length cut.now ≡ length turn.now }
    requires within { All (λ v. v < length values.old) cut.now }
    ensures { values.new ≡ put_in cut.now turn.now values.old }
{
    let Some((var, vars)) = cut.split_first() else {
        return;
    };
    let Some((own, owns)) = turn.split_first() else {
        return;
    };
    put_in(values, vars, owns);
    values[var.0 as usize] = *own;
}
