//! The tables of the turns of a cut, each on its slice of the problem.

ghost use Rattle.std.specs.Prelude.{◌≡◌, ◌<◌, ◌≤◌, ◌==◌, None, length, slice_index, IfOk};
ghost use Rattle.std.specs.List.{All, count_by};
ghost use Rattle.std.specs.Option.{option_map};
ghost use Rattle.dcop_base.specs.Limits.{variable_limit};
ghost use Rattle.pseudotree.specs.Pseudotree.{IsPseudotreeOf};
ghost use Rattle.certificate_text.specs.Fits.{FitsCut};
ghost use Rattle.certificate_check.specs.Cuts.{in_turn, scopes_in_turn, cells_in_turn, first_in_turns};
ghost use Rattle.certificate_check.specs.Cuts.{least_cell, cut_deliveries};

use crate::cells::cells_difference;
use crate::numbers::dpop_deliveries;
use crate::scopes::scopes_difference;
use crate::told::util_of;
use certificate_text::{Differs, Turn, Util};
use dcop_base::{CAP, MAX_VARIABLES, NoMemory, Problem, VarId, VarList};
use problem_cut::slice_at;
use pseudotree::Tree;
use std::alloc::Global;

/// The first scope that is not the separator, by turn and variable.
pub(crate) fn scopes_in_turns(
    alloc: Global,
    problem: &Problem,
    tree: &Tree,
    cut: &VarList,
    turns: &[Turn],
) -> Result<Option<Differs>, NoMemory>
    requires tree { IsPseudotreeOf problem.now tree.now }
    requires fits { FitsCut problem.now.sizes cut.now turns.now }
    ensures { IfOk result (λ differs. differs
        ≡ first_in_turns (scopes_in_turn problem.now tree.now.paths cut.now turns.now) turns.now) }
{
    for number in 0..turns.len() {
        let differs = scopes_in_turn(alloc, problem, tree, cut, turns, number)?;
        if differs.is_some() {
            return Ok(differs);
        }
    }
    Ok(None)
}

/// The lowest variable whose scope is not its separator, in the turn with this number.
fn scopes_in_turn(
    alloc: Global,
    problem: &Problem,
    tree: &Tree,
    cut: &VarList,
    turns: &[Turn],
    number: usize,
) -> Result<Option<Differs>, NoMemory>
    requires tree { IsPseudotreeOf problem.now tree.now }
    requires fits { FitsCut problem.now.sizes cut.now turns.now }
    requires within { number < length turns.now }
    ensures { IfOk result (λ differs.
        differs ≡ scopes_in_turn problem.now tree.now.paths cut.now turns.now number) }
{
    let turn = &turns[number];
    let slice = slice_at(alloc, problem, cut, &turn.values)?;
    let differs = scopes_difference(&slice, tree, turn.tables.as_slice());
    Ok(in_turn(number, differs))
}

/// The first cell that is too large, by turn, variable, cell and value, if no scope differs.
pub(crate) fn cells_in_turns(
    alloc: Global,
    problem: &Problem,
    tree: &Tree,
    cut: &VarList,
    turns: &[Turn],
) -> Result<Option<Differs>, NoMemory>
    requires tree { IsPseudotreeOf problem.now tree.now }
    requires fits { FitsCut problem.now.sizes cut.now turns.now }
    requires scopes { first_in_turns (scopes_in_turn problem.now tree.now.paths cut.now turns.now) turns.now ≡ None }
    ensures { IfOk result (λ differs. differs
        ≡ first_in_turns (cells_in_turn problem.now tree.now.paths cut.now turns.now) turns.now) }
{
    for number in 0..turns.len() {
        let differs = cells_in_turn(alloc, problem, tree, cut, turns, number)?;
        if differs.is_some() {
            return Ok(differs);
        }
    }
    Ok(None)
}

/// The first cell that is too large, by variable, cell and value, in the turn with this number.
fn cells_in_turn(
    alloc: Global,
    problem: &Problem,
    tree: &Tree,
    cut: &VarList,
    turns: &[Turn],
    number: usize,
) -> Result<Option<Differs>, NoMemory>
    requires tree { IsPseudotreeOf problem.now tree.now }
    requires fits { FitsCut problem.now.sizes cut.now turns.now }
    requires within { number < length turns.now }
    requires scopes { scopes_in_turn problem.now tree.now.paths cut.now turns.now number ≡ None }
    ensures { IfOk result (λ differs.
        differs ≡ cells_in_turn problem.now tree.now.paths cut.now turns.now number) }
{
    let turn = &turns[number];
    let slice = slice_at(alloc, problem, cut, &turn.values)?;
    let differs = cells_difference(alloc, &slice, tree, turn.tables.as_slice())?;
    Ok(in_turn(number, differs))
}

/// A difference of tables, reported for the turn with this number.
fn in_turn(number: usize, differs: Option<Differs>) -> Option<Differs>
    ensures { result ≡ option_map (in_turn number) differs }
{
    match differs {
        Some(differs) => Some(told_of_turn(number as u64, differs)),
        None => None,
    }
}

/// The same, given a difference.
fn told_of_turn(turn: u64, differs: Differs) -> Differs
    ensures { result ≡ in_turn turn differs }
{
    match differs {
        Differs::Scope { var } => Differs::TurnScope { turn, var },
        Differs::Cell {
            var,
            cell,
            value,
            left,
            right,
        } => Differs::TurnCell {
            turn,
            var,
            cell,
            value,
            left,
            right,
        },
        differs => differs,
    }
}

/// The least of the first cells of this variable's tables over all turns, and at most [`CAP`].
pub(crate) fn least_cell(var: VarId, turns: &[Turn]) -> u64
    requires { All (λ t. count_by (λ u. u.var == var) t.tables ≡ 1) turns.now }
    ensures { result ≡ least_cell var turns.now }
{
    let mut least = CAP;
    for turn in turns {
        least = least.min(first_cell(util_of(turn.tables.as_slice(), var)));
    }
    least
}

/// The first cell of a table; 0 if it has none.
fn first_cell(util: &Util) -> u64
    ensures { result ≡ slice_index util.now.cells 0 }
{
    match util.cells.as_slice().first() {
        Some(cell) => *cell,
        None => 0,
    }
}

/// How many messages DPOP takes in `turns` turns with `agents` agents, or [`u64::MAX`] if that is
/// less.
pub(crate) fn cut_deliveries(turns: usize, agents: usize) -> u64
    requires { agents ≤ variable_limit }
    ensures { result ≡ cut_deliveries turns agents }
{
    (turns as u64).saturating_mul(dpop_deliveries(agents))
}
