//! Keeping the tables of turns.

ghost use Rattle.std.specs.Prelude.{◌≡◌, IfOk, OnOk};
ghost use Rattle.dcop_base.specs.Problem.{Dcop};
ghost use Rattle.pseudotree.specs.Pseudotree.{IsPseudotreeOf};
ghost use Rattle.minimised_problem.specs.Utils.{AreUtilsOf, HaveMade};
ghost use Rattle.cut_dpop.specs.Start.{paths_in, IsDpopStart};
ghost use Rattle.cut_dpop.specs.Kept.{KeepsTurn};

use certificate_text::Turn;
use dcop_base::{NoMemory, Table, ValList};
use delivery_core::Start;
use minimised_problem::utils_of;
use protocol_steps::OptionList;
use pseudotree::Tree;
use std::alloc::Global;

/// Keeps the tables of a turn with these values after those of earlier turns, if `keep` is true.
/// The agents that made them began with this start.
pub(crate) fn keep_turn(
    alloc: Global,
    start: &Start,
    keep: bool,
    kept: &mut Vec<Turn>,
    values: ValList,
    tables: &OptionList<Table>,
) -> Result<(), NoMemory>
    requires { (left : Dcop) × IsDpopStart left start.now }
    ensures { (left : Dcop) → IsDpopStart left start.now → HaveMade left (paths_in start.now) tables.now
        → OnOk result (KeepsTurn keep left (paths_in start.now) values kept.old.items kept.new.items) }
{
    if keep {
        kept.push(turn_made(alloc, tree_in(start), values, tables)?)?;
    }
    Ok(())
}

/// The tree on which DPOP agents start.
fn tree_in(start: &Start) -> &Tree
    requires { (left : Dcop) × IsDpopStart left start.now }
    ensures paths { result.now.paths ≡ paths_in start.now }
    ensures tree { (left : Dcop) → IsDpopStart left start.now → IsPseudotreeOf left result.now }
{
    match start {
        Start::Dpop(tree) => tree,
        _ => unreachable!(),
    }
}

/// The tables of a turn with these values, as its agents made them on the tree.
fn turn_made(
    alloc: Global,
    tree: &Tree,
    values: ValList,
    tables: &OptionList<Table>,
) -> Result<Turn, NoMemory>
    ensures values { IfOk result (λ turn. turn.values ≡ values) }
    ensures tables { (left : Dcop) → IsPseudotreeOf left tree.now → HaveMade left tree.now.paths tables.now
        → IfOk result (λ turn. AreUtilsOf left tree.now.paths turn.tables) }
{
    let tables = utils_of(alloc, tree, tables)?;
    Ok(Turn { values, tables })
}
