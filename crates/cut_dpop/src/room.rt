//! Whether a cut may be run.

ghost use Rattle.std.specs.Prelude.{◌≡◌, ◌*◌, if◌then◌else◌, IfOk, IfErr};
ghost use Rattle.pseudotree.specs.Place.{sizes_of};
ghost use Rattle.pseudotree.specs.Pseudotree.{IsPseudotreeOf};
ghost use Rattle.pseudotree.specs.Width.{told};
ghost use Rattle.run_laws.specs.Slice.{AreCut};
ghost use Rattle.cut_dpop.specs.Refusal.{AreAllowed, IsCutRefusal};

use crate::fault::CutFault;
use dcop_base::{MAX_SENT_CELLS, MAX_TURNS, Problem, VarList, product_of};
use problem_cut::sent_in_turn;
use pseudotree::Tree;
use std::alloc::Global;

/// How many turns a cut has, if it may be run. `sizes` are the sizes of its variables, and `keep`
/// says whether the tables of all turns are kept.
pub(crate) fn turns_of(
    alloc: Global,
    tree: &Tree,
    problem: &Problem,
    cut: &VarList,
    sizes: &[u16],
    keep: bool,
) -> Result<u64, CutFault>
    requires tree { IsPseudotreeOf problem.now tree.now }
    requires cut { AreCut problem.now cut.now }
    requires sizes { sizes.now ≡ sizes_of problem.now cut.now }
    ensures allowed { IfOk result (AreAllowed problem.now tree.now.paths cut.now keep) }
    ensures refused { IfErr result (IsCutRefusal problem.now tree.now.paths cut.now keep) }
{
    let turns = product_of(sizes) as u64;
    if turns > MAX_TURNS {
        return Err(CutFault::TooMany { turns });
    }
    let one = sent_in_turn(alloc, tree, problem, cut.as_slice())?;
    let cells = cells_sent(one, turns, keep);
    if cells > MAX_SENT_CELLS {
        return Err(CutFault::Total { cells });
    }
    Ok(turns)
}

/// How many cells are sent in one turn, or in all turns if tables are kept.
fn cells_sent(one: u64, turns: u64, keep: bool) -> u64
    ensures { result ≡ told ((if keep then turns else 1) * one) }
{
    if keep { turns.saturating_mul(one) } else { one }
}
