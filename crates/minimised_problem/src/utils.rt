//! Tables that agents have made, in preorder.

ghost use Rattle.std.specs.Prelude.{◌≡◌, ◌<◌, length, slice_get, IfOk};
ghost use Rattle.dcop_base.specs.Problem.{Dcop};
ghost use Rattle.pseudotree.specs.Pseudotree.{IsPseudotreeOf, separator_at};
ghost use Rattle.minimised_problem.specs.Utils.{AreUtilsOf, HaveMade, cells_on, util_with, utils_with};

use certificate_text::{Util, UtilList};
use dcop_base::{CellList, NoMemory, Table, VarId, VarList};
use protocol_steps::OptionList;
use pseudotree::Tree;
use std::alloc::Global;

/// The tables that the agents of a tree have made, in preorder, each with its variable's parent and
/// separator. `tables` has one entry for each variable, in ascending order.
///
/// # Errors
///
/// [`NoMemory`] if memory runs out.
pub fn utils_of(
    alloc: Global,
    tree: &Tree,
    tables: &OptionList<Table>,
) -> Result<UtilList, NoMemory>
    ensures { (p : Dcop) → IsPseudotreeOf p tree.now → HaveMade p tree.now.paths tables.now
        → IfOk result (AreUtilsOf p tree.now.paths) }
{
    utils_with(alloc, tree, tables)
}

fn utils_with(alloc: Global, tree: &Tree, tables: &OptionList<Table>) -> Result<UtilList, NoMemory>
    ensures { IfOk result (λ utils. utils ≡ utils_with (separator_at tree.now) tree.now.paths tables.now) }
{
    let vars = tree.preorder().as_slice();
    let mut utils = Vec::with_capacity(alloc, vars.len())?;
    for var in vars {
        utils.push(util_of(alloc, tree, tables, *var)?)?;
    }
    Ok(UtilList::from_vec(utils))
}

/// The table that the agent of a variable has made.
fn util_of(
    alloc: Global,
    tree: &Tree,
    tables: &OptionList<Table>,
    var: VarId,
) -> Result<Util, NoMemory>
    requires { var < length tree.now.paths }
    ensures { IfOk result (λ util. util ≡ util_with (separator_at tree.now) tree.now.paths tables.now var) }
{
    let scope = Vec::from_slice(alloc, tree.separator(var).as_slice())?;
    Ok(Util {
        var,
        parent: tree.parent(var),
        scope: VarList::from_vec(scope),
        cells: cells_of(alloc, var, tables)?,
    })
}

/// The cells of the table that the agent of a variable has made; no cells if it has made no table.
/// `tables` has one entry for each variable, in ascending order.
///
/// # Errors
///
/// [`NoMemory`] if memory runs out.
#[tactic(auto, using(crate::proofs::UtilCellLaws::cells_got))]
pub fn cells_of(alloc: Global, var: VarId, tables: &OptionList<Table>) -> Result<CellList, NoMemory>
    ensures { IfOk result (λ cells. cells ≡ cells_on (slice_get tables.now var)) }
{
    match tables.get(var.0 as usize) {
        Some(table) => Ok(table.cells.clone()?),
        None => Ok(CellList::from_vec(Vec::new(alloc))),
    }
}
