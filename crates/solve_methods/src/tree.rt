//! The answer of the command `tree`.

ghost use Rattle.std.specs.Prelude.{◌≡◌, ◌<◌, length, Some, None, IfOk, if◌then◌else◌};
ghost use Rattle.dcop_base.specs.Problem.{Dcop};
ghost use Rattle.pseudotree.specs.Pseudotree.{IsPseudotreeOf, separator_at};
ghost use Rattle.problem_text.specs.Steps.{declared_by};
ghost use Rattle.solve_report.specs.AnswerText.{HasText};
ghost use Rattle.minimised_problem.specs.Found.{IsFound};
ghost use Rattle.solve_methods.specs.Goal.{TellsRight};
ghost use Rattle.solve_methods.specs.Tree.{row_with, rows_with, rows_of, AnswersTree};

use dcop_base::{NoMemory, VarId, VarList};
use minimised_problem::Found;
use problem_text::ProblemFile;
use pseudotree::Tree;
use solve_report::{Answer, NodeRow, NodeRowList};
use std::alloc::Global;

/// The answer of `tree` on a file, from the depth-first tree of its problem.
///
/// Token agents do not use costs, so the tree is the same for both goals.
///
/// # Errors
///
/// [`NoMemory`] if memory runs out.
pub fn tree_answer(alloc: Global, file: ProblemFile, found: Found) -> Result<Answer, NoMemory>
    requires { IsFound file.problem found }
    ensures belongs { IfOk result (AnswersTree (declared_by file)) }
    ensures right { IfOk result TellsRight }
    ensures told { IfOk result HasText }
{
    let Found { tree, deliveries } = found;
    let nodes = node_rows(alloc, &tree)?;
    Ok(Answer::Tree {
        deliveries,
        nodes,
        names: file.names,
    })
}

/// The nodes of a tree in preorder, each with its parent and its separator, if they are requested.
///
/// # Errors
///
/// [`NoMemory`] if memory runs out.
pub fn node_rows_if(
    alloc: Global,
    wanted: bool,
    tree: &Tree,
) -> Result<Option<NodeRowList>, NoMemory>
    ensures { (p : Dcop) → IsPseudotreeOf p tree.now → IfOk result (λ rows.
        rows ≡ if wanted then Some (rows_of p tree.now.paths) else None) }
{
    if wanted {
        Ok(Some(node_rows(alloc, tree)?))
    } else {
        Ok(None)
    }
}

/// The nodes of a tree in preorder, each with its parent and its separator.
fn node_rows(alloc: Global, tree: &Tree) -> Result<NodeRowList, NoMemory>
    ensures { IfOk result (λ rows. rows ≡ rows_with (separator_at tree.now) tree.now.paths) }
{
    let vars = tree.preorder().as_slice();
    let mut rows = Vec::with_capacity(alloc, vars.len())?;
    for var in vars {
        rows.push(node_row(alloc, tree, *var)?)?;
    }
    Ok(NodeRowList::from_vec(rows))
}

fn node_row(alloc: Global, tree: &Tree, var: VarId) -> Result<NodeRow, NoMemory>
    requires { var < length tree.now.paths }
    ensures { IfOk result (λ row. row ≡ row_with (separator_at tree.now) tree.now.paths var) }
{
    let separator = Vec::from_slice(alloc, tree.separator(var).as_slice())?;
    Ok(NodeRow {
        var,
        parent: tree.parent(var),
        separator: VarList::from_vec(separator),
    })
}
