//! Recomputing tables.

ghost use Rattle.std.specs.Prelude.{◌≡◌, ℕ, ◌+◌, ◌<◌, ◌≤◌, [], ◌∷◌, IfOk, OnOk, length, map};
ghost use Rattle.std.specs.List.{range_with_len};
ghost use Rattle.dcop_base.specs.Knowledge.{private_of};
ghost use Rattle.pseudotree.specs.Preorder.{preorder_of};
ghost use Rattle.pseudotree.specs.Width.{joined_cells};
ghost use Rattle.dpop_agent.specs.Remade.{IsRemade};
ghost use Rattle.edit_session.specs.Held.{agent_with, AreHeldFrom, AreAllHeld};
ghost use Rattle.edit_session.specs.MadeLaws.{AreChildrenHeld};
ghost use Rattle.edit_session.specs.Loops.{IsEditGround, StayHeld, AreOthersHeld, cells_among};

use crate::law::{children_may_be_joined, one_more_is_held};
use crate::mark::count_of;
use agent_knowledge::privates;
use dcop_base::{NoMemory, Private, Problem, VarId, private, problem_is_whole};
use dpop_agent::{KeptList, Made, Steps, remake};
use pseudotree::{Tree, place};
use std::alloc::Global;
use std::sync::ledger::Ledger;

/// Up to this many touched agents, the knowledge of each agent is made for it alone, which goes
/// through the problem's scopes each time. The knowledge of all agents is made in one pass, but
/// that copies all tables.
const FEW: u64 = 64;

/// The knowledge of all agents, in the order of the variables, if more than a few are touched, and
/// nothing otherwise.
fn known_to_many(
    alloc: Global,
    problem: &Problem,
    touched: &[bool],
) -> Result<Vec<Private>, NoMemory>
    ensures { IfOk result (λ known. known.items ≡ map (private_of problem.now) (range_with_len 0 (length known.items))) }
{
    if count_of(touched) <= FEW {
        return Ok(Vec::new(alloc));
    }
    privates(alloc, problem)
}

/// The tables of one agent, from its knowledge and its children's tables. The steps rise by the
/// cells of its joined table.
fn made_at<L: Ledger>(
    alloc: Global,
    problem: &Problem,
    tree: &Tree,
    var: VarId,
    own: &Private,
    kept: &KeptList,
    steps: &mut Steps<L>,
) -> Result<Made, NoMemory>
    requires ground { IsEditGround problem.now tree.now kept.now.items }
    requires inside { var < length problem.now.sizes }
    requires known { own.now ≡ private_of problem.now var }
    requires children { AreChildrenHeld problem.now tree.now.paths kept.now.items var }
    ensures made { IfOk result (IsRemade (agent_with problem.now tree.now.paths kept.now.items var)) }
    ensures counted { OnOk result (steps.new
        ≡ steps.old + joined_cells problem.now tree.now.paths var) }
    ensures rises { steps.old ≤ steps.new }
    ensures within { steps.new ≤ steps.old + joined_cells problem.now tree.now.paths var }
{
    children_may_be_joined();
    problem_is_whole(problem);
    let seat = place(alloc, tree, problem, var)?;
    let made = remake(alloc, own, &seat, kept, steps)?;
    Ok(made)
}

/// The tables of one agent, from its children's tables. Its knowledge is made for it alone if it is
/// not given. The steps rise by the cells of its joined table.
fn made_from<L: Ledger>(
    alloc: Global,
    problem: &Problem,
    tree: &Tree,
    var: VarId,
    known: &[Private],
    kept: &KeptList,
    steps: &mut Steps<L>,
) -> Result<Made, NoMemory>
    requires ground { IsEditGround problem.now tree.now kept.now.items }
    requires inside { var < length problem.now.sizes }
    requires known { known.now ≡ map (private_of problem.now) (range_with_len 0 (length known.now)) }
    requires children { AreChildrenHeld problem.now tree.now.paths kept.now.items var }
    ensures made { IfOk result (IsRemade (agent_with problem.now tree.now.paths kept.now.items var)) }
    ensures counted { OnOk result (steps.new
        ≡ steps.old + joined_cells problem.now tree.now.paths var) }
    ensures rises { steps.old ≤ steps.new }
    ensures within { steps.new ≤ steps.old + joined_cells problem.now tree.now.paths var }
{
    if let Some(own) = known.get(var.0 as usize) {
        return made_at(alloc, problem, tree, var, own, kept, steps);
    }
    let own = private(alloc, problem, var)?;
    made_at(alloc, problem, tree, var, &own, kept, steps)
}

/// Recomputes and keeps the tables of an agent if it is touched.
fn renew<L: Ledger>(
    alloc: Global,
    problem: &Problem,
    tree: &Tree,
    touched: &[bool],
    var: VarId,
    known: &[Private],
    kept: &mut KeptList,
    steps: &mut Steps<L>,
) -> Result<(), NoMemory>
    requires ground { IsEditGround problem.now tree.now kept.old.items }
    requires marked { length touched.now ≡ length problem.now.sizes }
    requires inside { var < length problem.now.sizes }
    requires known { known.now ≡ map (private_of problem.now) (range_with_len 0 (length known.now)) }
    requires children { AreChildrenHeld problem.now tree.now.paths kept.old.items var }
    requires others { AreOthersHeld problem.now tree.now.paths touched.now kept.old.items }
    ensures held { OnOk result (AreHeldFrom problem.now tree.now.paths kept.new.items var) }
    ensures stay { StayHeld problem.now tree.now.paths kept.old.items kept.new.items }
    ensures counted { OnOk result (steps.new
        ≡ steps.old + cells_among problem.now tree.now.paths touched.now (var ∷ [])) }
    ensures rises { steps.old ≤ steps.new }
    ensures within { steps.new
        ≤ steps.old + cells_among problem.now tree.now.paths touched.now (var ∷ []) }
{
    if touched[var.0 as usize] {
        one_more_is_held();
        let made = made_from(alloc, problem, tree, var, known, kept, steps)?;
        kept[var.0 as usize] = Some(made);
    }
    Ok(())
}

/// Recomputes and keeps the tables of all touched agents, from the leaves up. The steps rise by the
/// cells of their joined tables.
pub(crate) fn remake_touched<L: Ledger>(
    alloc: Global,
    problem: &Problem,
    tree: &Tree,
    touched: &[bool],
    kept: &mut KeptList,
    steps: &mut Steps<L>,
) -> Result<(), NoMemory>
    requires ground { IsEditGround problem.now tree.now kept.old.items }
    requires marked { length touched.now ≡ length problem.now.sizes }
    requires others { AreOthersHeld problem.now tree.now.paths touched.now kept.old.items }
    ensures held { OnOk result (AreAllHeld problem.now tree.now.paths kept.new.items) }
    ensures stay { StayHeld problem.now tree.now.paths kept.old.items kept.new.items }
    ensures counted { OnOk result (steps.new ≡ steps.old
        + cells_among problem.now tree.now.paths touched.now (preorder_of tree.now.paths)) }
    ensures rises { steps.old ≤ steps.new }
    ensures within { steps.new ≤ steps.old
        + cells_among problem.now tree.now.paths touched.now (preorder_of tree.now.paths) }
{
    problem_is_whole(problem);
    let known = known_to_many(alloc, problem, touched)?;
    let known = known.as_slice();
    let order = tree.preorder().as_slice();
    for index in (0..order.len()).rev() {
        renew(
            alloc,
            problem,
            tree,
            touched,
            order[index],
            known,
            kept,
            steps,
        )?;
    }
    Ok(())
}
