//! The law about cuts that exceed no limit.

ghost use Rattle.solve_cut.specs.Allowed.{AllowedCutsAreSolved};

use pseudotree::depth_first_trees_are_linked;
use run_laws::cut_sets_are_one;

/// If the cut of the problem that a text declares exceeds no limit, of turns or of cells sent, then
/// each answer of `--method cut` to the text is a solved report. Joined tables must be allowed at
/// least as many cells as a variable may have values.
///
/// The law is the contract of a call that does nothing; code that needs the law calls it.
pub fn allowed_cuts_are_solved()
    ensures { AllowedCutsAreSolved }
{
    cut_sets_are_one();
    depth_first_trees_are_linked();
}
