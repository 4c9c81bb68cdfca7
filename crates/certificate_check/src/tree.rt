//! Why parents do not form a pseudotree, as a difference.

ghost use Rattle.std.specs.Prelude.{ℕ, List, Option, IfOk};
ghost use Rattle.dcop_base.specs.Problem.{Dcop};
ghost use Rattle.pseudotree.specs.Fault.{IsFirstFault};
ghost use Rattle.certificate_check.specs.Verdicts.{IsTreeVerdict};

use certificate_text::{Differs, Verdict};
use dcop_base::NoMemory;
use pseudotree::TreeFault;

/// The verdict on parents that are refused for this reason: no, with the difference.
pub(crate) fn tree_verdict(fault: TreeFault) -> Result<Verdict, NoMemory>
    ensures { (p : Dcop) (parents : List (Option ℕ)) → IsFirstFault p parents fault
        → IfOk result (IsTreeVerdict p parents) }
{
    match fault {
        TreeFault::Roots { count } => Ok(Verdict::No(Differs::TreeRoots { count })),
        TreeFault::Loop { var } => Ok(Verdict::No(Differs::TreeLoop { var })),
        TreeFault::Pair { one, other } => Ok(Verdict::No(Differs::TreePair { one, other })),
        TreeFault::NoMemory => Err(NoMemory),
    }
}
