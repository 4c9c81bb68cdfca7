//! Why parents are refused.

use dcop_base::{NoMemory, VarId};

/// Why parents do not form a pseudotree of a problem.
#[derive(Clone, Copy, Debug, PartialEq, Eq)]
pub enum TreeFault {
    /// The number of variables without a parent is `count`, which is not 1.
    Roots { count: u64 },
    /// The parents of `var` do not reach the root, and it is the lowest such variable.
    Loop { var: VarId },
    /// The two variables share a table or a joint and are not ancestor and descendant. They are the
    /// least such pair: by `one`, which is the lower of the two, and then by `other`.
    Pair { one: VarId, other: VarId },
    /// Memory ran out.
    NoMemory,
}

impl From<NoMemory> for TreeFault {
    ghost use Rattle.std.specs.Prelude.{◌≡◌};
    ghost use Rattle.pseudotree.specs.declared.fault.TreeFault.TheVariants.{NoMemory as no_memory};

    ghost from_gives = { λ _ e. e ≡ no_memory };

    fn from(_refused: NoMemory) -> Self {
        TreeFault::NoMemory
    }
}
