//! Messages.

use adopt_context::AgentContext;
use dcop_base::{CellList, Val, VarList};

/// A message from one agent to another.
#[derive(Clone, Debug, Drop)]
pub enum Message {
    /// From a parent: continue the search from here. The path is that of the receiver, from the
    /// root down.
    Token {
        path: VarList,
    },
    /// From a child: its subtree has been searched. `visited` has all variables of the subtree, in
    /// preorder.
    Done {
        visited: VarList,
    },
    /// From a child: the least costs of its subtree, for all values of its separator.
    Util {
        scope: VarList,
        cells: CellList,
    },
    /// From a parent: the values of the child's separator.
    ValueAll {
        values: AgentContext,
    },
    /// From a higher neighbour: the value that it has taken.
    Value {
        value: Val,
    },
    /// From a child: bounds on the cost of its subtree in a context. `upper` is `None` as long as
    /// there is no upper bound.
    Cost {
        context: AgentContext,
        lower: u64,
        upper: Option<u64>,
    },
    /// From a parent: the threshold of the child's subtree in a context.
    Threshold {
        amount: u64,
        context: AgentContext,
    },
    /// From a parent: the final values of the path. The child may end.
    Terminate {
        context: AgentContext,
    },
}
