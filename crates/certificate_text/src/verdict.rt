//! The result of checking a certificate.

use crate::report::Ending;
use dcop_base::{Val, VarId};
use protocol_steps::EventFault;

/// The result of checking a report with a certificate.
#[derive(Clone, Copy, Debug, PartialEq, Eq)]
pub enum Verdict {
    /// The report holds. `error` is the gap: the cost is worse than the best by at most that much.
    Yes { cost: u64, error: u64 },
    /// The report does not hold. This is its first difference.
    No(Differs),
}

/// How a report differs from what holds. `left` is what the report says and `right` is what is
/// right, unless a variant says otherwise.
#[derive(Clone, Copy, Debug, PartialEq, Eq)]
pub enum Differs {
    /// The number of variables without a parent is `count`, not 1.
    TreeRoots {
        count: u64,
    },
    /// The parents of this variable do not reach the root. It is the lowest such variable.
    TreeLoop {
        var: VarId,
    },
    /// Neither of these two variables of one table or joint is an ancestor of the other. They are
    /// the least such pair.
    TreePair {
        one: VarId,
        other: VarId,
    },
    /// The scope of this variable is not its separator from the root down. It is the lowest such
    /// variable.
    Scope {
        var: VarId,
    },
    /// A cell of this variable's table, counted from 0, exceeds, at this value of the variable, the
    /// sum of its own tables' cells and its children's cells, which is `right`.
    Cell {
        var: VarId,
        cell: u64,
        value: Val,
        left: u64,
        right: u64,
    },
    /// In this turn of a cut, counted from 0, the scope of this variable is not its separator from
    /// the root down. It is the first such turn, and there the lowest such variable.
    TurnScope {
        turn: u64,
        var: VarId,
    },
    /// In this turn of a cut, counted from 0, a cell of this variable's table, counted from 0,
    /// exceeds, at this value of the variable in the slice, the sum of its own tables' cells in the
    /// slice and its children's cells, which is `right`.
    TurnCell {
        turn: u64,
        var: VarId,
        cell: u64,
        value: Val,
        left: u64,
        right: u64,
    },
    /// The cost is not that of the values.
    Cost {
        left: u64,
        right: u64,
    },
    /// The root's cell is not the cost of the values in the problem solved. Of a cut, it is the
    /// least root's cell over all turns.
    Root {
        left: u64,
        right: u64,
    },
    /// The lower bound is not the right one.
    Lower {
        left: u64,
        right: u64,
    },
    /// The upper bound is not the right one.
    Upper {
        left: u64,
        right: u64,
    },
    /// The error is not the right one.
    Error {
        left: u64,
        right: u64,
    },
    /// The number of deliveries is not the one that the method makes.
    Deliveries {
        left: u64,
        right: u64,
    },
    /// The status is this one, which is not right.
    Status {
        ending: Ending,
    },
    /// This event of a log, counted from 1, is not lawful.
    Event {
        at: u64,
        fault: EventFault,
    },
    /// The stamp of this event of a log, counted from 1, is not the right one. If the stamp is
    /// right, but the event does not follow the one before it by stamp and then agent, `right` is
    /// the stamp of the event before it.
    Stamp {
        at: u64,
        left: u64,
        right: u64,
    },
    /// The value of this variable is not the one that its agent has reached. It is the lowest such
    /// variable.
    Value {
        var: VarId,
    },
}
