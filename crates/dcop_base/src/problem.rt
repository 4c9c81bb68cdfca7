//! Problems: variables with finite domains, cost tables over them, and joints.

ghost use Rattle.std.specs.Prelude.{◌≡◌, ℕ, None, IfOk};
ghost use Rattle.std.specs.List.{All};
ghost use Rattle.dcop_base.specs.Faults.{problem_fault};
ghost use Rattle.dcop_base.specs.Table.{IsTable};
ghost use Rattle.dcop_base.specs.Whole.{IsProblem};

use crate::fault::fault_of;
use crate::joint::joints_of;
use crate::limit::{MAX_CELLS, MAX_COST, MAX_SCOPE, MAX_SIZE, MAX_VARIABLES};
use crate::memory::NoMemory;
use crate::number::VarId;
use crate::sequence::{PairList, SizeList, TableList};
use crate::table::Table;
use std::alloc::Global;
use std::marker::Model;

/// Why sizes and tables are refused as a problem. Variables, tables and cells are counted from 0,
/// and each fault names the first place.
#[derive(Clone, Copy, Debug, PartialEq, Eq)]
pub enum ProblemFault {
    /// There are no variables: the list of sizes is empty.
    NoVariables,
    /// There are more than [`MAX_VARIABLES`] variables.
    TooManyVariables,
    /// A size is 0 or above [`MAX_SIZE`].
    DomainSize { var: VarId },
    /// The scope is empty or has more than [`MAX_SCOPE`] variables.
    ScopeLength { table: u64 },
    /// A variable of the scope is not below the number of variables.
    ScopeRange { table: u64 },
    /// The scope names a variable twice.
    ScopeRepeat { table: u64 },
    /// The table's sizes are not its variables' sizes.
    CellCount { table: u64 },
    /// A cell is above [`MAX_COST`].
    CostTooLarge { table: u64, cell: u64 },
    /// The tables up to and including this one have more than [`MAX_CELLS`] cells together.
    TooManyCells { table: u64 },
    /// The greatest cells of the tables up to and including this one sum to more than
    /// [`CAP`](crate::CAP).
    SumTooLarge { table: u64 },
    /// Memory ran out.
    NoMemory,
}

impl From<NoMemory> for ProblemFault {
    ghost use Rattle.std.specs.Prelude.{◌≡◌};
    ghost use Rattle.dcop_base.specs.declared.problem.ProblemFault.TheVariants.{NoMemory as no_memory};

    ghost from_gives = { λ _ e. e ≡ no_memory };

    fn from(_refused: NoMemory) -> Self {
        ProblemFault::NoMemory
    }
}

/// A problem: the number of values of each variable, cost tables over the variables, and joints.
///
/// A joint is a pair of variables that counts as a table of zeros on that pair and holds no cells.
/// One joint leads from variable 0 to the first variable of each other component of the graph of
/// tables, in ascending order, so the graph of tables and joints is connected.
///
/// There are 1 to [`MAX_VARIABLES`] variables with 1 to [`MAX_SIZE`] values each. A table has 1 to
/// [`MAX_SCOPE`] variables, and each cell is at most [`MAX_COST`]. All tables together have at most
/// [`MAX_CELLS`] cells, and their greatest cells sum to at most [`CAP`](crate::CAP).
#[derive(Debug, Drop)]
pub struct Problem {
    pub sizes: SizeList,
    pub tables: TableList,
    pub joints: PairList,
}

impl Model for Problem {
    ghost use Rattle.dcop_base.specs.Problem.{Dcop};
    ghost use Rattle.dcop_base.specs.Whole.{IsProblem};

    ghost Value = { Dcop };

    ghost view = { λ p. record { sizes = p.sizes; tables = p.tables; joints = p.joints } };

    ghost invariant = { λ p. IsProblem (record { sizes = p.sizes; tables = p.tables; joints = p.joints }) };
}

impl Problem {
    ghost use Rattle.dcop_base.specs.Made.{MakesProblem, IsProblemOf};

    /// The problem of these sizes and tables, with the joints that make its graph connected.
    ///
    /// The checks come in this order: no variables, too many variables, and a size that is not a
    /// domain size. Then come, for each table, its scope's length, range and repeats, its sizes,
    /// its first cell that is too large, too many cells, and too large a sum of greatest cells. On
    /// an error the sizes and tables are dropped.
    ///
    /// # Errors
    ///
    /// The first fault in this order, or [`ProblemFault::NoMemory`] if memory runs out.
    pub fn new(alloc: Global, sizes: SizeList, tables: TableList) -> Result<Problem, ProblemFault>
        ensures { MakesProblem sizes tables result }
    {
        if let Some(fault) = fault_of(sizes.as_slice(), tables.as_slice()) {
            return Err(fault);
        }
        Ok(Problem::of_faultless(alloc, sizes, tables)?)
    }

    /// The problem of sizes and tables that have no fault, with the joints that make its graph
    /// connected. [`Problem::new`] does the same for sizes and tables that may have a fault, and
    /// looks at each cell to find it.
    ///
    /// # Errors
    ///
    /// [`NoMemory`] if memory runs out. Sizes and tables are dropped in that case.
    pub fn of_faultless(
        alloc: Global,
        sizes: SizeList,
        tables: TableList,
    ) -> Result<Problem, NoMemory>
        requires { problem_fault sizes tables ≡ None }
        ensures { IfOk result (IsProblemOf sizes tables) }
    {
        tables_are_whole(tables.as_slice());
        let joints = joints_of(alloc, sizes.as_slice().len(), tables.as_slice())?;
        Ok(Problem {
            sizes,
            tables,
            joints,
        })
    }
}

/// Every table is whole. Does nothing; its contract is the law.
fn tables_are_whole(tables: &[Table])
    ensures { All IsTable tables.now }
{
    for table in tables {
        // For the prover: reading a table gives its invariant.
        let _ = table.scope.as_slice();
    }
}

/// Every problem is within the limits, each of its tables has a cell for each combination of values
/// of its variables, and its joints make it connected. Does nothing; its contract is the law.
pub fn problem_is_whole(problem: &Problem)
    ensures { IsProblem problem.now }
{
    // For the prover: reading the problem gives its invariant.
    let _ = problem.sizes.as_slice();
}
