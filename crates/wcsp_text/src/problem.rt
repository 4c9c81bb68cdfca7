//! The problem that is made from a network.

ghost use Rattle.std.specs.Prelude.{◌≡◌, map, min, IfOk, slice_index};
ghost use Rattle.problem_text.specs.declared.line_end.LineEnd.TheVariants as ends;
ghost use Rattle.wcsp_text.specs.declared.fault.WcspKind.TheVariants.{Problem as problem_kind};
ghost use Rattle.wcsp_text.specs.Problems.{hard as hard_cost};
ghost use Rattle.wcsp_text.specs.Made.{capped_table, MakesProblemOf, IsTold};

use crate::fault::{Fault, WcspKind};
use crate::function::Function;
use crate::network::Network;
use crate::raising::raise;
use dcop_base::{CellList, NoMemory, Problem, ProblemFault, SizeList, Table, TableList};
use problem_text::LineEnd;
use std::alloc::Global;

/// Tables, and for each how many bytes of the text follow the word of its arity.
#[derive(Debug, Drop)]
struct Tables {
    tables: Vec<Table>,
    afters: Vec<usize>,
}

/// The problem of a network, with `hard` as the cost of what is forbidden.
pub fn problem_of(alloc: Global, network: Network, hard: u64) -> Result<Problem, LineEnd<Fault>>
    requires { hard ≡ min (hard_cost network) u64.MAX }
    ensures { MakesProblemOf network result }
{
    let Network {
        top,
        sizes,
        functions,
    } = network;
    let made = tables_of(alloc, functions, top, hard)?;
    match Problem::new(
        alloc,
        SizeList::from_vec(sizes),
        TableList::from_vec(made.tables),
    ) {
        Ok(problem) => Ok(problem),
        Err(fault) => Err(told(fault, made.afters.as_slice())),
    }
}

/// The tables of functions.
fn tables_of(
    alloc: Global,
    functions: Vec<Function>,
    top: u64,
    hard: u64,
) -> Result<Tables, NoMemory>
    ensures tables { IfOk result
        (λ r. r.tables.items ≡ map (λ f. capped_table top hard f.table) functions.items) }
    ensures afters { IfOk result (λ r. r.afters.items ≡ map (λ f. f.after) functions.items) }
{
    let mut tables = Vec::with_capacity(alloc, functions.len())?;
    let mut afters = Vec::with_capacity(alloc, functions.len())?;
    for function in functions {
        afters.push(function.after)?;
        tables.push(table_of(alloc, function, top, hard)?)?;
    }
    Ok(Tables { tables, afters })
}

/// The table of a function. It reuses the memory of the function's cells.
fn table_of(alloc: Global, function: Function, top: u64, hard: u64) -> Result<Table, NoMemory>
    ensures { IfOk result (λ t. t ≡ capped_table top hard function.table) }
{
    let Function {
        after: _,
        scope,
        sizes,
        cells,
    } = function;
    let mut cells = cells.into_vec();
    raise(cells.as_mut_slice(), top, hard);
    let cells = CellList::shared(alloc, cells)?;
    Ok(Table {
        scope,
        sizes,
        cells,
    })
}

/// A fault of a problem as a fault of the text.
fn told(fault: ProblemFault, afters: &[usize]) -> LineEnd<Fault>
    ensures { IsTold fault afters.now result }
{
    match fault {
        ProblemFault::NoMemory => LineEnd::NoMemory,
        ProblemFault::NoVariables => fault_at(afters, 0, 1),
        ProblemFault::DomainSize { .. } => fault_at(afters, 0, 2),
        ProblemFault::ScopeLength { table } => fault_at(afters, table, 3),
        ProblemFault::ScopeRange { table } => fault_at(afters, table, 4),
        ProblemFault::ScopeRepeat { table } => fault_at(afters, table, 5),
        ProblemFault::CellCount { table } => fault_at(afters, table, 6),
        ProblemFault::CostTooLarge { table, .. } => fault_at(afters, table, 7),
        ProblemFault::SumTooLarge { table } => fault_at(afters, table, 8),
        ProblemFault::TooManyCells { table } => fault_at(afters, table, 9),
        ProblemFault::TooManyVariables => fault_at(afters, 0, 10),
    }
}

/// The fault with this number at a table.
fn fault_at(afters: &[usize], table: u64, number: u8) -> LineEnd<Fault>
    ensures { result ≡ ends.Fault (record { after = slice_index afters.now table; kind = problem_kind number }) }
{
    let after = match afters.get(table as usize) {
        Some(after) => *after,
        None => 0,
    };
    LineEnd::Fault(Fault {
        after,
        kind: WcspKind::Problem { number },
    })
}
