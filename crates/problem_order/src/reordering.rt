//! A file with its variables in another order.

ghost use Rattle.std.specs.Prelude.{◌≡◌, ℕ, [], ◌<◌, ◌≤◌, None, length, map, slice_index, slice_index_or, IfOk};
ghost use Rattle.std.specs.List.{All, AllZip, IsDistinct};
ghost use Rattle.std.specs.Str.{bytes_eq};
ghost use Rattle.dcop_base.specs.Table.{table_fault};
ghost use Rattle.problem_order.specs.Order.{IsOrder};
ghost use Rattle.problem_order.specs.Reordered.{IsTableFor, IsReordered};

use crate::order::Order;
use dcop_base::{
    NoMemory, Problem, ProblemFault, Table, TableList, VarId, VarList, problem_is_whole, sizes_of,
};
use problem_text::{LabelList, Labels, Names, ProblemFile};
use std::alloc::Global;

/// The same file with its variables in this order: variable `k` is the old file's variable at place
/// `k` of the order.
///
/// Names, domain sizes and value names go with their variables, and the goal stays. A table has the
/// same variables in the same order, so its cells stay where they are. The time is that of the
/// names, the scopes and the cells, and of the problem's joints.
///
/// # Errors
///
/// [`NoMemory`] if memory runs out.
pub fn reordered(alloc: Global, file: &ProblemFile, order: &Order) -> Result<ProblemFile, NoMemory>
    requires { length order.now ≡ length file.now.problem.sizes }
    ensures { IfOk result (λ new. IsReordered file.now order.now new) }
{
    problem_is_whole(&file.problem);
    let vars = order.vars();
    let names = names_in(alloc, &file.names, vars)?;
    let labels = labels_in(alloc, file.labels.as_slice(), vars)?;
    let problem = problem_in(alloc, &file.problem, order)?;
    Ok(ProblemFile {
        version: file.version,
        goal: file.goal,
        names,
        labels: LabelList::from_vec(labels),
        problem,
    })
}

/// The names of the variables, in this order.
fn names_in(alloc: Global, names: &Names, order: &[VarId]) -> Result<Names, NoMemory>
    requires { IsOrder (length names.now) order.now }
    ensures names { IfOk result (λ new. new ≡ map (λ v. slice_index_or names.now v []) order.now) }
    ensures distinct { IfOk result (λ new. IsDistinct bytes_eq new) }
{
    let _count = names.len();
    let mut new = Names::new(alloc);
    for var in order {
        new.push(names.name(*var))?;
    }
    let _count = new.len();
    Ok(new)
}

/// The value names of the variables, in this order.
fn labels_in(alloc: Global, labels: &[Labels], order: &[VarId]) -> Result<Vec<Labels>, NoMemory>
    requires { All (λ v. v < length labels.now) order.now }
    ensures { IfOk result (λ new. new.items ≡ map (λ v. slice_index_or labels.now v []) order.now) }
{
    let mut new = Vec::with_capacity(alloc, order.len())?;
    for var in order {
        new.push(copy_of(alloc, &labels[var.0 as usize])?)?;
    }
    Ok(new)
}

/// The same value names.
fn copy_of(alloc: Global, labels: &Labels) -> Result<Labels, NoMemory>
    ensures { IfOk result (λ copy. copy ≡ labels.now) }
{
    let mut copy = Labels::new(alloc);
    for value in 0..labels.len() {
        copy.push(labels.name(value))?;
    }
    Ok(copy)
}

/// The problem with its variables in this order.
fn problem_in(alloc: Global, problem: &Problem, order: &Order) -> Result<Problem, NoMemory>
    requires { length order.now ≡ length problem.now.sizes }
    ensures sizes { IfOk result (λ new. new.sizes ≡ map (λ v. slice_index problem.now.sizes v) order.now) }
    ensures tables { IfOk result (λ new. AllZip (IsTableFor order.now) problem.now.tables new.tables) }
{
    problem_is_whole(problem);
    let sizes = sizes_of(alloc, problem.sizes.as_slice(), order.vars())?;
    let tables = tables_in(alloc, problem.tables.as_slice(), order)?;
    match Problem::new(alloc, sizes, TableList::from_vec(tables)) {
        Ok(new) => Ok(new),
        Err(fault) => Err(only_memory(fault)),
    }
}

/// Out of memory, as the only fault that can come.
fn only_memory(fault: ProblemFault) -> NoMemory
    requires { fault ≡ ProblemFault.NoMemory }
{
    match fault {
        ProblemFault::NoMemory => NoMemory,
        _ => unreachable!(),
    }
}

/// The tables, for variables in this order.
fn tables_in(alloc: Global, tables: &[Table], order: &Order) -> Result<Vec<Table>, NoMemory>
    requires { All (λ t. All (λ v. v < length order.now) t.scope) tables.now }
    ensures { IfOk result (λ new. AllZip (IsTableFor order.now) tables.now new.items) }
{
    let mut new = Vec::with_capacity(alloc, tables.len())?;
    for table in tables {
        new.push(table_in(alloc, table, order)?)?;
    }
    Ok(new)
}

/// The table, for variables in this order.
fn table_in(alloc: Global, table: &Table, order: &Order) -> Result<Table, NoMemory>
    requires { All (λ v. v < length order.now) table.now.scope }
    ensures { IfOk result (IsTableFor order.now table.now) }
{
    let scope = scope_in(alloc, table.scope.as_slice(), order.places())?;
    table_over(table, scope)
}

/// The table with this scope in place of its own.
fn table_over(table: &Table, scope: VarList) -> Result<Table, NoMemory>
    requires { table_fault scope table.now.sizes table.now.cells ≡ None }
    ensures { IfOk result (λ new. new ≡ record { scope = scope; sizes = table.now.sizes; cells = table.now.cells }) }
{
    Ok(Table {
        scope,
        sizes: table.sizes.clone()?,
        cells: table.cells.clone()?,
    })
}

/// The places of these variables.
fn scope_in(alloc: Global, scope: &[VarId], places: &[VarId]) -> Result<VarList, NoMemory>
    requires { All (λ v. v < length places.now) scope.now }
    ensures { IfOk result (λ new. new ≡ map (slice_index places.now) scope.now) }
{
    let mut new = Vec::with_capacity(alloc, scope.len())?;
    for var in scope {
        new.push(places[var.0 as usize])?;
    }
    Ok(VarList::from_vec(new))
}
