//! The calls that take memory, when there is enough.

ghost use Rattle.std.specs.Prelude.{◌≡◌, [], ◌∷◌, IfOk};

use cost_table::{fix, slice};
use dcop_base::{CellList, Problem, SizeList, Table, TableList, Val, ValList, VarId, VarList};
use std::alloc::Global;
use std::test::Fail;

// The table of one variable with two values, the second of which costs 3.
fn single(alloc: Global) -> Result<Table, Fail>
    ensures scope { IfOk result (λ table. table.scope ≡ 0 ∷ []) }
    ensures sizes { IfOk result (λ table. table.sizes ≡ 2 ∷ []) }
{
    let scope = VarList::from_vec(vec![in alloc; VarId(0)]?);
    let sizes = SizeList::from_vec(vec![in alloc; 2]?);
    let cells = CellList::from_vec(vec![in alloc; 1, 3]?);
    Ok(Table::new(scope, sizes, cells)?)
}

#[test]
fn fixes_a_variable(rt: HostRuntime) -> Result<(), Fail> {
    let single = single(rt.alloc())?;
    let rest = fix(rt.alloc(), &single, VarId(0), Val(1))?;
    assert!(rt; rest.cells.as_slice() == [3].as_slice());
    Ok(())
}

// The slice of the problem of that table at the second value.
fn slice_of_single(alloc: Global) -> Result<Problem, Fail> {
    let mut tables = Vec::new(alloc);
    tables.push(single(alloc)?)?;
    let sizes = SizeList::from_vec(vec![in alloc; 2]?);
    let problem = Problem::new(alloc, sizes, TableList::from_vec(tables))?;
    let cut = VarList::from_vec(vec![in alloc; VarId(0)]?);
    let values = ValList::from_vec(vec![in alloc; Val(1)]?);
    Ok(slice(alloc, &problem, &cut, &values)?)
}

#[test]
fn slices_a_problem(rt: HostRuntime) -> Result<(), Fail> {
    let slice = slice_of_single(rt.alloc())?;
    assert!(rt; slice.sizes.as_slice() == [1].as_slice());
    Ok(())
}
