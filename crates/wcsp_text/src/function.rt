//! The functions of a network.

ghost use Rattle.std.specs.Prelude.{◌≡◌, ◌≤◌, ◌<◌, ◌+◌, [], None, false, length, min, IfOk};
ghost use Rattle.std.specs.List.{All, position};
ghost use Rattle.dcop_base.specs.Limits.{variable_limit, size_limit, scope_limit, cell_limit};
ghost use Rattle.dcop_base.specs.Faults.{is_bad_size};
ghost use Rattle.dcop_base.specs.Table.{has_repeat, product};
ghost use Rattle.wcsp_text.specs.Numbers.{place};
ghost use Rattle.wcsp_text.specs.Functions.{own_sizes, table_over, count_over, over_scope, function_read, functions_read};
ghost use Rattle.wcsp_text.specs.Gives.{Gives};

use crate::fault::{Fault, WcspKind, fault_before};
use crate::number::next_number;
use crate::scope::scope_of;
use crate::tuple::cells_of;
use dcop_base::{
    MAX_CELLS, MAX_SCOPE, NoMemory, Sequence, SizeList, VarId, VarList, product_of, sizes_of,
};
use problem_text::LineEnd;
use std::alloc::Global;
use std::marker::Model;

/// A function as a table over its scope, whose cells are those of the text.
#[derive(Debug, Drop)]
pub struct Function {
    /// How many bytes of the text follow the word of its arity.
    pub after: usize,
    pub scope: VarList,
    pub sizes: SizeList,
    pub cells: Sequence<u64>,
}

impl Model for Function {
    ghost use Rattle.wcsp_text.specs.Functions.{Function as TextFunction, IsWritten};

    ghost Value = { TextFunction };

    ghost view = { λ f. record { after = f.after; table = record { scope = f.scope; sizes = f.sizes; cells = f.cells } } };

    ghost invariant = { λ f. IsWritten (record { scope = f.scope; sizes = f.sizes; cells = f.cells }) };
}

/// A function, and the text after it.
#[derive(Debug, Drop)]
pub struct ReadFunction<'a> {
    pub function: Function,
    pub after: &'a [u8],
}

/// Functions, and the text after them.
#[derive(Debug, Drop)]
pub struct ReadFunctions<'a> {
    pub functions: Vec<Function>,
    pub after: &'a [u8],
}

/// The `count` functions that a text begins with, over variables of these sizes.
pub fn functions_of<'a>(
    alloc: Global,
    sizes: &[u16],
    count: u64,
    text: &'a [u8],
) -> Result<ReadFunctions<'a>, LineEnd<Fault>>
    requires some { 0 < length sizes.now }
    requires few { length sizes.now ≤ variable_limit }
    requires good { position is_bad_size sizes.now ≡ None }
    ensures { Gives (λ r. (r.functions.items, place r.after.now)) result
        (functions_read sizes.now [] count (place text.now)) }
{
    let mut functions = Vec::new(alloc);
    let mut cells: u64 = 0;
    let mut rest = text;
    for _ in 0..count {
        let read = function_of(alloc, sizes, cells, rest)?;
        cells += read.function.cells.as_slice().len() as u64;
        functions.push(read.function)?;
        rest = read.after;
    }
    Ok(ReadFunctions {
        functions,
        after: rest,
    })
}

/// The function that a text begins with. The functions before it have `before` cells.
fn function_of<'a>(
    alloc: Global,
    sizes: &[u16],
    before: u64,
    text: &'a [u8],
) -> Result<ReadFunction<'a>, LineEnd<Fault>>
    requires some { 0 < length sizes.now }
    requires few { length sizes.now ≤ variable_limit }
    requires good { position is_bad_size sizes.now ≡ None }
    requires before { before ≤ cell_limit }
    ensures read { Gives (λ r. (r.function, place r.after.now)) result
        (function_read sizes.now before (place text.now)) }
    ensures cells { IfOk result (λ r. before + length r.function.table.cells ≤ cell_limit) }
{
    let arity = next_number(text)?;
    if arity.value > MAX_SCOPE as u64 {
        return Err(fault_before(arity.after, WcspKind::Arity));
    }
    over_scope_of(alloc, sizes, before, arity.value, arity.after)
}

/// The function of this arity whose scope a text begins with.
fn over_scope_of<'a>(
    alloc: Global,
    sizes: &[u16],
    before: u64,
    arity: u64,
    text: &'a [u8],
) -> Result<ReadFunction<'a>, LineEnd<Fault>>
    requires some { 0 < length sizes.now }
    requires few { length sizes.now ≤ variable_limit }
    requires good { position is_bad_size sizes.now ≡ None }
    requires before { before ≤ cell_limit }
    requires arity { arity ≤ scope_limit }
    ensures read { Gives (λ r. (r.function, place r.after.now)) result
        (over_scope sizes.now before arity (place text.now)) }
    ensures cells { IfOk result (λ r. before + length r.function.table.cells ≤ cell_limit) }
{
    let scope = scope_of(alloc, sizes.len(), arity, text)?;
    let own = sizes_of(alloc, sizes, scope.vars.as_slice())?;
    if count_of(sizes, scope.vars.as_slice(), own.as_slice()) > MAX_CELLS - before {
        return Err(fault_before(text, WcspKind::Problem { number: 9 }));
    }
    let read = cells_of(alloc, own.as_slice(), scope.after)?;
    let function = function_with(alloc, sizes, text.len(), scope.vars, own, read.cells)?;
    Ok(ReadFunction {
        function,
        after: read.after,
    })
}

/// How many cells the table over a scope has; `own` are the sizes of the scope's variables.
fn count_of(sizes: &[u16], scope: &[VarId], own: &[u16]) -> u64
    requires some { 0 < length sizes.now }
    requires own { own.now ≡ own_sizes sizes.now scope.now }
    ensures { result ≡ min (count_over sizes.now scope.now) usize.MAX }
{
    if scope.is_empty() {
        u64::from(sizes[0])
    } else {
        product_of(own) as u64
    }
}

/// The function over a scope with these cells. A function of no variables is a table on variable 0.
fn function_with(
    alloc: Global,
    sizes: &[u16],
    after: usize,
    scope: Vec<VarId>,
    own: SizeList,
    cells: Vec<u64>,
) -> Result<Function, NoMemory>
    requires some { 0 < length sizes.now }
    requires good { position is_bad_size sizes.now ≡ None }
    requires within { All (λ v. v < length sizes.now) scope.items }
    requires apart { has_repeat scope.items ≡ false }
    requires own { own ≡ own_sizes sizes.now scope.items }
    requires cells { length cells.items ≡ product own }
    ensures { IfOk result
        (λ f. f ≡ record { after = after; table = table_over sizes.now scope.items cells.items }) }
{
    if scope.is_empty() {
        let size = sizes[0];
        return Ok(Function {
            after,
            scope: VarList::from_vec(vec![in alloc; VarId(0)]?),
            sizes: SizeList::from_vec(vec![in alloc; size]?),
            cells: Sequence::from_vec(vec![in alloc; cells[0]; usize::from(size)]?),
        });
    }
    Ok(Function {
        after,
        scope: VarList::from_vec(scope),
        sizes: own,
        cells: Sequence::from_vec(cells),
    })
}
