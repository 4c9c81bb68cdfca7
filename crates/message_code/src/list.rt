//! Reading lists of numbers.

ghost use Rattle.std.specs.Prelude.{◌≡◌, ◌<◌, ◌≤◌, ◌+◌, ◌++◌, length, IfOk};
ghost use Rattle.std.specs.List.{flat_map, All};
ghost use Rattle.std.specs.Int.{w32, w64};
ghost use Rattle.dcop_base.specs.Limits.{variable_limit, amount_limit};
ghost use Rattle.protocol_steps.specs.Ranges.{AreVariables, AreCells};
ghost use Rattle.message_code.specs.Code.{variable_code, amount_code, list_code};
ghost use Rattle.message_code.specs.Form.{numbers, variable_list, cell_list};
ghost use Rattle.message_code.specs.Reading.{Reads};

use crate::number::{u32_at, u64_at};
use crate::stop::Stop;
use dcop_base::{CAP, CellList, MAX_JOINED_CELLS, MAX_VARIABLES, NoMemory, VarId, VarList};
use std::alloc::Global;

/// A list of variables, and the bytes after it.
pub(crate) fn variables_at(alloc: Global, bytes: &[u8]) -> Result<(VarList, &[u8]), Stop>
    ensures read { Reads (λ x. list_code variable_code x.0 ++ x.1.now) variable_list bytes.now result }
    ensures range { IfOk result (λ x. AreVariables x.0) }
{
    let (count, rest) = u32_at(bytes, 0, MAX_VARIABLES as u32 + 1)?;
    let (variables, rest) = so_many_variables(alloc, count, rest)?;
    Ok((VarList::from_vec(variables), rest))
}

/// `count` variables, and the bytes after them.
fn so_many_variables(alloc: Global, count: u32, bytes: &[u8]) -> Result<(Vec<VarId>, &[u8]), Stop>
    ensures read { Reads (λ x. flat_map variable_code x.0.items ++ x.1.now) (numbers w32 variable_limit count) bytes.now result }
    ensures count { IfOk result (λ x. length x.0.items ≡ count) }
    ensures range { IfOk result (λ x. All (λ v. v < variable_limit) x.0.items) }
{
    let mut variables = Vec::with_capacity(alloc, count as usize).map_err(NoMemory::from)?;
    let mut rest = bytes;
    for _ in 0..count {
        let (variable, behind) = u32_at(rest, 0, MAX_VARIABLES as u32)?;
        variables.push_reserved(VarId(variable));
        rest = behind;
    }
    Ok((variables, rest))
}

/// A list of amounts, and the bytes after it.
pub(crate) fn cells_at(alloc: Global, bytes: &[u8]) -> Result<(CellList, &[u8]), Stop>
    ensures read { Reads (λ x. list_code amount_code x.0 ++ x.1.now) cell_list bytes.now result }
    ensures range { IfOk result (λ x. AreCells x.0) }
{
    let (count, rest) = u32_at(bytes, 0, MAX_JOINED_CELLS as u32 + 1)?;
    let (cells, rest) = so_many_amounts(alloc, count, rest)?;
    Ok((CellList::from_vec(cells), rest))
}

/// `count` amounts, and the bytes after them.
fn so_many_amounts(alloc: Global, count: u32, bytes: &[u8]) -> Result<(Vec<u64>, &[u8]), Stop>
    ensures read { Reads (λ x. flat_map amount_code x.0.items ++ x.1.now) (numbers w64 (amount_limit + 1) count) bytes.now result }
    ensures count { IfOk result (λ x. length x.0.items ≡ count) }
    ensures range { IfOk result (λ x. All (λ c. c ≤ amount_limit) x.0.items) }
{
    let mut amounts = Vec::with_capacity(alloc, count as usize).map_err(NoMemory::from)?;
    let mut rest = bytes;
    for _ in 0..count {
        let (amount, behind) = u64_at(rest, CAP + 1)?;
        amounts.push_reserved(amount);
        rest = behind;
    }
    Ok((amounts, rest))
}
