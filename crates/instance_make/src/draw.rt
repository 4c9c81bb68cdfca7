//! Tables drawn from a stream of words.

ghost use Rattle.std.specs.Prelude.{◌≡◌, ◌-◌, ◌%◌, ◌≤◌, IfOk, OnOk};
ghost use Rattle.dcop_base.specs.Limits.{made_size_limit, made_cost_limit};
ghost use Rattle.instance_make.specs.Limits.{CanMake};
ghost use Rattle.instance_make.specs.Stream.{state_after, word_at};
ghost use Rattle.instance_make.specs.Generator.{drawn_cells, drawn_table, drawn_tables, draws_behind, table_words};

use dcop_base::{CellList, NoMemory, SizeList, Table, TableList, VarId, VarList};
use rand_core::utils::NextWord;
use rand_xoshiro::SplitMix64;
use std::alloc::Global;

/// The tables of `vars` variables, one after the other.
pub(crate) fn draw_tables(
    alloc: Global,
    words: &mut SplitMix64,
    vars: u32,
    size: u16,
    degree: u32,
    top: u64,
) -> Result<TableList, NoMemory>
    requires { CanMake vars size degree top }
    ensures { IfOk result (λ tables. tables ≡ drawn_tables size top words.old (draws_behind degree (vars - 1))) }
{
    let mut tables = Vec::new(alloc);
    for var in 1..vars {
        for _ in 0..var.min(degree) {
            tables.push(draw_table(alloc, words, var, size, top)?)?;
        }
    }
    Ok(TableList::from_vec(tables))
}

/// The table of a variable and an earlier one.
fn draw_table(
    alloc: Global,
    words: &mut SplitMix64,
    var: u32,
    size: u16,
    top: u64,
) -> Result<Table, NoMemory>
    requires later { 1 ≤ var }
    requires valued { 1 ≤ size }
    requires small { size ≤ made_size_limit }
    requires cheap { top ≤ made_cost_limit }
    ensures table { IfOk result (λ table. table ≡ drawn_table size top words.old var) }
    ensures words { OnOk result (words.new ≡ state_after words.old (table_words size)) }
{
    let partner = draw_below(words, var);
    let cells = draw_cells(alloc, words, u32::from(size) * u32::from(size), top)?;
    Ok(Table {
        scope: VarList::from_vec(vec![in alloc; VarId(partner), VarId(var)]?),
        sizes: SizeList::from_vec(vec![in alloc; size, size]?),
        cells,
    })
}

/// An earlier variable than `var`, chosen by the next word.
fn draw_below(words: &mut SplitMix64, var: u32) -> u32
    requires { 1 ≤ var }
    ensures partner { result ≡ word_at words.old 0 % var }
    ensures words { words.new ≡ state_after words.old 1 }
{
    (words.next_word() % u64::from(var)) as u32
}

/// `count` cells from 0 to `top`.
fn draw_cells(
    alloc: Global,
    words: &mut SplitMix64,
    count: u32,
    top: u64,
) -> Result<CellList, NoMemory>
    requires { top ≤ made_cost_limit }
    ensures cells { IfOk result (λ cells. cells ≡ drawn_cells top words.old count) }
    ensures words { OnOk result (words.new ≡ state_after words.old count) }
{
    let mut cells = Vec::with_capacity(alloc, count as usize)?;
    for _ in 0..count {
        cells.push(words.next_word() % (top + 1))?;
    }
    CellList::shared(alloc, cells)
}
