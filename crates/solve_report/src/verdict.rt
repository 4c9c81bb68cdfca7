//! The text of a verdict.

ghost use Rattle.std.specs.Prelude.{◌≡◌, ◌∷◌, ◌++◌, ◌<◌, [], length, codes, OnOk, IfOk};
ghost use Rattle.std.specs.List.{flat_map};
ghost use Rattle.std.specs.Fmt.{decimal};
ghost use Rattle.std.specs.String.{string_bytes};
ghost use Rattle.certificate_text.specs.declared.verdict.Verdict.TheVariants.{Yes, No};
ghost use Rattle.solve_report.specs.Verdict.{IsNamedFault, IsNamedDifference, IsNamedVerdict};
ghost use Rattle.solve_report.specs.Verdict.{name_in, left_right, fault_words, scope_words, cell_words, difference_words, verdict_text};

use crate::refusal::bytes_of;
use certificate_text::{Differs, Verdict};
use dcop_base::{Bytes, NoMemory, Val, VarId};
use problem_text::Names;
use protocol_steps::EventFault;
use std::alloc::Global;

/// The text of a verdict: `status yes`, the cost and the gap, or `status no` and the line of what
/// differs, and then `end`.
pub(crate) fn write_verdict(
    alloc: Global,
    verdict: &Verdict,
    names: &Names,
) -> Result<Bytes, NoMemory>
    requires { IsNamedVerdict (length names.now) verdict.now }
    ensures { IfOk result (λ text. text ≡ verdict_text names.now verdict.now) }
{
    match verdict {
        Verdict::Yes { cost, error } => write_yes(alloc, *cost, *error),
        Verdict::No(differs) => write_no(alloc, names, differs),
    }
}

/// `status yes`, the cost, the gap and `end`.
fn write_yes(alloc: Global, cost: u64, error: u64) -> Result<Bytes, NoMemory>
    ensures { IfOk result (λ text. text ≡ verdict_text [] (Yes cost error)) }
{
    let mut text = String::new(alloc);
    write!(text, "status yes\ncost {cost}\nerror {error}\nend\n")?;
    Ok(bytes_of(text))
}

/// `status no`, the line of what differs and `end`.
fn write_no(alloc: Global, names: &Names, differs: &Differs) -> Result<Bytes, NoMemory>
    requires { IsNamedDifference (length names.now) differs.now }
    ensures { IfOk result (λ text. text ≡ verdict_text names.now (No differs.now)) }
{
    let mut text = String::from_str(alloc, "status no\ndiffers")?;
    write_difference(&mut text, names, differs)?;
    text.push_str("\nend\n")?;
    Ok(bytes_of(text))
}

/// The words for what differs, each after a space.
fn write_difference(text: &mut String, names: &Names, differs: &Differs) -> Result<(), NoMemory>
    requires { IsNamedDifference (length names.now) differs.now }
    ensures { OnOk result (string_bytes text.new
        ≡ string_bytes text.old ++ flat_map (λ word. 32 ∷ word) (difference_words names.now differs.now)) }
{
    match differs {
        Differs::TreeRoots { count } => Ok(write!(text, " tree roots {count}")?),
        Differs::TreeLoop { var } => write_tree_loop(text, name_of(names, *var)),
        Differs::TreePair { one, other } => write_tree_pair(text, names, *one, *other),
        Differs::Scope { var } => write_named(text, "scope", name_of(names, *var)),
        Differs::Cell {
            var,
            cell,
            value,
            left,
            right,
        } => write_cell(text, name_of(names, *var), *cell, *value, *left, *right),
        Differs::TurnScope { turn, var } => write_turn_scope(text, *turn, name_of(names, *var)),
        Differs::TurnCell {
            turn,
            var,
            cell,
            value,
            left,
            right,
        } => {
            write!(text, " turn {turn}")?;
            write_cell(text, name_of(names, *var), *cell, *value, *left, *right)
        }
        Differs::Cost { left, right } => write_sides(text, "cost", *left, *right),
        Differs::Root { left, right } => write_sides(text, "root", *left, *right),
        Differs::Lower { left, right } => write_sides(text, "lower", *left, *right),
        Differs::Upper { left, right } => write_sides(text, "upper", *left, *right),
        Differs::Error { left, right } => write_sides(text, "error", *left, *right),
        Differs::Deliveries { left, right } => write_sides(text, "deliveries", *left, *right),
        Differs::Status { ending } => write_named(text, "status", ending.word()),
        Differs::Event { at, fault } => write_event(text, names, *at, fault),
        Differs::Stamp { at, left, right } => write_stamp(text, *at, *left, *right),
        Differs::Value { var } => write_named(text, "value", name_of(names, *var)),
    }
}

/// `tree loop` and the name of a variable.
fn write_tree_loop(text: &mut String, name: &str) -> Result<(), NoMemory>
    ensures { OnOk result (string_bytes text.new ≡ string_bytes text.old
        ++ flat_map (λ word. 32 ∷ word) (codes "tree" ∷ codes "loop" ∷ name.now ∷ [])) }
{
    Ok(write!(text, " tree loop {name}")?)
}

/// `tree pair` and the names of two variables.
fn write_tree_pair(
    text: &mut String,
    names: &Names,
    one: VarId,
    other: VarId,
) -> Result<(), NoMemory>
    requires { (one < length names.now) × (other < length names.now) }
    ensures { OnOk result (string_bytes text.new ≡ string_bytes text.old ++ flat_map (λ word. 32 ∷ word)
        (codes "tree" ∷ codes "pair" ∷ name_in names.now one ∷ name_in names.now other ∷ [])) }
{
    let one = name_of(names, one);
    let other = name_of(names, other);
    Ok(write!(text, " tree pair {one} {other}")?)
}

/// The number of a turn, `scope` and the name of a variable.
fn write_turn_scope(text: &mut String, turn: u64, name: &str) -> Result<(), NoMemory>
    ensures { OnOk result (string_bytes text.new ≡ string_bytes text.old
        ++ flat_map (λ word. 32 ∷ word) (codes "turn" ∷ decimal turn ∷ scope_words name.now)) }
{
    Ok(write!(text, " turn {turn} scope {name}")?)
}

/// The number of an event, and the words for what is wrong with it.
fn write_event(
    text: &mut String,
    names: &Names,
    at: u64,
    fault: &EventFault,
) -> Result<(), NoMemory>
    requires { IsNamedFault (length names.now) fault.now }
    ensures { OnOk result (string_bytes text.new ≡ string_bytes text.old
        ++ flat_map (λ word. 32 ∷ word) (codes "event" ∷ decimal at ∷ fault_words names.now fault.now)) }
{
    write!(text, " event {at}")?;
    write_fault(text, names, fault)
}

/// The words for what is wrong with an event, each after a space.
fn write_fault(text: &mut String, names: &Names, fault: &EventFault) -> Result<(), NoMemory>
    requires { IsNamedFault (length names.now) fault.now }
    ensures { OnOk result (string_bytes text.new
        ≡ string_bytes text.old ++ flat_map (λ word. 32 ∷ word) (fault_words names.now fault.now)) }
{
    match fault {
        EventFault::Nobody => Ok(text.push_str(" nobody")?),
        EventFault::Ended => Ok(text.push_str(" ended")?),
        EventFault::Nothing => Ok(text.push_str(" nothing")?),
        EventFault::Order => Ok(text.push_str(" order")?),
        EventFault::TooMany { from, asked, there } => {
            text.push_str(" too-many")?;
            write_sides(text, name_of(names, *from), *asked, *there)
        }
    }
}

/// The number of an event, and the number on the left and the one on the right.
fn write_stamp(text: &mut String, at: u64, left: u64, right: u64) -> Result<(), NoMemory>
    ensures { OnOk result (string_bytes text.new ≡ string_bytes text.old
        ++ flat_map (λ word. 32 ∷ word) (codes "stamp" ∷ left_right (decimal at) left right)) }
{
    Ok(write!(text, " stamp {at} left {left} right {right}")?)
}

/// The name of a variable.
fn name_of(names: &Names, var: VarId) -> &str
    requires { var < length names.now }
    ensures { result.now ≡ name_in names.now var }
{
    names.name(var)
}

/// The name of a table's variable, a cell and a value, and the number on the left and the one on
/// the right.
fn write_cell(
    text: &mut String,
    name: &str,
    cell: u64,
    value: Val,
    left: u64,
    right: u64,
) -> Result<(), NoMemory>
    ensures { OnOk result (string_bytes text.new ≡ string_bytes text.old
        ++ flat_map (λ word. 32 ∷ word) (cell_words name.now cell value left right)) }
{
    let value = value.0;
    Ok(write!(
        text,
        " cell {name} {cell} {value} left {left} right {right}"
    )?)
}

/// A word, and the name after it.
fn write_named(text: &mut String, word: &str, name: &str) -> Result<(), NoMemory>
    ensures { OnOk result (string_bytes text.new
        ≡ string_bytes text.old ++ flat_map (λ word. 32 ∷ word) (word.now ∷ name.now ∷ [])) }
{
    Ok(write!(text, " {word} {name}")?)
}

/// A word, and the number on the left and the one on the right.
fn write_sides(text: &mut String, word: &str, left: u64, right: u64) -> Result<(), NoMemory>
    ensures { OnOk result (string_bytes text.new
        ≡ string_bytes text.old ++ flat_map (λ word. 32 ∷ word) (left_right word.now left right)) }
{
    Ok(write!(text, " {word} left {left} right {right}")?)
}
