//! Networks: what the words of a text mean.

ghost use Rattle.std.specs.Prelude.{◌≡◌, ◌≤◌, ◌<◌, None, length, IfOk};
ghost use Rattle.std.specs.List.{position};
ghost use Rattle.dcop_base.specs.Faults.{is_bad_size};
ghost use Rattle.dcop_base.specs.Limits.{variable_limit};
ghost use Rattle.wcsp_text.specs.Words.{words};
ghost use Rattle.wcsp_text.specs.Numbers.{place};
ghost use Rattle.wcsp_text.specs.Networks.{count_fault, sizes_read, body_read, named_read, network_read};
ghost use Rattle.wcsp_text.specs.Gives.{Gives};

use crate::fault::{Fault, WcspKind, fault_before};
use crate::function::{Function, functions_of};
use crate::number::next_number;
use crate::word::next_word;
use dcop_base::{MAX_SIZE, MAX_VARIABLES};
use problem_text::LineEnd;
use std::alloc::Global;
use std::marker::Model;

/// A network: the cost from which on an assignment is forbidden, the size of each variable, and the
/// functions.
#[derive(Debug, Drop)]
pub struct Network {
    pub top: u64,
    pub sizes: Vec<u16>,
    pub functions: Vec<Function>,
}

impl Model for Network {
    ghost use Rattle.wcsp_text.specs.Networks.{Network as TextNetwork};

    ghost Value = { TextNetwork };

    ghost view = { λ w. record { top = w.top; sizes = w.sizes.items; functions = w.functions.items } };
}

/// A network, and the text after its last word.
#[derive(Debug, Drop)]
pub struct ReadNetwork<'a> {
    pub network: Network,
    pub after: &'a [u8],
}

/// Sizes, and the text after them.
#[derive(Debug, Drop)]
struct ReadSizes<'a> {
    sizes: Vec<u16>,
    after: &'a [u8],
}

/// The network that a text begins with.
pub fn network_of(alloc: Global, text: &[u8]) -> Result<ReadNetwork<'_>, LineEnd<Fault>>
    ensures { Gives (λ r. (r.network, place r.after.now)) result (network_read (words text.now)) }
{
    match next_word(text) {
        Some((_, after)) => named_network(alloc, after),
        None => Err(LineEnd::Fault(Fault {
            after: 0,
            kind: WcspKind::NoEnd,
        })),
    }
}

/// The network that follows its name.
fn named_network(alloc: Global, text: &[u8]) -> Result<ReadNetwork<'_>, LineEnd<Fault>>
    ensures { Gives (λ r. (r.network, place r.after.now)) result (named_read (place text.now)) }
{
    let variables = next_number(text)?;
    if let Some(kind) = fault_of_count(variables.value) {
        return Err(fault_before(variables.after, kind));
    }
    let greatest_size = next_number(variables.after)?;
    let functions = next_number(greatest_size.after)?;
    let top = next_number(functions.after)?;
    body_of(
        alloc,
        top.value,
        variables.value,
        functions.value,
        top.after,
    )
}

/// What is wrong with a number of variables.
fn fault_of_count(variables: u64) -> Option<WcspKind>
    ensures { result ≡ count_fault variables }
{
    if variables == 0 {
        return Some(WcspKind::Problem { number: 1 });
    }
    if variables > MAX_VARIABLES as u64 {
        return Some(WcspKind::Problem { number: 10 });
    }
    None
}

/// The network with this top and these numbers of variables and functions. The text gives the rest.
fn body_of(
    alloc: Global,
    top: u64,
    variables: u64,
    functions: u64,
    text: &[u8],
) -> Result<ReadNetwork<'_>, LineEnd<Fault>>
    requires some { 0 < variables }
    requires few { variables ≤ variable_limit }
    ensures { Gives (λ r. (r.network, place r.after.now)) result
        (body_read top variables functions (place text.now)) }
{
    let ReadSizes { sizes, after } = sizes_in(alloc, variables, text)?;
    let read = functions_of(alloc, sizes.as_slice(), functions, after)?;
    Ok(ReadNetwork {
        network: Network {
            top,
            sizes,
            functions: read.functions,
        },
        after: read.after,
    })
}

/// The `count` sizes that a text begins with.
fn sizes_in(alloc: Global, count: u64, text: &[u8]) -> Result<ReadSizes<'_>, LineEnd<Fault>>
    ensures read { Gives (λ r. (r.sizes.items, place r.after.now)) result
        (sizes_read count (place text.now)) }
    ensures many { IfOk result (λ r. length r.sizes.items ≡ count) }
    ensures good { IfOk result (λ r. position is_bad_size r.sizes.items ≡ None) }
{
    let mut sizes = Vec::new(alloc);
    let mut rest = text;
    for _ in 0..count {
        let size = next_number(rest)?;
        if is_bad(size.value) {
            return Err(fault_before(size.after, WcspKind::Problem { number: 2 }));
        }
        sizes.push(size.value as u16)?;
        rest = size.after;
    }
    Ok(ReadSizes { sizes, after: rest })
}

/// Whether a number is not a domain size.
fn is_bad(size: u64) -> bool
    ensures { result ≡ is_bad_size size }
{
    size == 0 || size > MAX_SIZE as u64
}
