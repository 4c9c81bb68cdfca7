//! The part of the links that has something to send.

ghost use Rattle.std.specs.Prelude.{◌≡◌, ◌↔◌, [], true, IfOk, OnOk};
ghost use Rattle.std.specs.List.{All};
ghost use Rattle.node_exchange.specs.Letters.{IsLetter};
ghost use Rattle.node_exchange.specs.Passings.{letters_of, frames_of};
ghost use Rattle.node_exchange.specs.Busy.{IsBusyPart};

use crate::passing::LinkPassing;
use crate::write::write_letters;
use dcop_base::{Bytes, NoMemory};
use std::alloc::Global;

/// A range of links outside which nothing was drained: its first position, and the position after
/// its last. In most exchanges it has one link of many, so that the pairs of nodes need not look at
/// all links.
pub(crate) fn busy_part(passings: &[LinkPassing]) -> (usize, usize)
    ensures { IsBusyPart passings.now result.0 result.1 }
{
    let (mut start, mut end) = (0, 0);
    for (place, passing) in passings.iter().enumerate() {
        if !is_idle(passing) {
            if start == end {
                start = place;
            }
            end = place + 1;
        }
    }
    (start, end)
}

/// Whether nothing was drained of a link.
fn is_idle(passing: &LinkPassing) -> bool
    ensures { (result ≡ true) ↔ (passing.now.drained ≡ []) }
{
    passing.drained().is_empty()
}

/// [`write_letters`], when nothing was drained outside this range. It looks at no link outside.
pub(crate) fn write_part(
    alloc: Global,
    passings: &[LinkPassing],
    part: (usize, usize),
    from_node: u32,
    to_node: u32,
) -> Result<Bytes, NoMemory>
    requires { IsBusyPart passings.now part.0 part.1 }
    ensures frames { IfOk result (λ bytes. bytes ≡ frames_of from_node to_node passings.now) }
    ensures letters { OnOk result (All IsLetter (letters_of from_node to_node passings.now)) }
{
    write_letters(alloc, &passings[part.0..part.1], from_node, to_node)
}
