//! Faults that a test asks for on a stream in memory.

ghost use Rattle.std.specs.Prelude.{◌≡◌, IfOk};
ghost use Rattle.wire_pump.specs.Memory.{names_end, polls_of, alters_of, altered};

use dcop_base::NoMemory;
use std::alloc::Global;

/// Makes one poll of one end of a pair fail. Pairs count from 0. The polls of an end, reads and
/// writes together, also count from 0.
#[derive(Clone, Copy, Debug, PartialEq, Eq)]
pub struct PollFail {
    /// The number of the pair, in the order in which pairs were made.
    pub pair: u32,
    /// Whether it is the first of the two ends.
    pub first_end: bool,
    /// The number of the poll that fails, at that end.
    pub poll: u64,
}

/// Replaces one byte of one direction of a pair. Pairs, and the positions in a direction, count
/// from 0.
#[derive(Clone, Copy, Debug, PartialEq, Eq)]
pub struct Alter {
    /// The number of the pair, in the order in which pairs were made.
    pub pair: u32,
    /// Whether it is the direction from the first end to the second.
    pub from_first: bool,
    /// The position of the byte among those sent in that direction.
    pub place: u64,
    /// The byte that goes out instead.
    pub byte: u8,
}

// Whether this end of this pair is the one that is named.
fn names_end(pair: u64, is_first: bool, named: u32, named_first: bool) -> bool
    ensures { result ≡ names_end pair is_first named named_first }
{
    if u64::from(named) != pair {
        return false;
    }
    if named_first { is_first } else { !is_first }
}

/// The numbers of the polls of this end that are to fail. It takes memory.
pub(crate) fn polls_of(
    alloc: Global,
    polls: &[PollFail],
    pair: u64,
    is_first: bool,
) -> Result<Vec<u64>, NoMemory>
    ensures { IfOk result (λ found. found.items ≡ polls_of pair is_first polls.now) }
{
    let mut found = Vec::new(alloc);
    for fail in polls {
        if names_end(pair, is_first, fail.pair, fail.first_end) {
            found.push(fail.poll)?;
        }
    }
    Ok(found)
}

/// The changes to the bytes that this end sends. It takes memory.
pub(crate) fn alters_of(
    alloc: Global,
    alters: &[Alter],
    pair: u64,
    is_first: bool,
) -> Result<Vec<Alter>, NoMemory>
    ensures { IfOk result (λ found. found.items ≡ alters_of pair is_first alters.now) }
{
    let mut found = Vec::new(alloc);
    for alter in alters {
        if names_end(pair, is_first, alter.pair, alter.from_first) {
            found.push(*alter)?;
        }
    }
    Ok(found)
}

/// The byte that goes out at this position instead of `byte`.
pub(crate) fn altered(alters: &[Alter], place: u64, byte: u8) -> u8
    ensures { result ≡ altered alters.now place byte }
{
    for alter in alters {
        if alter.place == place {
            return alter.byte;
        }
    }
    byte
}
