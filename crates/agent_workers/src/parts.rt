//! Parts of a list that are played concurrently.

ghost use Rattle.std.specs.Prelude.{◌≡◌, ◌≤◌, ◌<◌, ◌+◌, ◌*◌, ◌++◌, length, IfOk};
ghost use Rattle.std.specs.Thread.{IsSync, IsSend};
ghost use Rattle.dcop_base.specs.Limits.{count_limit};
ghost use Rattle.agent_workers.specs.Turns.{sprint_limit};
ghost use Rattle.agent_workers.specs.Parts.{both_of, AcceptsParts, IsCall, TakesRoundShare, IsPlayedByParts};

use agent_cells::VisitFault;
use std::marker::{Send, Sync};
use std::thread::{Threads, join_mut};

/// Plays the parts of a list concurrently. Each part has `size` elements, but the last may have
/// fewer. The first `busy` parts may have something to do; those after them are played one after
/// another, in one thread.
#[cycle(parts)]
pub(crate) fn play_parts<
    R: Threads + Sync,
    T: Send,
    F: Fn(&mut [T]) -> Result<u64, VisitFault> + Sync,
>(rt: &R, play: &F, size: usize, busy: usize, all: &mut [T]) -> Result<u64, VisitFault>
    requires size { 0 < size }
    requires accepts { AcceptsParts F.Fn play.now all.old }
    requires few { TakesRoundShare F.Fn play.now }
    requires within { length all.old * sprint_limit ≤ count_limit }
    ensures parts { IsPlayedByParts F.Fn play.now size all.old result all.new }
    ensures whole { length all.old ≤ size → IsCall F.Fn play.now all.old result all.new }
    ensures few { IfOk result (λ n. n ≤ length all.old * sprint_limit) }
{
    if all.len() <= size {
        return play_one(play, all);
    }
    let (part, others) = all.split_at_mut(size);
    if busy > 0 {
        return play_beside(rt, play, size, busy - 1, part, others);
    }
    let first = play_one(play, part);
    let rest = play_parts(rt, play, size, 0, others);
    both(first, rest)
}

/// Plays a part, and concurrently the parts after it, whose first `busy` may have something to do.
#[cycle(parts)]
fn play_beside<R: Threads + Sync, T: Send, F: Fn(&mut [T]) -> Result<u64, VisitFault> + Sync>(
    rt: &R,
    play: &F,
    size: usize,
    busy: usize,
    part: &mut [T],
    others: &mut [T],
) -> Result<u64, VisitFault>
    requires size { 0 < size }
    requires part { length part.old ≡ size }
    requires others { 0 < length others.old }
    requires accepts { AcceptsParts F.Fn play.now (part.old ++ others.old) }
    requires few { TakesRoundShare F.Fn play.now }
    requires within { (length part.old + length others.old) * sprint_limit ≤ count_limit }
    ensures parts { IsPlayedByParts F.Fn play.now size (part.old ++ others.old) result (part.new ++ others.new) }
    ensures few { IfOk result (λ n. n ≤ (length part.old + length others.old) * sprint_limit) }
{
    let mut first = || -> Result<u64, VisitFault>
        requires { (p : _) → p.now ≡ part.now → F.pre play.now p }
        ensures { IsCall F.Fn play.entry.now part.entry.now result part.exit.now }
    { play_one(play, part) };
    let mut rest = || -> Result<u64, VisitFault>
        requires { IsSync R.row × IsSync F.row × IsSend T.row × (0 < size) × AcceptsParts F.Fn play.now others.now × TakesRoundShare F.Fn play.now × (length others.now * sprint_limit ≤ count_limit) }
        ensures parts { IsPlayedByParts F.Fn play.entry.now size others.entry.now result others.exit.now }
        ensures few { IfOk result (λ n. n ≤ length others.entry.now * sprint_limit) }
    { play_parts(rt, play, size, busy, others) };
    let (first, rest) = join_mut(rt, &mut first, &mut rest);
    both(first, rest)
}

/// Plays one part.
fn play_one<T: Send, F: Fn(&mut [T]) -> Result<u64, VisitFault> + Sync>(
    play: &F,
    part: &mut [T],
) -> Result<u64, VisitFault>
    requires { (p : _) → p.now ≡ part.old → F.pre play.now p }
    ensures { IsCall F.Fn play.now part.old result part.new }
{
    play(part)
}

/// The joint result of two parts: how many messages they took together, or a fault of one of them.
/// If both have failed, out of memory comes before the end of the stamps.
fn both(first: Result<u64, VisitFault>, rest: Result<u64, VisitFault>) -> Result<u64, VisitFault>
    requires fits { IfOk first (λ m. IfOk rest (λ n. m + n ≤ count_limit)) }
    ensures { result ≡ both_of first rest }
{
    match (first, rest) {
        (Ok(first), Ok(rest)) => Ok(first + rest),
        (Err(VisitFault::StampEnd), Err(fault)) => Err(fault),
        (Err(fault), _) | (Ok(_), Err(fault)) => Err(fault),
    }
}
