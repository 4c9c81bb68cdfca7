//! Concurrent calls that begin in the order of a list.

ghost use Rattle.std.specs.Prelude.{◌≡◌, ◌≤◌, ◌<◌, ◌+◌, ◌^◌, length};
ghost use Rattle.std.specs.Fork.{AcceptsAt, ChangesAt, AcceptsEach, ChangesEach};
ghost use Rattle.std.specs.Thread.{IsSend, IsSync};
ghost use Rattle.solve_serve.specs.Turns.{AcceptsFrom, ChangesFrom};

use crate::permit::Permits;
use std::marker::{Send, Sync};
use std::sync::Wait;
use std::thread::{Threads, join_mut};

/// Calls `call` with each place and its element, in the order of the list, each as soon as there is
/// a permit for it; the call gives the permit back. If no thread can be had, the calls are made one
/// after another.
pub(crate) fn each_in_order<R: Threads + Wait + Sync, T: Send, F: Fn(usize, &mut T) + Sync>(
    rt: &R,
    permits: &Permits,
    call: &F,
    items: &mut [T],
)
    requires accepts { AcceptsEach F.Fn call.now items.old }
    ensures { ChangesEach F.Fn call.now items.old items.new }
{
    each_from(rt, permits, call, 0, items);
}

/// [`each_in_order`] for the elements from this place on.
#[cycle(turns)]
fn each_from<R: Threads + Wait + Sync, T: Send, F: Fn(usize, &mut T) + Sync>(
    rt: &R,
    permits: &Permits,
    call: &F,
    place: usize,
    items: &mut [T],
)
    requires few { place + length items.old < 2 ^ 64 }
    requires accepts { AcceptsFrom F.Fn call.now place items.old }
    ensures { ChangesFrom F.Fn call.now place items.old items.new }
{
    if items.is_empty() {
        return;
    }
    let (own, rest) = items.split_at_mut(1);
    permits.take(rt);
    own_beside(rt, permits, call, place, own, place + 1, rest);
}

/// Calls with one element, for which there is a permit, in this thread, and with the elements after
/// it in another thread.
#[cycle(turns)]
fn own_beside<R: Threads + Wait + Sync, T: Send, F: Fn(usize, &mut T) + Sync>(
    rt: &R,
    permits: &Permits,
    call: &F,
    place: usize,
    own: &mut [T],
    next: usize,
    rest: &mut [T],
)
    requires one { length own.old ≡ 1 }
    requires own { AcceptsFrom F.Fn call.now place own.old }
    requires few { next + length rest.old < 2 ^ 64 }
    requires rest { AcceptsFrom F.Fn call.now next rest.old }
    ensures own { ChangesFrom F.Fn call.now place own.old own.new }
    ensures rest { ChangesFrom F.Fn call.now next rest.old rest.new }
{
    let mut behind = ||
        requires { IsSync R.row × IsSync F.row × IsSend T.row × (next + length rest.now < 2 ^ 64) × AcceptsFrom F.Fn call.now next rest.now }
        ensures { ChangesFrom F.Fn call.entry.now next rest.entry.now rest.exit.now }
    { each_from(rt, permits, call, next, rest) };
    let mut here = ||
        requires { (length own.now ≡ 1) × AcceptsFrom F.Fn call.now place own.now }
        ensures { ChangesFrom F.Fn call.entry.now place own.entry.now own.exit.now }
    { call_own(call, place, own) };
    join_mut(rt, &mut behind, &mut here);
}

/// Calls with the one element of a list.
fn call_own<T, F: Fn(usize, &mut T)>(call: &F, place: usize, own: &mut [T])
    requires one { length own.old ≡ 1 }
    requires accepts { AcceptsFrom F.Fn call.now place own.old }
    ensures { ChangesFrom F.Fn call.now place own.old own.new }
{
    let Some((item, _none)) = own.split_first_mut() else {
        return;
    };
    call_one(call, place, item);
}

/// Calls with one element.
fn call_one<T, F: Fn(usize, &mut T)>(call: &F, place: usize, item: &mut T)
    requires { AcceptsAt F.Fn call.now place item.old }
    ensures { ChangesAt F.Fn call.now place item.old item.new }
{
    call(place, item);
}
