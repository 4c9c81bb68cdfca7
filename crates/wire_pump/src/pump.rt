//! The pump: a future over both ends of a stream.

ghost use Rattle.std.specs.Prelude.{◌≡◌, IsSome, IfSome, IfOk};
ghost use Rattle.futures.specs.Poll.{IfReady, OnPending};
ghost use Rattle.futures.specs.Task.{IsArmed, Covers, Keeps};

use crate::ends::{Ends, Lane};
use crate::wire::Wire;
use dcop_base::{Bytes, NoMemory};
use futures::Future;
use futures::task::{Context, Poll};
use std::alloc::Global;

/// What a pump gives when it is done: both wires, and the bytes that were received at each. They
/// are as many as were given to the other.
#[derive(Drop)]
pub struct Pumped<W: Drop> {
    /// The first wire.
    pub first: W,
    /// The second wire.
    pub second: W,
    /// The bytes that were received at the second wire.
    pub at_second: Bytes,
    /// The bytes that were received at the first wire.
    pub at_first: Bytes,
}

/// A wire of the pump failed: its count of faults rose. It has both wires.
#[derive(Drop)]
pub struct PumpFail<W: Drop> {
    /// The first wire.
    pub first: W,
    /// The second wire.
    pub second: W,
}

/// A future that sends one list at each of two wires, and receives as many bytes at the other. Both
/// directions run in one task. Polling takes no memory. It must not be polled again after it is
/// ready.
#[derive(Drop)]
pub struct Pump<W: Drop> {
    pub(crate) state: Option<Ends<W>>,
}

impl<W: Wire> Pump<W> {
    ghost use Rattle.wire_pump.specs.Pump.{GivesFrom, EndsPump};

    /// A pump that sends `to_second` at the first wire and `to_first` at the second. It takes all
    /// its memory here, also that for the bytes to be received.
    ///
    /// # Errors
    ///
    /// [`NoMemory`] if memory runs out. The wires are gone.
    #[tactic(auto, using(crate::proofs::PumpLaws::new_gives))]
    pub fn new(
        alloc: Global,
        first: W,
        second: W,
        to_second: Bytes,
        to_first: Bytes,
    ) -> Result<Pump<W>, NoMemory>
        ensures ready { IfOk result (λ p. IsSome p.state) }
        ensures gives { IfOk result (λ p. (out : _) → IfSome p.state (λ e. GivesFrom W.told W.is_joined e out)
            → EndsPump W.told W.is_joined first second to_second to_first out) }
    {
        let there = Lane::new(alloc, to_second)?;
        let back = Lane::new(alloc, to_first)?;
        Ok(Pump {
            state: Some(Ends {
                first,
                second,
                there,
                back,
            }),
        })
    }
}

// The outcome of one poll of a pump: its end, or the state from which it goes on.
enum Turn<W: Drop> {
    Done(Result<Pumped<W>, PumpFail<W>>),
    Open(Ends<W>),
}

impl<W: Wire> Turn<W> {
    ghost use Rattle.wire_pump.specs.Turn.{AfterTurn, OnOpen};

    // Sends and receives until the wires go no further now.
    #[tactic(auto, using(crate::proofs::PumpLaws::armed))]
    fn take(mut ends: Ends<W>, cx: &mut Context<'_>) -> Turn<W>
        ensures turned { AfterTurn W.told W.is_joined ends result }
        ensures registered { OnOpen result (IsArmed cx.new) }
        ensures kept { Keeps cx.old cx.new }
    {
        if ends.pass(cx).is_err() {
            return Turn::Done(Err(PumpFail {
                first: ends.first,
                second: ends.second,
            }));
        }
        if ends.is_done() {
            return Turn::Done(Ok(hand_back(ends.first, ends.second, ends.there, ends.back)));
        }
        Turn::Open(ends)
    }
}

// Both wires, and what was received, once everything was.
fn hand_back<W: Wire>(first: W, second: W, there: Lane, back: Lane) -> Pumped<W>
    ensures wires { (result.first ≡ first) × (result.second ≡ second) }
    ensures bytes { (result.at_second ≡ there.buffer.items) × (result.at_first ≡ back.buffer.items) }
{
    Pumped {
        first,
        second,
        at_second: Bytes::from_vec(there.buffer),
        at_first: Bytes::from_vec(back.buffer),
    }
}

impl<W: Wire> Future for Pump<W> {
    ghost use Rattle.wire_pump.specs.Pump.{GivesFrom, WaitsSince};

    type Output = Result<Pumped<W>, PumpFail<W>>;

    ghost can_poll = { λ p. IsSome p.state };

    ghost gives = { λ p out. IfSome p.state (λ e. GivesFrom W.told W.is_joined e out) };

    #[tactic(auto, using(crate::proofs::PumpLaws::gives_back))]
    fn poll(&mut self, cx: &mut Context<'_>) -> Poll<Result<Pumped<W>, PumpFail<W>>>
        requires { IsSome self.old.state }
        ensures value { IfReady result
            (λ out. IfSome self.old.state (λ e. GivesFrom W.told W.is_joined e out)) }
        ensures again { OnPending result (IsSome self.new.state) }
        ensures same { OnPending result
            ((out : _) → IfSome self.new.state (λ e. GivesFrom W.told W.is_joined e out)
            → IfSome self.old.state (λ e. GivesFrom W.told W.is_joined e out)) }
        ensures registered { OnPending result (Covers cx.new (λ _. ⊥)) }
        ensures kept { Keeps cx.old cx.new }
        ensures waiting { OnPending result (WaitsSince W.told self.old.state self.new.state) }
    {
        match Turn::take(self.state.take().unwrap(), cx) {
            Turn::Done(out) => Poll::Ready(out),
            Turn::Open(ends) => {
                self.state = Some(ends);
                Poll::Pending
            }
        }
    }
}
