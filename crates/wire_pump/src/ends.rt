//! Both ends of a stream, with what is to go in each direction.

ghost use Rattle.std.specs.Prelude.{◌≡◌, ◌<◌, ◌≤◌, vec_len, IfOk, IfErr};
ghost use Rattle.std.specs.Bool.{OnTrue, OnFalse};
ghost use Rattle.futures.specs.Task.{IsArmed, Keeps};
ghost use Rattle.wire_pump.specs.Wire.{Reach};

use crate::lane::{receive, send};
use crate::wire::Wire;
use dcop_base::{Bytes, NoMemory};
use dcop_edge::Failed;
use futures::task::Context;
use std::alloc::Global;

/// One direction: the bytes to send, how many of them were sent, a buffer of the same length, and
/// how many bytes were received into it at the other end.
#[derive(Drop)]
pub(crate) struct Lane {
    pub(crate) bytes: Vec<u8>,
    pub(crate) went: usize,
    pub(crate) buffer: Vec<u8>,
    pub(crate) came: usize,
    ghost sent: { went ≤ vec_len bytes },
    ghost received: { came ≤ vec_len buffer },
    ghost room: { vec_len buffer ≡ vec_len bytes },
}

impl Lane {
    ghost use Rattle.wire_pump.specs.Lane.{AfterSend, AfterReceive};

    /// Nothing of these bytes was sent. It takes memory.
    pub(crate) fn new(alloc: Global, bytes: Bytes) -> Result<Lane, NoMemory>
        ensures { IfOk result (λ l. (l.bytes.items ≡ bytes) × (l.went ≡ 0) × (l.came ≡ 0)) }
    {
        let bytes = bytes.into_vec();
        let buffer = vec![in alloc; 0; bytes.len()]?;
        Ok(Lane {
            bytes,
            went: 0,
            buffer,
            came: 0,
        })
    }

    // Sends what is left, until the wire takes no more now.
    fn send<W: Wire>(&mut self, wire: &mut W, cx: &mut Context<'_>) -> Result<(), Failed>
        ensures sent { AfterSend (W.told wire.old) self.old.bytes.items self.old.went result (W.told wire.new) self.new.went }
        ensures same { (self.new.bytes ≡ self.old.bytes) × (self.new.buffer ≡ self.old.buffer) × (self.new.came ≡ self.old.came) }
        ensures joined { (w : W) → W.is_joined wire.old w → W.is_joined wire.new w }
        ensures joins { (w : W) → W.is_joined w wire.old → W.is_joined w wire.new }
        ensures registered { IfOk result (λ done. self.new.went < vec_len self.new.bytes → IsArmed cx.new) }
        ensures kept { Keeps cx.old cx.new }
    {
        send(wire, cx, &self.bytes, &mut self.went)
    }

    // Receives what is left, until the wire has no more now.
    fn receive<W: Wire>(&mut self, wire: &mut W, cx: &mut Context<'_>) -> Result<(), Failed>
        ensures received { AfterReceive (W.told wire.old) self.old.buffer.items self.old.came result (W.told wire.new) self.new.buffer.items self.new.came }
        ensures same { (self.new.bytes ≡ self.old.bytes) × (self.new.went ≡ self.old.went) }
        ensures joined { (w : W) → W.is_joined wire.old w → W.is_joined wire.new w }
        ensures joins { (w : W) → W.is_joined w wire.old → W.is_joined w wire.new }
        ensures registered { IfOk result (λ done. self.new.came < vec_len self.new.bytes → IsArmed cx.new) }
        ensures kept { Keeps cx.old cx.new }
    {
        receive(wire, cx, &mut self.buffer, &mut self.came)
    }
}

/// Both ends, and the two directions: `there` from the first to the second, and `back`.
#[derive(Drop)]
pub(crate) struct Ends<W: Drop> {
    pub(crate) first: W,
    pub(crate) second: W,
    pub(crate) there: Lane,
    pub(crate) back: Lane,
}

impl<W: Wire> Ends<W> {
    ghost use Rattle.wire_pump.specs.Ends.{IsLater, Waits, HasEnded, IsOpen, IsOpenOnly, FailsAt};

    /// Sends and receives at both ends, until the wires go no further now.
    pub(crate) fn pass(&mut self, cx: &mut Context<'_>) -> Result<(), Failed>
        ensures later { IfOk result (λ done. IsLater W.told self.old self.new) }
        ensures waits { IfOk result (λ done. Waits W.told self.old self.new) }
        ensures failed { IfErr result (λ failed. FailsAt W.told self.old self.new) }
        ensures joined { W.is_joined self.old.first self.old.second → W.is_joined self.new.first self.new.second }
        ensures reach { W.is_joined self.old.first self.old.second
            → IfOk result (λ done. Reach (W.told self.new.first) (W.told self.new.second)) }
        ensures registered { IfOk result (λ done. IsOpenOnly self.new (IsArmed cx.new)) }
        ensures kept { Keeps cx.old cx.new }
    {
        self.there.send(&mut self.first, cx)?;
        self.back.send(&mut self.second, cx)?;
        self.first.beside(&mut self.second);
        self.there.receive(&mut self.second, cx)?;
        self.back.receive(&mut self.first, cx)?;
        self.first.beside(&mut self.second);
        Ok(())
    }

    /// Whether all bytes were sent and as many were received, in both directions.
    pub(crate) fn is_done(&self) -> bool
        ensures done { OnTrue result (HasEnded self.now) }
        ensures open { OnFalse result (IsOpen self.now) }
    {
        if self.there.went < self.there.bytes.len() || self.back.went < self.back.bytes.len() {
            return false;
        }
        self.there.came == self.there.bytes.len() && self.back.came == self.back.bytes.len()
    }
}
