//! One direction of a pump: sending and receiving until a wire goes no further now.

ghost use Rattle.std.specs.Prelude.{◌≡◌, ◌<◌, ◌≤◌, length, take, drop, IfOk};
ghost use Rattle.futures.specs.Poll.{OnPending};
ghost use Rattle.futures.specs.Task.{IsArmed, Keeps};
ghost use Rattle.wire_pump.specs.Wire.{AfterWrite, AfterRead};
ghost use Rattle.wire_pump.specs.Lane.{AfterSend, AfterReceive};

use crate::wire::Wire;
use dcop_edge::Failed;
use futures::task::{Context, Poll};

/// Sends the bytes from position `went` on, until all are sent or the wire takes no more now.
/// `went` is then how many were sent.
pub(crate) fn send<W: Wire>(
    wire: &mut W,
    cx: &mut Context<'_>,
    bytes: &[u8],
    went: &mut usize,
) -> Result<(), Failed>
    requires { went.old ≤ length bytes.now }
    ensures sent { AfterSend (W.told wire.old) bytes.now went.old result (W.told wire.new) went.new }
    ensures within { went.new ≤ length bytes.now }
    ensures joined { (w : W) → W.is_joined wire.old w → W.is_joined wire.new w }
    ensures joins { (w : W) → W.is_joined w wire.old → W.is_joined w wire.new }
    ensures registered { IfOk result (λ done. went.new < length bytes.now → IsArmed cx.new) }
    ensures kept { Keeps cx.old cx.new }
{
    while *went < bytes.len() {
        match write_at(wire, cx, bytes, *went) {
            Poll::Ready(Ok(count)) => *went += count,
            Poll::Ready(Err(failed)) => return Err(failed),
            Poll::Pending => return Ok(()),
        }
    }
    Ok(())
}

/// Receives bytes into the buffer from position `came` on, until it is full or the wire has no more
/// now. `came` is then how many were received.
pub(crate) fn receive<W: Wire>(
    wire: &mut W,
    cx: &mut Context<'_>,
    buffer: &mut [u8],
    came: &mut usize,
) -> Result<(), Failed>
    requires { came.old ≤ length buffer.old }
    ensures received { AfterReceive (W.told wire.old) buffer.old came.old result (W.told wire.new) buffer.new came.new }
    ensures within { (came.new ≤ length buffer.old) × (length buffer.new ≡ length buffer.old) }
    ensures joined { (w : W) → W.is_joined wire.old w → W.is_joined wire.new w }
    ensures joins { (w : W) → W.is_joined w wire.old → W.is_joined w wire.new }
    ensures registered { IfOk result (λ done. came.new < length buffer.old → IsArmed cx.new) }
    ensures kept { Keeps cx.old cx.new }
{
    while *came < buffer.len() {
        match read_at(wire, cx, buffer, *came) {
            Poll::Ready(Ok(count)) => *came += count,
            Poll::Ready(Err(failed)) => return Err(failed),
            Poll::Pending => return Ok(()),
        }
    }
    Ok(())
}

// One poll for writing the bytes from position `at` on.
fn write_at<W: Wire>(
    wire: &mut W,
    cx: &mut Context<'_>,
    bytes: &[u8],
    at: usize,
) -> Poll<Result<usize, Failed>>
    requires { at ≤ length bytes.now }
    ensures written { AfterWrite (W.told wire.old) (drop at bytes.now) result (W.told wire.new) }
    ensures joined { (w : W) → W.is_joined wire.old w → W.is_joined wire.new w }
    ensures joins { (w : W) → W.is_joined w wire.old → W.is_joined w wire.new }
    ensures registered { OnPending result (IsArmed cx.new) }
    ensures kept { Keeps cx.old cx.new }
{
    let (_, rest) = bytes.split_at(at);
    wire.poll_write(cx, rest)
}

// One poll for reading into the buffer from position `at` on.
fn read_at<W: Wire>(
    wire: &mut W,
    cx: &mut Context<'_>,
    buffer: &mut [u8],
    at: usize,
) -> Poll<Result<usize, Failed>>
    requires { at ≤ length buffer.old }
    ensures given { AfterRead (W.told wire.old) (drop at buffer.old) (drop at buffer.new) result (W.told wire.new) }
    ensures front { take at buffer.new ≡ take at buffer.old }
    ensures length { length buffer.new ≡ length buffer.old }
    ensures joined { (w : W) → W.is_joined wire.old w → W.is_joined wire.new w }
    ensures joins { (w : W) → W.is_joined w wire.old → W.is_joined w wire.new }
    ensures registered { OnPending result (IsArmed cx.new) }
    ensures kept { Keeps cx.old cx.new }
{
    let (_, rest) = buffer.split_at_mut(at);
    wire.poll_read(cx, rest)
}
