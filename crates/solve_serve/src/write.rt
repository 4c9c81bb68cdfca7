//! Writing a frame whole.

ghost use Rattle.std.specs.Prelude.{◌≡◌, true, OnOk, OnErr, ℕ, ◌≤◌, length, take};
ghost use Rattle.dcop_edge.specs.Faults.{HasCause};
ghost use Rattle.dcop_edge.specs.Sink.{Adds};

use dcop_edge::{Failed, Sink};

/// Writes all bytes and hands them on. If the sink fails, a prefix of them was written.
pub fn write_all<K: Sink>(sink: &mut K, bytes: &[u8]) -> Result<(), Failed>
    ensures written { OnOk result (Adds (K.held sink.old) bytes.now (K.held sink.new)) }
    ensures finished { OnOk result (K.finished sink.new ≡ true) }
    ensures prefix { OnErr result ((count : ℕ) × (count ≤ length bytes.now) × Adds (K.held sink.old) (take count bytes.now) (K.held sink.new)) }
    ensures cause { HasCause (K.faults sink.old) (K.faults sink.new) result }
{
    let mut at = 0;
    while at < bytes.len() {
        at += sink.write(&bytes[at..])?;
    }
    sink.finish()
}
