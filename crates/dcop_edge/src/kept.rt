//! Bytes kept in memory as long as there is room for them, and only counted after that.

ghost use Rattle.std.specs.Prelude.{◌≡◌, ◌<◌, ◌≤◌, ◌+◌, ◌++◌, length, nat_le, vec_len, vec_capacity};
ghost use Rattle.std.specs.Bool.{OnTrue, OnFalse};
ghost use Rattle.dcop_edge.specs.Memory.{kept_whole, held_within};
ghost use Rattle.dcop_edge.specs.Sink.{Adds};

/// The bytes that were written to a sink in memory. From the first write that is not kept, bytes
/// are only counted, in a counter that stops at its limit.
#[derive(Drop)]
pub(crate) struct Kept {
    pub(crate) bytes: Vec<u8>,
    pub(crate) missing: u64,
    pub(crate) room: usize,
    ghost within: { vec_len bytes ≤ room },
}

impl Kept {
    /// Adds the bytes, or counts them if they do not fit into the room or memory runs out.
    pub(crate) fn add(&mut self, more: &[u8])
        ensures added { Adds (kept_whole self.old.bytes.items self.old.missing) more.now
            (kept_whole self.new.bytes.items self.new.missing) }
        ensures exact { self.old.room ≤ vec_capacity self.old.bytes →
            kept_whole self.new.bytes.items self.new.missing
            ≡ held_within self.old.room (kept_whole self.old.bytes.items self.old.missing) more.now }
        ensures room { self.new.room ≡ self.old.room }
        ensures capacity { vec_capacity self.old.bytes ≤ vec_capacity self.new.bytes }
    {
        if self.missing == 0 && extend_within(&mut self.bytes, more, self.room) {
            return;
        }
        self.missing = self.missing.saturating_add(more.len() as u64);
    }
}

// Adds the bytes if all of them fit into the room and memory does not run out. Returns whether it
// added them.
fn extend_within(bytes: &mut Vec<u8>, more: &[u8], room: usize) -> bool
    requires { vec_len bytes.old ≤ room }
    ensures kept { OnTrue result (bytes.new.items ≡ bytes.old.items ++ more.now) }
    ensures unchanged { OnFalse result (bytes.new.items ≡ bytes.old.items) }
    ensures some { OnFalse result (0 < length more.now) }
    ensures exact { room ≤ vec_capacity bytes.old →
        result ≡ nat_le (vec_len bytes.old + length more.now) room }
    ensures within { vec_len bytes.new ≤ room }
    ensures capacity { vec_capacity bytes.old ≤ vec_capacity bytes.new }
{
    more.len() <= room - bytes.len() && bytes.extend_from_slice(more).is_ok()
}
