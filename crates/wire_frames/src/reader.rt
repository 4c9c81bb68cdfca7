//! A reader of frames.

ghost use Rattle.std.specs.Prelude.{◌≡◌, ◌≤◌, length};
ghost use Rattle.wire_frames.specs.Frame.{payload_limit, EndsAt};
ghost use Rattle.wire_frames.specs.Reader.{fresh, Feeds, Hands};

use crate::cut::cut;
use crate::fault::FrameFault;
use crate::payload::MAX_PAYLOAD;
use dcop_base::Bytes;
use std::alloc::Global;
use std::collections::VecDeque;
use std::marker::Model;

/// A reader of frames: it takes a stream in pieces and hands out the payloads of its frames.
/// Contracts see a record: the limit, the payloads that are held, the bytes after their frames (the
/// rest), the position of the rest in the stream, and whether the rest begins with a length field
/// above the limit.
#[derive(Debug, Drop)]
pub struct FrameReader {
    limit: u32,
    ready: VecDeque<Bytes>,
    rest: Vec<u8>,
    place: u64,
    stuck: bool,
}

impl Model for FrameReader {
    ghost use Rattle.std.specs.Prelude.{◌≤◌};
    ghost use Rattle.wire_frames.specs.Frame.{payload_limit, EndsAt};
    ghost use Rattle.wire_frames.specs.Reader.{Reader};

    ghost Value = { Reader };

    ghost view = { λ r. record { limit = r.limit; ready = r.ready.items; rest = r.rest.items; place = r.place; stuck = r.stuck } };

    ghost invariant = { λ r. (r.limit ≤ payload_limit) × EndsAt r.limit r.rest.items r.stuck };
}

impl FrameReader {
    /// A reader at the beginning of a stream. Its limit is [`MAX_PAYLOAD`].
    pub fn new(alloc: Global) -> FrameReader
        ensures { result ≡ fresh payload_limit }
    {
        FrameReader::with_limit(alloc, MAX_PAYLOAD)
    }

    /// A reader at the beginning of a stream, for payloads of at most `limit` bytes. The limit is
    /// at most [`MAX_PAYLOAD`].
    pub fn with_limit(alloc: Global, limit: u32) -> FrameReader
        requires { limit ≤ payload_limit }
        ensures { result ≡ fresh limit }
    {
        FrameReader {
            limit,
            ready: VecDeque::new(alloc),
            rest: Vec::new(alloc),
            place: 0,
            stuck: false,
        }
    }

    /// Takes the next piece of the stream, and holds the payloads of all frames that are now whole.
    ///
    /// # Errors
    ///
    /// - [`FrameFault::TooLong`] exactly when this piece or an earlier one has brought a length
    ///   field above the limit to the front of the rest. The first feed to answer it still holds
    ///   the whole frames before that field. Each later feed answers the same and changes nothing.
    /// - [`FrameFault::NoMemory`] if memory runs out; nothing changes.
    pub fn feed(&mut self, piece: &[u8]) -> Result<(), FrameFault>
        ensures fed { Feeds self.old piece.now result self.new }
        ensures ends { EndsAt self.new.limit self.new.rest self.new.stuck }
    {
        if self.stuck {
            return Err(FrameFault::TooLong { place: self.place });
        }
        let end = cut(self.limit, &mut self.rest, &mut self.ready, piece)?;
        let place = self.place.saturating_add(end.place as u64);
        self.place = place;
        self.stuck = end.is_too_long;
        if self.stuck {
            return Err(FrameFault::TooLong { place: self.place });
        }
        Ok(())
    }

    /// Hands out the first payload that is held; `None` exactly when none is held.
    pub fn next(&mut self) -> Option<Bytes>
        ensures handed { Hands self.old result self.new }
        ensures ends { EndsAt self.new.limit self.new.rest self.new.stuck }
    {
        self.ready.pop_front()
    }

    /// How many bytes follow the whole frames. They are part of a frame; or, after a length field
    /// above the limit, they are all bytes from that field to the end of the piece that completed
    /// it.
    pub fn rest(&self) -> u64
        ensures { result ≡ length self.now.rest }
    {
        self.rest.len() as u64
    }
}
