//! Laws of whole streams. Each is the contract of a function that does nothing: a proof that needs
//! the law calls it.

ghost use Rattle.wire_frames.specs.Run.{ReadsWhole, TakesOn, HandsOn, SplitsOnce};

/// However a stream is cut into pieces, the payloads that were handed out and those that are still
/// held are its whole frames, in order, up to the first length field above the limit. The reader's
/// rest is the rest of the stream, and its place is the position of that rest. A piece does not
/// count if its feed ran out of memory, nor does any piece after the first one that met a length
/// field above the limit.
pub fn reads_whole()
    ensures { ReadsWhole }
{}

/// If a reader has read a stream and takes a piece, it has read the longer stream.
pub fn takes_on()
    ensures { TakesOn }
{}

/// If a reader has read a stream and hands out a payload, it has handed out one payload more of it.
pub fn hands_on()
    ensures { HandsOn }
{}

/// A stream can be split into payloads and a rest in only one way.
pub fn splits_once()
    ensures { SplitsOnce }
{}
