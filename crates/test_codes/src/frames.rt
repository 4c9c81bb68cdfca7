//! A frame in two pieces.

use std::alloc::Global;
use std::process::Abort;
use std::test::Fail;
use wire_frames::{FrameReader, frame};

// Whether the next frame that the reader has read has this payload.
fn has_next(reader: &mut FrameReader, payload: &[u8]) -> bool {
    match reader.next() {
        Some(next) => next.as_slice() == payload,
        None => false,
    }
}

// Checks that two pieces of a frame of this payload are read as that payload, and only then.
fn see_pieces(
    rt: &impl Abort,
    alloc: Global,
    first: &[u8],
    second: &[u8],
    payload: &[u8],
) -> Result<(), Fail> {
    let mut reader = FrameReader::new(alloc);
    reader.feed(first)?;
    assert!(rt; reader.rest() == first.len() as u64);
    assert!(rt; reader.next().is_none());
    reader.feed(second)?;
    assert!(rt; reader.rest() == 0);
    assert!(rt; has_next(&mut reader, payload));
    Ok(())
}

#[test]
fn a_frame_is_read_wherever_it_is_cut(rt: HostRuntime) -> Result<(), Fail> {
    let bytes = frame(rt.alloc(), b"abc")?;
    let bytes = bytes.as_slice();
    for cut in 0..bytes.len() {
        see_pieces(&rt, rt.alloc(), &bytes[..cut], &bytes[cut..], b"abc")?;
    }
    Ok(())
}
