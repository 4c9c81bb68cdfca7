//! Sources and sinks that fail, and a sink without room.

use dcop_edge::{Failed, MemorySink, MemorySource, Sink, Source, StdSink, SteadySink};
use std::test::Fail;

// Whether the next read of the source gives this many bytes or fails, and the block is then this.
fn gives<S: Source>(
    source: &mut S,
    block: &mut [u8],
    count: Result<usize, Failed>,
    then: &[u8],
) -> bool {
    source.read(block) == count && *block == *then
}

// Whether the next write to the sink takes this many of these bytes or fails.
fn takes<K: Sink>(sink: &mut K, bytes: &[u8], count: Result<usize, Failed>) -> bool {
    sink.write(bytes) == count
}

#[test]
fn source_fails_at_its_second_call(rt: HostRuntime) -> Result<(), Fail> {
    let bytes = Vec::from_slice(rt.alloc(), b"agents")?;
    let fails = Vec::from_slice(rt.alloc(), &[1])?;
    let mut source = MemorySource::new(bytes, fails);
    let mut block = [0; 4];
    assert!(rt; gives(&mut source, &mut block, Ok(4), b"agen"));
    // A failed read changes nothing.
    assert!(rt; gives(&mut source, &mut block, Err(Failed), b"agen"));
    assert!(rt; gives(&mut source, &mut block, Ok(2), b"tsen"));
    assert!(rt; gives(&mut source, &mut block, Ok(0), b"tsen"));
    Ok(())
}

#[test]
fn sink_fails_at_its_first_and_third_call(rt: HostRuntime) -> Result<(), Fail> {
    let fails = Vec::from_slice(rt.alloc(), &[0, 2])?;
    let mut sink = MemorySink::new(rt.alloc(), fails);
    assert!(rt; takes(&mut sink, b"lost", Err(Failed)));
    assert!(rt; takes(&mut sink, b"kept", Ok(4)));
    assert!(rt; sink.finish().is_err());
    assert!(rt; sink.finish().is_ok());
    assert!(rt; *sink.bytes() == *b"kept".as_slice());
    Ok(())
}

#[test]
fn sink_keeps_what_fits_its_room(rt: HostRuntime) -> Result<(), Fail> {
    let mut sink = SteadySink::with_room(rt.alloc(), 4)?;
    assert!(rt; takes(&mut sink, b"kept", Ok(4)));
    assert!(rt; *sink.bytes() == *b"kept".as_slice());
    Ok(())
}

#[test]
fn refused_write_is_a_fault(rt: HostRuntime) {
    let mut room = [0; 2];
    let mut sink = StdSink::new(room.as_mut_slice());
    assert!(rt; takes(&mut sink, b"no", Ok(2)));
    assert!(rt; takes(&mut sink, b"more", Err(Failed)));
}
