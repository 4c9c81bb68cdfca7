//! A network that is read and written, and one that is refused.

use problem_text::write_problem;
use std::alloc::Global;
use std::process::Abort;
use std::test::Fail;
use wcsp_text::{ReadWcsp, WcspFault, WcspKind, read_wcsp};

// Checks that a network is read to this bar, with all of its bytes, and is then written as this
// problem.
fn see_network(
    rt: &impl Abort,
    alloc: Global,
    text: &[u8],
    least: u64,
    want: &[u8],
) -> Result<(), Fail> {
    let ReadWcsp { file, bar, used } = read_wcsp(alloc, text)?;
    assert!(rt; bar == least);
    assert!(rt; used == text.len());
    let written = write_problem(alloc, &file)?;
    assert!(rt; written.as_slice() == want);
    Ok(())
}

// Whether the network is refused since a number on this line is none.
fn has_bad_number(alloc: Global, text: &[u8], number: u64) -> bool {
    match read_wcsp(alloc, text) {
        Err(WcspFault::Bad { line, kind }) => line == number && kind == WcspKind::BadNumber,
        _ => false,
    }
}

#[test]
fn network_is_read(rt: HostRuntime) -> Result<(), Fail> {
    let text = b"t 2 2 1 10\n2 2\n2 0 1 0 1\n1 1 10\n";
    let want = b"dcop 2\nvar v0 2\nvar v1 2\ntable v0 v1 : 0 0 0 1\nend\n";
    see_network(&rt, rt.alloc(), text, 1, want)
}

#[test]
fn minus_is_no_number(rt: HostRuntime) {
    let text = b"t 2 2 1 10\n2 2\n2 0 1 -1 1\n1 1 10\n";
    assert!(rt; has_bad_number(rt.alloc(), text, 3));
}
