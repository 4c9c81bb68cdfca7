//! A log of one event.

use dcop_base::{Sequence, VarId};
use problem_text::Names;
use protocol_steps::Take;
use run_log::{Log, LogEvent, read_log, write_log};
use std::test::Fail;

/// Agent x takes two messages of y.
const TEXT: &[u8] = b"event x 1 y 2\n";

#[test]
fn a_log_is_written_and_read_again(rt: HostRuntime) -> Result<(), Fail> {
    let mut names = Names::new(rt.alloc());
    names.push("x")?;
    names.push("y")?;
    let take = Take {
        from: VarId(1),
        count: 2,
    };
    let takes = Vec::from_slice(rt.alloc(), &[take])?;
    let mut events = Vec::new(rt.alloc());
    events.push(LogEvent {
        agent: VarId(0),
        stamp: 1,
        takes: Sequence::from_vec(takes),
    })?;
    let log = Log::from_vec(events);
    let written = write_log(rt.alloc(), &log, &names)?;
    assert!(rt; written.as_slice() == TEXT);
    let read = read_log(rt.alloc(), TEXT, &names)?;
    assert!(rt; read.as_slice().len() == 1);
    Ok(())
}
