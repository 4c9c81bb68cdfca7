//! The top call.

ghost use Rattle.std.specs.Prelude.{◌≡◌, ◌+◌, map, string_bytes};
ghost use Rattle.dcop_base.specs.Limits.{input_limit};
ghost use Rattle.answer_io.specs.Input.{Took, read_limit, source_state};
ghost use Rattle.answer_io.specs.Output.{sink_state};
ghost use Rattle.program_frame.specs.Working.{Works};
ghost use Rattle.trace_top.specs.Tracing.{trace_program};

use crate::answering::reply_to;
use dcop_base::NoMemory;
use dcop_edge::{Sink, Source};
use program_frame::{Status, show_reply};
use std::alloc::Global;

/// Answers these words, which are the arguments of the program: reads a problem and the report with
/// a log after it from the source, plays the log as a run of the ADOPT agents on the problem
/// solved, on its depth-first tree, writes the trace of that run to the sink, and gives the status.
///
/// Words, texts and faults are refused as by the program `dcop`, and so is an event that cannot
/// happen. At most 2^28 + 65,536 bytes are taken. Each read but the last takes at least one, and
/// reading stops with the first read that takes the total above 2^28.
///
/// A trace has each agent at its start, and the agent of each event that is asked for: what it
/// took, the state it reached and what it sent. Stamps are written as the log has them, but not
/// checked.
///
/// [`Status::ReadFault`] and [`Status::WriteFault`] come only if the source or the sink failed in
/// this call. With `WriteFault` a prefix of the answer is written. With [`Status::NoMemory`], when
/// memory runs out, nothing is written. Otherwise the whole answer is written, and the sink is
/// finished.
pub fn trace<S: Source, K: Sink>(
    alloc: Global,
    words: &[String],
    source: &mut S,
    sink: &mut K,
) -> Status
    ensures works { Works trace_program (map string_bytes words.now)
        (source_state (S.left source.old) (S.faults source.old) (S.gave source.old))
        (source_state (S.left source.new) (S.faults source.new) (S.gave source.new))
        (sink_state (K.held sink.old) (K.finished sink.old))
        (sink_state (K.held sink.new) (K.finished sink.new))
        (K.faults sink.old) (K.faults sink.new) result }
    ensures unwritten { result ≡ Status.NoMemory → sink.new ≡ sink.old }
    ensures taken { Took 0 (input_limit + read_limit)
        (source_state (S.left source.old) (S.faults source.old) (S.gave source.old))
        (source_state (S.left source.new) (S.faults source.new) (S.gave source.new)) }
{
    match reply_to(alloc, words, source) {
        Ok(reply) => show_reply(alloc, &reply, sink),
        Err(NoMemory) => Status::NoMemory,
    }
}
