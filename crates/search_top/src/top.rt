//! The top call.

ghost use Rattle.std.specs.Prelude.{◌≡◌, ◌+◌, map, string_bytes};
ghost use Rattle.dcop_base.specs.Limits.{input_limit};
ghost use Rattle.answer_io.specs.Input.{Took, read_limit, source_state};
ghost use Rattle.answer_io.specs.Output.{sink_state};
ghost use Rattle.program_frame.specs.Working.{Works};
ghost use Rattle.search_top.specs.Answering.{search_program};

use crate::answering::reply_to;
use dcop_base::NoMemory;
use dcop_edge::{Sink, Source};
use program_frame::{Status, show_reply};
use std::alloc::Global;

/// Answers these words, which are the arguments of the program. It reads a problem from the source,
/// searches it for an assignment with the best sum, writes the report of this to the sink, and
/// returns the status. Words, texts and faults are refused as the program `dcop` refuses them. At
/// most 2^28 + 65,536 bytes are taken. Each read but the last takes at least one, and reading stops
/// with the first read that takes the total above 2^28.
///
/// The report is a [`SearchReport`](crate::SearchReport): an assignment with its sum in the file's
/// own tables, and a bound; no assignment's sum is better than the bound. With [`Status::Solved`]
/// the sum and the bound are at most the requested error apart. With [`Status::Spent`] the nodes
/// have reached the budget. With [`Status::No`] no assignment's sum is better, by more than the
/// error, than the sum that was to be bettered.
///
/// [`Status::ReadFault`] and [`Status::WriteFault`] are returned only if the source or the sink
/// failed in this call. With `WriteFault` a prefix of the answer is written. With
/// [`Status::NoMemory`], when it runs out of memory, nothing is written. Otherwise the whole answer
/// is written and the sink is finished.
pub fn search<S: Source, K: Sink>(
    alloc: Global,
    words: &[String],
    source: &mut S,
    sink: &mut K,
) -> Status
    ensures works { Works search_program (map string_bytes words.now)
        (source_state (S.left source.old) (S.faults source.old) (S.gave source.old))
        (source_state (S.left source.new) (S.faults source.new) (S.gave source.new))
        (sink_state (K.held sink.old) (K.finished sink.old))
        (sink_state (K.held sink.new) (K.finished sink.new))
        (K.faults sink.old) (K.faults sink.new) result }
    ensures unwritten { result ≡ Status.NoMemory → sink.new ≡ sink.old }
    ensures taken { Took 0 (input_limit + read_limit)
        (source_state (S.left source.old) (S.faults source.old) (S.gave source.old))
        (source_state (S.left source.new) (S.faults source.new) (S.gave source.new)) }
{
    match reply_to(alloc, words, source) {
        Ok(reply) => show_reply(alloc, &reply, sink),
        Err(NoMemory) => Status::NoMemory,
    }
}
