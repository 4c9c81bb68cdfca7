//! Showing an answer.

ghost use Rattle.std.specs.Prelude.{◌≡◌};
ghost use Rattle.solve_report.specs.AnswerText.{HasText};
ghost use Rattle.answer_io.specs.Output.{sink_state};
ghost use Rattle.answer_io.specs.Showing.{ShowsAnswer};

use crate::status::Status;
use crate::writing::write_all;
use dcop_edge::Sink;
use solve_report::{Answer, text_of};
use std::alloc::Global;

/// Writes the whole text of an answer, finishes the sink, and gives the status.
///
/// With [`Status::WriteFault`] a prefix of the text is written. With [`Status::NoMemory`], when
/// memory runs out, nothing is written.
pub fn show<K: Sink>(alloc: Global, answer: &Answer, sink: &mut K) -> Status
    requires { HasText answer.now }
    ensures shows { ShowsAnswer answer.now
        (sink_state (K.held sink.old) (K.finished sink.old))
        (sink_state (K.held sink.new) (K.finished sink.new))
        (K.faults sink.old) (K.faults sink.new) result }
    ensures unwritten { result ≡ Status.NoMemory → sink.new ≡ sink.old }
{
    let Ok(text) = text_of(alloc, answer) else {
        return Status::NoMemory;
    };
    match write_all(sink, text.as_slice()) {
        Ok(()) => Status::of(answer),
        Err(_) => Status::WriteFault,
    }
}
