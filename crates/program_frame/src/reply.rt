//! What a program replies.

ghost use Rattle.std.specs.Prelude.{◌≡◌, ◌≢◌};
ghost use Rattle.answer_io.specs.Output.{sink_state};
ghost use Rattle.program_frame.specs.Replies.{IsShowable, Shows};
ghost use Rattle.program_frame.specs.declared.reply.Reply.TheVariants.{Own};

use answer_io::{Status, show, write_all};
use dcop_base::Bytes;
use dcop_edge::Sink;
use solve_report::Answer;
use std::alloc::Global;

/// What a program replies.
#[derive(Debug, Drop)]
pub enum Reply {
    /// A text of its own, with the status that it ends with.
    Own { text: Bytes, status: Status },
    /// An answer of `dcop`: a refusal.
    Refused(Answer),
}

/// Writes the whole text of a reply, finishes the sink, and gives the status.
///
/// With [`Status::WriteFault`] a prefix of the text is written. With [`Status::NoMemory`], when
/// memory runs out, nothing is written.
pub fn show_reply<K: Sink>(alloc: Global, reply: &Reply, sink: &mut K) -> Status
    requires { IsShowable reply.now }
    ensures shows { Shows reply.now
        (sink_state (K.held sink.old) (K.finished sink.old))
        (sink_state (K.held sink.new) (K.finished sink.new))
        (K.faults sink.old) (K.faults sink.new) result }
    ensures unwritten { result ≡ Status.NoMemory → sink.new ≡ sink.old }
{
    match reply {
        Reply::Own { text, status } => show_own(text.as_slice(), *status, sink),
        Reply::Refused(refusal) => show(alloc, refusal, sink),
    }
}

/// [`show_reply`] of a text of its own with this status.
fn show_own<K: Sink>(text: &[u8], status: Status, sink: &mut K) -> Status
    requires { status ≢ Status.NoMemory }
    ensures shows { Shows (Own text.now status)
        (sink_state (K.held sink.old) (K.finished sink.old))
        (sink_state (K.held sink.new) (K.finished sink.new))
        (K.faults sink.old) (K.faults sink.new) result }
    ensures written { result ≢ Status.NoMemory }
{
    match write_all(sink, text) {
        Ok(()) => status,
        Err(_) => Status::WriteFault,
    }
}
