//! The law of the replies. It is the contract of a call that does nothing: to use the law, call it.

ghost use Rattle.trace_top.specs.Tracing.{TraceAnswersAreOne};

/// The reply is one function of the words and the input: the same words and the same bytes have one
/// reply, and so one text.
pub fn trace_answers_are_one()
    ensures { TraceAnswersAreOne }
{}
