//! Writing a text whole.

ghost use Rattle.std.specs.Prelude.{◌≡◌, true, OnOk, OnErr};
ghost use Rattle.dcop_edge.specs.Faults.{HasCause};
ghost use Rattle.dcop_edge.specs.Sink.{Adds};
ghost use Rattle.answer_io.specs.Output.{AddsPrefix};

use dcop_edge::{Failed, Sink};

/// Writes the whole text and finishes the sink. If the sink fails, a prefix of the text is written.
pub fn write_all<K: Sink>(sink: &mut K, text: &[u8]) -> Result<(), Failed>
    ensures written { OnOk result (Adds (K.held sink.old) text.now (K.held sink.new)) }
    ensures finished { OnOk result (K.finished sink.new ≡ true) }
    ensures prefix { OnErr result (AddsPrefix (K.held sink.old) text.now (K.held sink.new)) }
    ensures cause { HasCause (K.faults sink.old) (K.faults sink.new) result }
{
    let mut at = 0;
    while at < text.len() {
        at += sink.write(&text[at..])?;
    }
    sink.finish()
}
