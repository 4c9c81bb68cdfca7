//! Where bytes go.

ghost use Rattle.std.specs.Prelude.{◌≡◌, ℕ, Bool, true, false, List, Option, IfOk, OnOk, OnErr};
ghost use Rattle.dcop_edge.specs.Faults.{HasCause};
ghost use Rattle.dcop_edge.specs.Sink.{Takes};

use crate::fault::Failed;

/// A sink for bytes. They are written to it, and then it is finished.
pub trait Sink {
    /// The bytes that were written, if the sink knows them. A sink in memory does as long as it
    /// keeps them; the real one does not. Once they are unknown they stay so.
    ghost held: { Self → Option (List ℕ) };

    /// Whether all that was written has been handed on. Every sink knows this.
    ghost finished: { Self → Bool };

    /// The number of its calls that failed.
    ghost faults: { Self → ℕ };

    /// Takes bytes from the front of `bytes` and returns how many: at least one if there are any.
    /// After the call the sink is not finished.
    ///
    /// # Errors
    ///
    /// [`Failed`] if the sink failed in this call. It then took no bytes.
    fn write(&mut self, bytes: &[u8]) -> Result<usize, Failed>
        ensures taken { IfOk result (Takes (held self.old) (held self.new) bytes.now) }
        ensures none_taken { OnErr result (held self.new ≡ held self.old) }
        ensures unfinished { finished self.new ≡ false }
        ensures cause { HasCause (faults self.old) (faults self.new) result };

    /// Hands on all that was written.
    ///
    /// # Errors
    ///
    /// [`Failed`] if the sink failed in this call. Whether it is finished is then as it was.
    fn finish(&mut self) -> Result<(), Failed>
        ensures same { held self.new ≡ held self.old }
        ensures done { OnOk result (finished self.new ≡ true) }
        ensures not_done { OnErr result (finished self.new ≡ finished self.old) }
        ensures cause { HasCause (faults self.old) (faults self.new) result };
}
