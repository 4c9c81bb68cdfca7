//! Where connections come from.

ghost use Rattle.std.specs.Prelude.{◌≡◌, ◌<◌, ◌+◌, ℕ, List, Option, IfOk, OnOk, OnErr};
ghost use Rattle.dcop_edge.specs.Faults.{HasCause};
ghost use Rattle.serve_clients.specs.Listener.{HasListenCause, first_of, last_of};

use crate::listen_fault::ListenFault;
use dcop_edge::{Failed, Sink, Source};
use std::marker::Send;

/// Gives connections and takes each back.
pub trait Listener {
    /// Where the bytes that arrive on a connection are read.
    type S: Source + Send + Drop;

    /// Where the bytes that leave on a connection are written.
    type K: Sink + Send + Drop;

    /// How many of its calls failed.
    ghost faults: { Self → ℕ };

    /// The connections that it will give, in order, if they are known: in memory, but not over
    /// sockets.
    ghost waiting: { Self → Option (List (Self.S × Self.K)) };

    /// The connections that were given back, in order, if they are known.
    ghost closed: { Self → Option (List (Self.S × Self.K)) };

    /// How many connections were given and not yet given back; every listener knows this.
    ghost lent: { Self → ℕ };

    /// Starts to listen at this port. `Failed` if the listener failed in this call. The call may
    /// wait.
    fn open(&mut self, port: u16) -> Result<(), Failed>
        ensures cause { HasCause (faults self.old) (faults self.new) result }
        ensures waiting { waiting self.new ≡ waiting self.old }
        ensures closed { closed self.new ≡ closed self.old }
        ensures lent { lent self.new ≡ lent self.old };

    /// The next connection. The call may wait.
    ///
    /// # Errors
    ///
    /// [`ListenFault::Failed`] if the listener failed in this call, and [`ListenFault::NoMemory`]
    /// if memory runs out. In both cases no connection is given.
    fn accept(&mut self) -> Result<(Self::S, Self::K), ListenFault>
        ensures cause { HasListenCause (faults self.old) (faults self.new) result }
        ensures given { IfOk result (λ c. waiting self.old ≡ first_of c (waiting self.new)) }
        ensures none_given { OnErr result (waiting self.new ≡ waiting self.old) }
        ensures closed { closed self.new ≡ closed self.old }
        ensures lent { OnOk result (lent self.new ≡ lent self.old + 1) }
        ensures not_lent { OnErr result (lent self.new ≡ lent self.old) };

    /// Takes back one of the connections that are still out. It takes no memory and cannot fail.
    fn close(&mut self, source: Self::S, sink: Self::K)
        requires { 0 < lent self.old }
        ensures closed { closed self.new ≡ last_of (closed self.old) (source, sink) }
        ensures waiting { waiting self.new ≡ waiting self.old }
        ensures lent { lent self.new + 1 ≡ lent self.old }
        ensures faults { faults self.new ≡ faults self.old };
}
