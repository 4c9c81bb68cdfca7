//! A listener in memory.

ghost use Rattle.std.specs.Prelude.{◌≡◌, ◌≤◌, ◌<◌, ◌+◌, ◌||◌, [], Some, IfOk, OnOk, OnErr, length, is_err, vec_len, vec_capacity, ◌==◌};
ghost use Rattle.dcop_edge.specs.Faults.{HasCause};
ghost use Rattle.dcop_edge.specs.Memory.{no_calls, fails_next, after_call};
ghost use Rattle.serve_clients.specs.Listener.{HasListenCause, first_of, last_of};

use crate::listen_fault::ListenFault;
use crate::listener::Listener;
use dcop_base::NoMemory;
use dcop_edge::{Failed, FailingCalls, MemorySink, MemorySource};
use std::alloc::Global;
use std::collections::VecDeque;

/// A listener over connections in memory that fails at chosen calls of `open` and `accept`.
/// `accept` also fails if no connection waits.
#[derive(Drop)]
pub struct MemoryListener {
    waiting: VecDeque<(MemorySource, MemorySink)>,
    closed: Vec<(MemorySource, MemorySink)>,
    lent: usize,
    calls: FailingCalls,
    ghost room: { length waiting.items + lent + vec_len closed ≤ vec_capacity closed },
}

impl MemoryListener {
    /// A listener that gives these connections, in order. Its calls of `open` and `accept` are
    /// counted together from 0, and those with the numbers in `fails` fail. It makes room at once
    /// for all connections that will be given back.
    ///
    /// # Errors
    ///
    /// [`NoMemory`] if memory runs out.
    pub fn new(
        alloc: Global,
        connections: Vec<(MemorySource, MemorySink)>,
        fails: Vec<u64>,
    ) -> Result<Self, NoMemory>
        ensures { IfOk result (λ l. (l.waiting.items ≡ connections.items) × (l.closed.items ≡ []) × (l.lent ≡ 0) × (l.calls ≡ no_calls fails.items)) }
    {
        let closed = Vec::with_capacity(alloc, connections.len())?;
        Ok(MemoryListener {
            waiting: VecDeque::from_vec(connections),
            closed,
            lent: 0,
            calls: FailingCalls::new(fails),
        })
    }

    /// The connections that were given back, in order.
    pub fn closed(&self) -> &[(MemorySource, MemorySink)]
        ensures { result.now ≡ self.now.closed.items }
    {
        &self.closed
    }
}

impl Listener for MemoryListener {
    type S = MemorySource;

    type K = MemorySink;

    ghost faults = { λ l. l.calls.faults };

    ghost waiting = { λ l. Some l.waiting.items };

    ghost closed = { λ l. Some l.closed.items };

    ghost lent = { λ l. l.lent };

    fn open(&mut self, _port: u16) -> Result<(), Failed>
        ensures cause { HasCause self.old.calls.faults self.new.calls.faults result }
        ensures waiting { Some self.new.waiting.items ≡ Some self.old.waiting.items }
        ensures closed { Some self.new.closed.items ≡ Some self.old.closed.items }
        ensures lent { self.new.lent ≡ self.old.lent }
        ensures exact { is_err result ≡ fails_next self.old.calls }
        ensures counted { self.new.calls ≡ after_call self.old.calls }
    {
        self.calls.come()
    }

    fn accept(&mut self) -> Result<(MemorySource, MemorySink), ListenFault>
        ensures cause { HasListenCause self.old.calls.faults self.new.calls.faults result }
        ensures given { IfOk result (λ c. Some self.old.waiting.items ≡ first_of c (Some self.new.waiting.items)) }
        ensures none_given { OnErr result (Some self.new.waiting.items ≡ Some self.old.waiting.items) }
        ensures closed { Some self.new.closed.items ≡ Some self.old.closed.items }
        ensures lent { OnOk result (self.new.lent ≡ self.old.lent + 1) }
        ensures not_lent { OnErr result (self.new.lent ≡ self.old.lent) }
        ensures exact { is_err result ≡ (fails_next self.old.calls || length self.old.waiting.items == 0) }
        ensures counted { self.new.calls.came ≡ (after_call self.old.calls).came }
        ensures same { self.new.calls.fails ≡ self.old.calls.fails }
    {
        self.calls.come()?;
        let Some(connection) = self.waiting.pop_front() else {
            self.calls.charge();
            return Err(ListenFault::Failed);
        };
        self.lent += 1;
        Ok(connection)
    }

    fn close(&mut self, source: MemorySource, sink: MemorySink) {
        self.lent -= 1;
        self.closed.push_reserved((source, sink));
    }
}
