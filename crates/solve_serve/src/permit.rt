//! How many sessions are served concurrently.

use std::sync::{Condvar, Mutex, Wait};

/// Permits to serve a session, one for each worker. Whoever takes a permit gives it back.
#[derive(Drop)]
pub(crate) struct Permits {
    free: Mutex<u32>,
    given: Condvar,
}

impl Permits {
    /// This many permits, all of them free.
    pub(crate) fn new(count: u32) -> Self {
        Permits {
            free: Mutex::new(count),
            given: Condvar::new(),
        }
    }

    /// Takes a permit, once one is free.
    pub(crate) fn take<R: Wait>(&self, rt: &R) {
        let mut free = self
            .given
            .wait_while(rt, self.free.lock(rt), |free| *free == 0);
        *free -= 1;
    }

    /// Gives a permit back, to a session that waits for one.
    pub(crate) fn give<R: Wait>(&self, rt: &R) {
        let mut free = self.free.lock(rt);
        *free = free.saturating_add(1);
        drop(free);
        self.given.notify_one();
    }
}
