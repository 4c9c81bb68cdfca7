//! What the rows take from the system.

use std::net::Net;
use std::random::RandomSource;
use std::sync::Wait;
use std::thread::Threads;
use std::time::Clock;

/// Threads that may wait for each other, the clock, random numbers, sockets and memory.
pub(crate) trait Host: Threads + Wait + Clock + RandomSource + Net + AllocGlobal + Sync {}

impl<R> Host for R
where
    R: Threads + Wait + Clock + RandomSource + Net + AllocGlobal + Sync,
{}
