//! Faults of sources and sinks, and calls that fail on purpose.

ghost use Rattle.std.specs.Prelude.{◌≡◌, ◌≤◌, is_err};
ghost use Rattle.dcop_edge.specs.Faults.{HasCause, Rose, one_more};
ghost use Rattle.dcop_edge.specs.Memory.{Calls, no_calls, fails_next, after_call};

use std::alloc::AllocError;
use std::marker::Model;

/// A source or a sink failed. Its count of faults rose in the call that returns this.
#[derive(Clone, Copy, Debug, PartialEq, Eq)]
pub struct Failed;

/// Why a read into a list gave nothing.
#[derive(Clone, Copy, Debug, PartialEq, Eq)]
pub enum ReadFault {
    /// The source failed. Its count of faults rose in the call that returns this.
    Failed,
    /// Memory ran out.
    NoMemory,
}

impl From<Failed> for ReadFault {
    ghost use Rattle.dcop_edge.specs.declared.fault.ReadFault.TheVariants.{Failed as failed};

    ghost from_gives = { λ _ e. e ≡ failed };

    fn from(_failed: Failed) -> Self {
        ReadFault::Failed
    }
}

impl From<AllocError> for ReadFault {
    ghost use Rattle.dcop_edge.specs.declared.fault.ReadFault.TheVariants.{NoMemory as no_memory};

    ghost from_gives = { λ _ e. e ≡ no_memory };

    fn from(_refused: AllocError) -> Self {
        ReadFault::NoMemory
    }
}

/// Which calls of an object in memory fail, with counts of its calls and of its faults. Both counts
/// stop at 2^64 - 1.
#[derive(Drop)]
pub struct FailingCalls {
    fails: Vec<u64>,
    came: u64,
    faults: u64,
}

impl Model for FailingCalls {
    ghost Value = { Calls };

    ghost view = { λ c. record { fails = c.fails.items; came = c.came; faults = c.faults } };
}

impl FailingCalls {
    /// The calls with these numbers, counted from 0, fail.
    pub fn new(fails: Vec<u64>) -> Self
        ensures { result ≡ no_calls fails.items }
    {
        FailingCalls {
            fails,
            came: 0,
            faults: 0,
        }
    }

    /// Counts one more call; `Failed` exactly if its number is among those that fail.
    pub fn come(&mut self) -> Result<(), Failed>
        ensures exact { is_err result ≡ fails_next self.old }
        ensures counted { self.new ≡ after_call self.old }
        ensures cause { HasCause self.old.faults self.new.faults result }
    {
        let call = self.came;
        self.came = call.saturating_add(1);
        if self.fails.contains(&call) {
            self.faults = self.faults.saturating_add(1);
            return Err(Failed);
        }
        Ok(())
    }

    /// How many faults there were.
    pub fn faults(&self) -> u64
        ensures { result ≡ self.now.faults }
    {
        self.faults
    }

    /// Counts one more fault.
    pub fn charge(&mut self)
        ensures counted { self.new ≡ record self.old { faults = one_more self.old.faults } }
        ensures rose { (self.old.faults ≤ self.new.faults) × Rose self.old.faults self.new.faults }
    {
        self.faults = self.faults.saturating_add(1);
    }
}
