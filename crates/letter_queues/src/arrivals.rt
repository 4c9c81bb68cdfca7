//! Which agents may take something.

ghost use Rattle.std.specs.Prelude.{◌≡◌, true, false, length, IfOk, Some, slice_get, replicate};
ghost use Rattle.std.specs.List.{slice_set};
ghost use Rattle.memchr.specs.Find.{IsFirst, Passes, is_byte};
ghost use Rattle.letter_queues.specs.Flags.{IsSet};

use dcop_base::NoMemory;
use memchr::memchr;
use std::alloc::Global;
use std::marker::Model;

/// The byte of an agent that is known to take nothing.
const CALM: u8 = 0;

/// The byte of an agent that may take something.
const BUSY: u8 = 1;

/// Which agents may take something. An agent that may take something can turn out to take nothing.
#[derive(Drop)]
pub struct Arrivals {
    // A byte for each agent.
    busy: Vec<u8>,
}

impl Model for Arrivals {
    ghost use Rattle.std.specs.Prelude.{Bool, List, map};
    ghost use Rattle.memchr.specs.Find.{is_byte};

    ghost Value = { List Bool };

    ghost view = { λ a. map (is_byte 1) a.busy.items };
}

/// Sets the byte of an agent, if there is one.
fn set_byte(bytes: &mut [u8], agent: usize, byte: u8)
    ensures { bytes.new ≡ slice_set bytes.old agent byte }
{
    if agent < bytes.len() {
        bytes[agent] = byte;
    }
}

/// The first busy agent that is not below `from`.
fn first_busy(bytes: &[u8], from: usize) -> Option<usize>
    ensures { IsFirst (Passes (is_byte BUSY) bytes.now) from (length bytes.now) result }
{
    if from >= bytes.len() {
        return None;
    }
    match memchr(BUSY, &bytes[from..]) {
        Some(ahead) => Some(from + ahead),
        None => None,
    }
}

impl Arrivals {
    /// The arrivals of `agents` agents, each of which may take something.
    ///
    /// # Errors
    ///
    /// [`NoMemory`] if memory runs out.
    pub fn new(alloc: Global, agents: usize) -> Result<Self, NoMemory>
        ensures { IfOk result (λ arrivals. arrivals ≡ replicate agents true) }
    {
        let busy = vec![in alloc; BUSY; agents]?;
        Ok(Arrivals { busy })
    }

    /// Records that this agent may take something.
    pub fn rouse(&mut self, agent: usize)
        ensures { self.new ≡ slice_set self.old agent true }
    {
        set_byte(self.busy.as_mut_slice(), agent, BUSY);
    }

    /// Records that this agent takes nothing.
    pub fn settle(&mut self, agent: usize)
        ensures { self.new ≡ slice_set self.old agent false }
    {
        set_byte(self.busy.as_mut_slice(), agent, CALM);
    }

    /// Whether this agent is known to take nothing.
    pub fn is_calm(&self, agent: usize) -> bool
        ensures { result ≡ true → slice_get self.now agent ≡ Some false }
    {
        match self.busy.get(agent) {
            Some(byte) => *byte != BUSY,
            None => false,
        }
    }

    /// The first agent that is not below `from` and may take something.
    pub fn next_busy(&self, from: usize) -> Option<usize>
        ensures { IsFirst (IsSet self.now) from (length self.now) result }
    {
        first_busy(self.busy.as_slice(), from)
    }
}
