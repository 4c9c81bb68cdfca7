//! What one sender sent to an agent.

ghost use Rattle.std.specs.Prelude.{◌≡◌, ◌++◌, [], ◌∷◌, take, drop, length, OnOk, MatchOption, Some, None};
ghost use Rattle.std.specs.List.{last_or};
ghost use Rattle.letter_queues.specs.Inboxes.{with_letter, without_next, with_last};

use crate::letters::Letters;
use dcop_base::{NoMemory, VarId};
use protocol_steps::Letter;
use std::alloc::Global;
use std::marker::Model;

/// What one sender sent to an agent: the last letter that was taken, and the letters that wait.
#[derive(Drop)]
pub(crate) struct Link {
    alloc: Global,
    from: VarId,
    letters: Letters,
}

impl Model for Link {
    ghost use Rattle.letter_queues.specs.Links.{LinkView};
    ghost use Rattle.letter_queues.specs.Letters.{taken_in, waiting_in};

    ghost Value = { LinkView };

    ghost view = { λ l. record { from = l.from; taken = taken_in l.letters; waiting = waiting_in l.letters } };
}

impl Link {
    ghost use Rattle.letter_queues.specs.Links.{new_link};

    /// A link on which nothing was sent.
    pub(crate) fn new(alloc: Global, from: VarId) -> Link
        ensures { result ≡ new_link from }
    {
        Link {
            alloc,
            from,
            letters: Letters::Nothing,
        }
    }

    /// The sender.
    pub(crate) fn from(&self) -> VarId
        ensures { result ≡ self.now.from }
    {
        self.from
    }

    /// How many letters wait.
    pub(crate) fn count(&self) -> usize
        ensures { result ≡ length self.now.waiting }
    {
        self.letters.count()
    }

    /// Adds a letter after those that wait.
    pub(crate) fn add(&mut self, letter: Letter) -> Result<(), NoMemory>
        ensures added { OnOk result (self.new ≡ with_letter letter self.old) }
        ensures from { self.new.from ≡ self.old.from }
    {
        let alloc = self.alloc;
        self.letters.add(alloc, letter)
    }

    /// Removes the first `count` letters that wait, or all if they are fewer, and appends them to
    /// the batch.
    pub(crate) fn take_off(&mut self, count: u32, batch: &mut Vec<Letter>) -> Result<(), NoMemory>
        ensures batch { OnOk result (batch.new.items ≡ batch.old.items ++ take count self.old.waiting) }
        ensures rest { OnOk result (self.new ≡ without_next count self.old) }
        ensures from { self.new.from ≡ self.old.from }
    {
        for _ in 0..count {
            if let Some(letter) = self.letters.pop() {
                batch.push(letter)?;
            }
        }
        Ok(())
    }

    /// Keeps a letter as the last one that was taken.
    pub(crate) fn keep(&mut self, letter: Letter) -> Result<(), NoMemory>
        ensures kept { OnOk result (self.new ≡ with_last letter self.old) }
        ensures from { self.new.from ≡ self.old.from }
    {
        let alloc = self.alloc;
        self.letters.keep(alloc, letter)
    }

    /// The last letter: the last one that waits, or else the last one that was taken; `None` if
    /// there is neither.
    pub(crate) fn last(&self) -> Option<&Letter>
        ensures { MatchOption result (last_or self.now.taken self.now.waiting ≡ None)
            (λ l. last_or self.now.taken self.now.waiting ≡ Some l.now) }
    {
        self.letters.last()
    }
}
