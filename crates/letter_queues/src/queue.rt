//! A queue of letters that wait.

ghost use Rattle.std.specs.Prelude.{◌≡◌, ◌+◌, ◌++◌, [], ◌∷◌, length, OnOk, MatchOption, Option, Some, option_to_list};
ghost use Rattle.std.specs.List.{last_or};

use dcop_base::NoMemory;
use protocol_steps::Letter;
use std::alloc::Global;
use std::collections::VecDeque;
use std::marker::Model;
use std::mem;

/// Letters that wait, in the order in which they were sent. A letter that is added to an empty
/// queue is stored in the queue itself, so a queue in which no two letters ever wait allocates no
/// memory.
#[derive(Drop)]
pub(crate) struct Queue {
    /// The first letter, if it was added to an empty queue.
    first: Option<Letter>,
    /// The letters after it.
    behind: VecDeque<Letter>,
}

impl Model for Queue {
    ghost use Rattle.std.specs.Prelude.{List, ℕ};
    ghost use Rattle.protocol_steps.specs.declared.message.Message.{Message};

    ghost Value = { List (ℕ × Message) };

    ghost use Rattle.letter_queues.specs.Queues.{queued};

    ghost view = { λ q. queued q.first q.behind.items };
}

impl Queue {
    /// A queue without letters.
    pub(crate) fn new(alloc: Global) -> Queue
        ensures { result ≡ [] }
    {
        Queue {
            first: None,
            behind: VecDeque::new(alloc),
        }
    }

    /// How many letters wait.
    pub(crate) fn len(&self) -> usize
        ensures { result ≡ length self.now }
    {
        match &self.first {
            Some(_) => self.behind.len() + 1,
            None => self.behind.len(),
        }
    }

    /// Appends a letter.
    pub(crate) fn push(&mut self, letter: Letter) -> Result<(), NoMemory>
        ensures { OnOk result (self.new ≡ self.old ++ letter ∷ []) }
    {
        if self.len() == 0 {
            self.first = Some(letter);
            return Ok(());
        }
        self.push_behind(letter)
    }

    /// Does what [`Queue::push`] does, for a queue that holds letters. It stands apart, so that the
    /// way of a letter into an empty queue stays short.
    #[inline(never)]
    fn push_behind(&mut self, letter: Letter) -> Result<(), NoMemory>
        ensures { OnOk result (self.new ≡ self.old ++ letter ∷ []) }
    {
        self.behind.push_back(letter)?;
        Ok(())
    }

    /// Removes the first letter, and returns it, if there is one.
    pub(crate) fn pop(&mut self) -> Option<Letter>
        ensures items { self.old ≡ option_to_list result ++ self.new }
        ensures none { MatchOption result (self.old ≡ []) (λ _. length self.old ≡ length self.new + 1) }
    {
        match mem::replace(&mut self.first, None) {
            Some(letter) => Some(letter),
            None => self.behind.pop_front(),
        }
    }

    /// The last letter, if there is one.
    pub(crate) fn last(&self) -> Option<&Letter>
        ensures { MatchOption result (self.now ≡ [])
            (λ l. (o : Option _) → last_or o self.now ≡ Some l.now) }
    {
        match self.behind.back() {
            Some(letter) => Some(letter),
            None => self.first.as_ref(),
        }
    }
}
