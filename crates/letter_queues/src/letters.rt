//! The letters of a link.

ghost use Rattle.std.specs.Prelude.{◌≡◌, ◌+◌, ◌++◌, [], ◌∷◌, length, IfOk, OnOk, MatchOption, Some, None, option_to_list};
ghost use Rattle.std.specs.List.{last_or};
ghost use Rattle.letter_queues.specs.Letters.{taken_in, waiting_in};

use crate::queue::Queue;
use dcop_base::NoMemory;
use protocol_steps::Letter;
use std::alloc::Global;
use std::mem;

/// The letters of a link. One letter is stored in the link itself, so a link on which at most one
/// letter is ever sent allocates no memory.
#[derive(Drop)]
pub(crate) enum Letters {
    /// No letter is kept.
    Nothing,
    /// One letter waits, and none is kept as taken.
    Waiting(Letter),
    /// The last letter that was taken is kept, and none waits.
    Taken(Letter),
    /// Any number of letters, as soon as there have been two.
    Many(Box<Many>),
}

/// The last letter that was taken, and the letters that wait, in the order in which they were sent.
#[derive(Drop)]
pub(crate) struct Many {
    taken: Option<Letter>,
    waiting: Queue,
}

impl Letters {
    /// How many letters wait.
    pub(crate) fn count(&self) -> usize
        ensures { result ≡ length (waiting_in self.now) }
    {
        match self {
            Letters::Waiting(_) => 1,
            Letters::Many(many) => many.waiting.len(),
            _ => 0,
        }
    }

    /// The same letters, in the form that holds any number of them.
    fn into_many(self, alloc: Global) -> Result<Box<Many>, NoMemory>
        ensures taken { IfOk result (λ many. many.value.taken ≡ taken_in self) }
        ensures waiting { IfOk result (λ many. many.value.waiting ≡ waiting_in self) }
    {
        let mut waiting = Queue::new(alloc);
        let taken = match self {
            Letters::Nothing => None,
            Letters::Waiting(letter) => {
                waiting.push(letter)?;
                None
            }
            Letters::Taken(letter) => Some(letter),
            Letters::Many(many) => return Ok(many),
        };
        Ok(Box::new(alloc, Many { taken, waiting })?)
    }

    /// Adds a letter after those that wait.
    pub(crate) fn add(&mut self, alloc: Global, letter: Letter) -> Result<(), NoMemory>
        ensures taken { OnOk result (taken_in self.new ≡ taken_in self.old) }
        ensures waiting { OnOk result (waiting_in self.new ≡ waiting_in self.old ++ letter ∷ []) }
    {
        match self {
            Letters::Many(many) => many.waiting.push(letter),
            _ => self.add_to_few(alloc, letter),
        }
    }

    /// Does what [`Letters::add`] does, for a link that holds at most one letter. It stands apart, so
    /// that the usual way stays short.
    #[inline(never)]
    fn add_to_few(&mut self, alloc: Global, letter: Letter) -> Result<(), NoMemory>
        ensures taken { OnOk result (taken_in self.new ≡ taken_in self.old) }
        ensures waiting { OnOk result (waiting_in self.new ≡ waiting_in self.old ++ letter ∷ []) }
    {
        match self {
            Letters::Nothing => *self = Letters::Waiting(letter),
            _ => {
                let mut many = mem::replace(self, Letters::Nothing).into_many(alloc)?;
                many.waiting.push(letter)?;
                *self = Letters::Many(many);
            }
        }
        Ok(())
    }

    /// Removes the first letter that waits, and returns it, if there is one.
    pub(crate) fn pop(&mut self) -> Option<Letter>
        ensures taken { taken_in self.new ≡ taken_in self.old }
        ensures items { waiting_in self.old ≡ option_to_list result ++ waiting_in self.new }
        ensures none { MatchOption result (waiting_in self.old ≡ [])
            (λ _. length (waiting_in self.old) ≡ length (waiting_in self.new) + 1) }
    {
        match self {
            Letters::Many(many) => many.waiting.pop(),
            _ => self.pop_of_few(),
        }
    }

    /// Does what [`Letters::pop`] does, for a link that holds at most one letter.
    #[inline(never)]
    fn pop_of_few(&mut self) -> Option<Letter>
        ensures taken { taken_in self.new ≡ taken_in self.old }
        ensures items { waiting_in self.old ≡ option_to_list result ++ waiting_in self.new }
        ensures none { MatchOption result (waiting_in self.old ≡ [])
            (λ _. length (waiting_in self.old) ≡ length (waiting_in self.new) + 1) }
    {
        match self {
            Letters::Nothing | Letters::Taken(_) => None,
            Letters::Many(many) => many.waiting.pop(),
            Letters::Waiting(_) => match mem::replace(self, Letters::Nothing) {
                Letters::Waiting(letter) => Some(letter),
                _ => None,
            },
        }
    }

    /// Keeps a letter as the last one that was taken.
    pub(crate) fn keep(&mut self, alloc: Global, letter: Letter) -> Result<(), NoMemory>
        ensures taken { OnOk result (taken_in self.new ≡ Some letter) }
        ensures waiting { OnOk result (waiting_in self.new ≡ waiting_in self.old) }
    {
        match self {
            Letters::Many(many) => {
                many.taken = Some(letter);
                Ok(())
            }
            _ => self.keep_in_few(alloc, letter),
        }
    }

    /// Does what [`Letters::keep`] does, for a link that holds at most one letter.
    #[inline(never)]
    fn keep_in_few(&mut self, alloc: Global, letter: Letter) -> Result<(), NoMemory>
        ensures taken { OnOk result (taken_in self.new ≡ Some letter) }
        ensures waiting { OnOk result (waiting_in self.new ≡ waiting_in self.old) }
    {
        match self {
            Letters::Nothing | Letters::Taken(_) => *self = Letters::Taken(letter),
            Letters::Waiting(_) | Letters::Many(_) => {
                let mut many = mem::replace(self, Letters::Nothing).into_many(alloc)?;
                many.taken = Some(letter);
                *self = Letters::Many(many);
            }
        }
        Ok(())
    }

    /// The last letter, if there is one: the last one that waits, or else the one that was taken.
    pub(crate) fn last(&self) -> Option<&Letter>
        ensures { MatchOption result (last_or (taken_in self.now) (waiting_in self.now) ≡ None)
            (λ l. last_or (taken_in self.now) (waiting_in self.now) ≡ Some l.now) }
    {
        match self {
            Letters::Nothing => None,
            Letters::Waiting(letter) | Letters::Taken(letter) => Some(letter),
            Letters::Many(many) => match many.waiting.last() {
                Some(letter) => Some(letter),
                None => many.taken.as_ref(),
            },
        }
    }
}
