//! What an agent was sent, by sender.

ghost use Rattle.std.specs.Prelude.{◌≡◌, ℕ, true, map, length, take, ◌++◌, IfOk, OnOk, MatchOption, Some, None};
ghost use Rattle.std.specs.List.{fold};
ghost use Rattle.std.specs.List.Sorted.{IsStrictlyIncreasing};
ghost use Rattle.letter_queues.specs.Links.{LinkView, new_link, waiting_from, last_letter};
ghost use Rattle.letter_queues.specs.Inboxes.{senders, edit_link, with_letter, with_last, take_off, keep_last, letters_by, short_in};
ghost use Rattle.letter_queues.specs.Takes.{inbox_takes};

use crate::link::Link;
use crate::place::{are_ascending, place_of};
use dcop_base::{NoMemory, VarId};
use protocol_steps::{EventFault, Letter, Take};
use std::alloc::Global;
use std::marker::Model;

/// The most messages that a turn takes from one link.
const MOST_TAKEN: usize = 64;

/// What an agent was sent, with a link for each sender: the letters that wait, in the order in which
/// they were sent, and the last one that was taken. Where the senders ascend, the time to find the
/// link of one grows with the logarithm of their number.
#[derive(Drop)]
pub struct Inbox {
    links: Vec<Link>,
    // Whether each sender is known to be greater than the one before.
    ascending: bool,
}

impl Model for Inbox {
    ghost use Rattle.std.specs.Prelude.{◌≡◌, true, List};
    ghost use Rattle.std.specs.List.Sorted.{IsStrictlyIncreasing};
    ghost use Rattle.letter_queues.specs.Links.{LinkView};
    ghost use Rattle.letter_queues.specs.Inboxes.{senders};

    ghost Value = { List LinkView };

    ghost view = { λ inbox. inbox.links.items };

    ghost invariant = { λ inbox. inbox.ascending ≡ true → IsStrictlyIncreasing (senders inbox.links.items) };
}

impl Inbox {
    /// An inbox with a link for each of these senders, on which nothing was sent.
    ///
    /// # Errors
    ///
    /// [`NoMemory`] if memory runs out.
    pub fn new(alloc: Global, senders: &[VarId]) -> Result<Inbox, NoMemory>
        ensures { IfOk result (λ inbox. inbox ≡ map new_link senders.now) }
    {
        let links = new_links(alloc, senders)?;
        Ok(Inbox {
            links,
            ascending: are_ascending(senders),
        })
    }

    /// How many letters of this sender wait; 0 if it has no link.
    pub fn count_from(&self, from: VarId) -> usize
        ensures { result ≡ length (waiting_from self.now from) }
    {
        count_from(self.links.as_slice(), self.ascending, from)
    }

    /// The last letter of this sender: the last one that waits, or else the last one that was taken;
    /// `None` if there is neither.
    pub fn last_of(&self, from: VarId) -> Option<&Letter>
        ensures { MatchOption result (last_letter self.now from ≡ None)
            (λ l. last_letter self.now from ≡ Some l.now) }
    {
        last_of(self.links.as_slice(), self.ascending, from)
    }

    /// Adds a letter to the link of this sender. If there is no such link, nothing changes.
    ///
    /// # Errors
    ///
    /// [`NoMemory`] if memory runs out. No clause speaks of the inbox after that.
    pub fn add(&mut self, from: VarId, letter: Letter) -> Result<(), NoMemory>
        ensures { OnOk result (self.new ≡ edit_link from (with_letter letter) self.old) }
    {
        add(self.links.as_mut_slice(), self.ascending, from, letter)
    }

    /// The fault of the first take that asks for more messages than wait; `None` if there is no such
    /// take.
    pub fn short_of(&self, takes: &[Take]) -> Option<EventFault>
        ensures { result ≡ short_in self.now takes.now }
    {
        short_of(self.links.as_slice(), self.ascending, takes)
    }

    /// Removes the letters of all takes, one take after another, and replaces the content of the
    /// batch by them.
    ///
    /// # Errors
    ///
    /// [`NoMemory`] if memory runs out. No clause speaks of the inbox and the batch after that.
    pub fn gather(&mut self, takes: &[Take], batch: &mut Vec<Letter>) -> Result<(), NoMemory>
        ensures batch { OnOk result (batch.new.items ≡ letters_by self.old takes.now) }
        ensures rest { OnOk result (self.new ≡ fold take_off self.old takes.now) }
    {
        gather(self.links.as_mut_slice(), self.ascending, takes, batch)
    }

    /// Keeps, for each sender, the last of these letters that were taken. `letters` is emptied and
    /// keeps its memory.
    ///
    /// # Errors
    ///
    /// [`NoMemory`] if memory runs out. No clause speaks of the inbox after that.
    pub fn keep_all(&mut self, letters: &mut Vec<Letter>) -> Result<(), NoMemory>
        ensures { OnOk result (self.new ≡ fold keep_last self.old letters.old.items) }
    {
        keep_all(self.links.as_mut_slice(), self.ascending, letters)
    }

    /// Replaces the content of `takes` by a take of each link on which something waits, of at most
    /// 64 messages.
    ///
    /// # Errors
    ///
    /// [`NoMemory`] if memory runs out. No clause speaks of `takes` after that.
    pub fn list_takes(&self, takes: &mut Vec<Take>) -> Result<(), NoMemory>
        ensures { OnOk result (takes.new.items ≡ inbox_takes self.now) }
    {
        list_takes(self.links.as_slice(), takes)
    }
}

/// A new link for each of these senders, on which nothing was sent.
fn new_links(alloc: Global, senders: &[VarId]) -> Result<Vec<Link>, NoMemory>
    ensures { IfOk result (λ links. links.items ≡ map new_link senders.now) }
{
    let mut links = Vec::with_capacity(alloc, senders.len())?;
    for from in senders {
        links.push(Link::new(alloc, *from))?;
    }
    Ok(links)
}

/// How many letters of this sender wait; 0 if it has no link.
fn count_from(links: &[Link], ascending: bool, from: VarId) -> usize
    requires { ascending ≡ true → IsStrictlyIncreasing (senders links.now) }
    ensures { result ≡ length (waiting_from links.now from) }
{
    match place_of(links, ascending, from) {
        Some(at) => links[at].count(),
        None => 0,
    }
}

/// The last letter of this sender: the last one that waits, or else the last one that was taken;
/// `None` if there is neither.
fn last_of(links: &[Link], ascending: bool, from: VarId) -> Option<&Letter>
    requires { ascending ≡ true → IsStrictlyIncreasing (senders links.now) }
    ensures { MatchOption result (last_letter links.now from ≡ None)
        (λ l. last_letter links.now from ≡ Some l.now) }
{
    match place_of(links, ascending, from) {
        Some(at) => links[at].last(),
        None => None,
    }
}

/// Adds a letter to the link of this sender. If there is no such link, nothing changes.
fn add(links: &mut [Link], ascending: bool, from: VarId, letter: Letter) -> Result<(), NoMemory>
    requires { ascending ≡ true → IsStrictlyIncreasing (senders links.old) }
    ensures added { OnOk result (links.new ≡ edit_link from (with_letter letter) links.old) }
    ensures senders { senders links.new ≡ senders links.old }
{
    match place_of(links, ascending, from) {
        Some(at) => links[at].add(letter),
        None => Ok(()),
    }
}

/// The fault of the first take that asks for more messages than wait; `None` if there is no such
/// take.
fn short_of(links: &[Link], ascending: bool, takes: &[Take]) -> Option<EventFault>
    requires { ascending ≡ true → IsStrictlyIncreasing (senders links.now) }
    ensures { result ≡ short_in links.now takes.now }
{
    for take in takes {
        let there = count_from(links, ascending, take.from) as u64;
        let asked = u64::from(take.count);
        if there < asked {
            return Some(EventFault::TooMany {
                from: take.from,
                asked,
                there,
            });
        }
    }
    None
}

/// Removes the letters of a take from their link, and appends them to the batch.
fn gather_one(
    links: &mut [Link],
    ascending: bool,
    next: Take,
    batch: &mut Vec<Letter>,
) -> Result<(), NoMemory>
    requires { ascending ≡ true → IsStrictlyIncreasing (senders links.old) }
    ensures batch { OnOk result (batch.new.items ≡ batch.old.items ++ take next.count (waiting_from links.old next.from)) }
    ensures rest { OnOk result (links.new ≡ take_off links.old next) }
    ensures senders { senders links.new ≡ senders links.old }
{
    if let Some(at) = place_of(links, ascending, next.from) {
        links[at].take_off(next.count, batch)?;
    }
    Ok(())
}

/// Removes the letters of all takes, one take after another, and replaces the content of the batch
/// by them.
fn gather(
    links: &mut [Link],
    ascending: bool,
    takes: &[Take],
    batch: &mut Vec<Letter>,
) -> Result<(), NoMemory>
    requires { ascending ≡ true → IsStrictlyIncreasing (senders links.old) }
    ensures batch { OnOk result (batch.new.items ≡ letters_by links.old takes.now) }
    ensures rest { OnOk result (links.new ≡ fold take_off links.old takes.now) }
    ensures senders { senders links.new ≡ senders links.old }
{
    batch.clear();
    for take in takes {
        gather_one(links, ascending, *take, batch)?;
    }
    Ok(())
}

/// Keeps a letter that was taken as the last one of this sender. If there is no link of this
/// sender, nothing changes.
fn keep_one(
    links: &mut [Link],
    ascending: bool,
    from: VarId,
    letter: Letter,
) -> Result<(), NoMemory>
    requires { ascending ≡ true → IsStrictlyIncreasing (senders links.old) }
    ensures kept { OnOk result (links.new ≡ edit_link from (with_last letter) links.old) }
    ensures senders { senders links.new ≡ senders links.old }
{
    match place_of(links, ascending, from) {
        Some(at) => links[at].keep(letter),
        None => Ok(()),
    }
}

/// The sender of a letter.
fn sender_of(letter: &Letter) -> VarId
    ensures { result ≡ letter.now.0 }
{
    letter.from
}

/// Keeps, for each sender, the last of these letters that were taken. `letters` is emptied and
/// keeps its memory.
fn keep_all(links: &mut [Link], ascending: bool, letters: &mut Vec<Letter>) -> Result<(), NoMemory>
    requires { ascending ≡ true → IsStrictlyIncreasing (senders links.old) }
    ensures kept { OnOk result (links.new ≡ fold keep_last links.old letters.old.items) }
    ensures senders { senders links.new ≡ senders links.old }
{
    for letter in letters.drain(..) {
        let from = sender_of(&letter);
        keep_one(links, ascending, from, letter)?;
    }
    Ok(())
}

/// Replaces the content of `takes` by a take of each link on which something waits, of at most 64
/// messages.
fn list_takes(links: &[Link], takes: &mut Vec<Take>) -> Result<(), NoMemory>
    ensures { OnOk result (takes.new.items ≡ inbox_takes links.now) }
{
    takes.clear();
    for link in links {
        let count = link.count();
        if count != 0 {
            takes.push(Take {
                from: link.from(),
                count: count.min(MOST_TAKEN) as u32,
            })?;
        }
    }
    Ok(())
}
