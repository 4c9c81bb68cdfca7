//! What a visit takes.

ghost use Rattle.std.specs.Prelude.{◌≡◌, ◌≤◌, ℕ, [], ◌∷◌, ◌++◌, map, length, true, ◌==◌, if◌then◌else◌, IfOk, OnOk, IfSome, MatchOption};
ghost use Rattle.std.specs.Vec.{vec_len, vec_capacity};
ghost use Rattle.dcop_base.specs.Limits.{amount_limit};
ghost use Rattle.protocol_steps.specs.Deeds.{greatest_from};
ghost use Rattle.fifo_links.specs.Slots.{ring_slots};
ghost use Rattle.worker_laws.specs.Cells.{known_from};
ghost use Rattle.agent_cells.specs.Collected.{HasFound, HasCollected, HaveLooked, HasFoundNothing, HasLookedAndCollected};
ghost use Rattle.agent_cells.specs.Links.{IsSameHead, AreSameHeads, known_of};

use crate::sealed::Sealed;
use dcop_base::{NoMemory, VarId};
use fifo_links::{LinkHead, SLOTS};
use protocol_steps::{Envelope, Letter, Take};
use std::alloc::Global;

/// What a visit takes: its letters, how many of them each sender sent, and the greatest stamp.
#[derive(Drop)]
pub(crate) struct Taken {
    pub(crate) letters: Vec<Letter>,
    pub(crate) takes: Vec<Take>,
    pub(crate) greatest: u64,
}

impl Taken {
    /// Nothing is taken so far.
    fn new(alloc: Global) -> Taken
        ensures letters { result.letters.items ≡ [] }
        ensures takes { result.takes.items ≡ [] }
        ensures greatest { result.greatest ≡ 0 }
    {
        Taken {
            letters: Vec::new(alloc),
            takes: Vec::new(alloc),
            greatest: 0,
        }
    }

    /// Adds the `count` envelopes of one sender, and empties `found`, which keeps its memory.
    fn add(&mut self, from: VarId, count: u32, found: &mut Vec<Sealed>) -> Result<(), NoMemory>
        requires count { count ≡ length found.old.items }
        ensures letters { OnOk result (self.new.letters.items ≡ self.old.letters.items ++ map (λ e. (from, e.1)) found.old.items) }
        ensures takes { OnOk result (self.new.takes.items ≡ self.old.takes.items ++ (if length found.old.items == 0 then [] else record { from = from; count = length found.old.items } ∷ [])) }
        ensures greatest { OnOk result (self.new.greatest ≡ greatest_from self.old.greatest found.old.items) }
        ensures bounded { self.old.greatest ≤ amount_limit → self.new.greatest ≤ amount_limit }
        ensures emptied { OnOk result (found.new.items ≡ []) }
        ensures capacity { vec_capacity found.new ≡ vec_capacity found.old }
    {
        if count == 0 {
            return Ok(());
        }
        self.takes.push(Take { from, count })?;
        for sealed in found.drain(..) {
            let Envelope { stamp, message } = sealed.open();
            self.greatest = self.greatest.max(stamp);
            self.letters.push(Letter { from, message })?;
        }
        Ok(())
    }
}

/// Takes all that is found on one link, and adds it to what was taken.
fn take_one(
    end: &mut (VarId, LinkHead<Sealed>),
    found: &mut Vec<Sealed>,
    taken: &mut Taken,
) -> Result<(), NoMemory>
    requires empty { found.old.items ≡ [] }
    requires room { ring_slots ≤ vec_capacity found.old }
    ensures same { IsSameHead end.old end.new }
    ensures found { OnOk result (HasFound end.old end.new
        taken.old.letters.items taken.new.letters.items
        taken.old.takes.items taken.new.takes.items
        taken.old.greatest taken.new.greatest) }
    ensures bounded { taken.old.greatest ≤ amount_limit → taken.new.greatest ≤ amount_limit }
    ensures empty { OnOk result (found.new.items ≡ []) }
    ensures room { ring_slots ≤ vec_capacity found.new }
{
    let count = end.1.take_all(found);
    taken.add(end.0, count, found)
}

/// Whether no message is known to wait on any link. It does not look for others.
pub(crate) fn know_of_none(heads: &[(VarId, LinkHead<Sealed>)]) -> bool
    ensures { result ≡ true → (j : ℕ) → known_from j (known_of heads.now) ≡ 0 }
{
    for end in heads {
        if end.1.known() > 0 {
            return false;
        }
    }
    true
}

/// Takes all that is found on each link. Returns `None` if a look finds nothing on any of them;
/// this allocates no memory.
pub(crate) fn collect_waiting(
    alloc: Global,
    heads: &mut [(VarId, LinkHead<Sealed>)],
) -> Result<Option<Taken>, NoMemory>
    ensures same { AreSameHeads heads.old heads.new }
    ensures found { IfOk result (λ o. MatchOption o (HasFoundNothing heads.old heads.new)
        (λ t. HasLookedAndCollected heads.old heads.new t.letters.items t.takes.items t.greatest)) }
    ensures bounded { IfOk result (λ o. IfSome o (λ t. t.greatest ≤ amount_limit)) }
{
    if finds_nothing(heads) {
        return Ok(None);
    }
    let taken = collect(alloc, heads)?;
    Ok(Some(taken))
}

/// Whether nothing is found on any link. It takes nothing, and stops at the first link on which it
/// finds something.
fn finds_nothing(heads: &mut [(VarId, LinkHead<Sealed>)]) -> bool
    ensures looked { HaveLooked heads.old heads.new }
    ensures none { result ≡ true → (j : ℕ) → known_from j (known_of heads.new) ≡ 0 }
{
    for end in heads.iter_mut() {
        if !end.1.is_empty() {
            return false;
        }
    }
    true
}

/// Takes all that is found on each link, link by link. It allocates memory.
#[tactic(auto, using(crate::proofs::CollectLaws::collecting_none, crate::proofs::CollectLaws::collecting_more, crate::proofs::CollectLaws::collecting_all, crate::proofs::SameLaws::same_heads, crate::proofs::SameLaws::heads_set))]
fn collect(alloc: Global, heads: &mut [(VarId, LinkHead<Sealed>)]) -> Result<Taken, NoMemory>
    ensures same { AreSameHeads heads.old heads.new }
    ensures collected { IfOk result (λ t. HasCollected heads.old heads.new t.letters.items t.takes.items t.greatest) }
    ensures bounded { IfOk result (λ t. t.greatest ≤ amount_limit) }
{
    let mut taken = Taken::new(alloc);
    let mut found = Vec::with_capacity(alloc, SLOTS)?;
    for end in heads.iter_mut() {
        take_one(end, &mut found, &mut taken)?;
    }
    Ok(taken)
}
