//! Playing cells: turns, sprints of turns, and concurrent parts.

ghost use Rattle.std.specs.Prelude.{◌≡◌, ◌≤◌, ◌<◌, ◌*◌, ℕ, Bool, length, true, false, IfOk, OnOk, IfErr, IfSome, None, Some};
ghost use Rattle.dcop_base.specs.Limits.{variable_limit};
ghost use Rattle.protocol_steps.specs.Rounds.{most_events};
ghost use Rattle.worker_laws.specs.Cells.{known_from};
ghost use Rattle.agent_cells.specs.State.{state_of, fault_in};
ghost use Rattle.agent_workers.specs.Joined.{EachIs, EachBecomes};
ghost use Rattle.agent_workers.specs.Turns.{visit_limit, sprint_limit, IsReady, StaysReady, HasTurned, SomeFailed, AreTurning, HavePlayed};
ghost use Rattle.agent_workers.specs.Watched.{IsUnmarked, MarksReceivers, all_due, MayBePassed, NeedsNoVisit, MarksKnowing, MarksWaiting, PassesUnmarked, IsPlayedInTurns};
ghost use Rattle.agent_workers.specs.Shared.{ArePlayedInParts};
ghost use Rattle.agent_workers.specs.Broken.{HasGoneOn, HasFailedVisit, AreCutShort};

use crate::parts::play_parts;
use crate::watch::Watch;
use agent_cells::{Cell, VisitFault};
use dcop_edge::Gate;
use std::thread::Threads;

/// The most turns of a part in a round.
const MOST_TURNS: usize = 32;

/// The greatest number of turns in a round is the same in the code and in the definitions.
pub fn turns_agree()
    ensures { MOST_TURNS ≡ most_events }
{}

/// Plays cells concurrently in parts of `size` cells, but the last may have fewer. Only the first
/// `busy` parts may have something to do; those after them are played in one thread. Returns how
/// many messages were taken.
pub(crate) fn play_cells<R: Threads + Sync, G: Gate>(
    rt: &R,
    gate: &G,
    size: usize,
    busy: usize,
    cells: &mut [Cell],
) -> Result<u64, VisitFault>
    requires size { 0 < size }
    requires ready { EachIs (λ c. IsReady (λ b. meaning (b.vtable, b.value)) c) cells.old }
    requires few { length cells.old ≤ variable_limit }
    ensures ready { EachBecomes (λ a b. StaysReady (λ b. meaning (b.vtable, b.value)) a b) cells.old cells.new }
    ensures ok { IfOk result (λ n. HavePlayed (λ b. meaning (b.vtable, b.value)) n cells.old cells.new) }
    ensures parts { OnOk result (ArePlayedInParts (λ b. meaning (b.vtable, b.value)) size cells.old cells.new) }
    ensures turns { length cells.old ≤ size → OnOk result (IsPlayedInTurns (λ b. meaning (b.vtable, b.value)) true cells.old cells.new) }
    ensures err { IfErr result (λ f. SomeFailed f cells.new) }
    ensures left { (parts : ℕ) → 0 < parts → length cells.old ≤ parts * size
        → IfErr result (λ f. AreCutShort (λ b. meaning (b.vtable, b.value)) f HasGoneOn sprint_limit parts cells.old cells.new) }
{
    let alone = cells.len() <= size;
    let play = |part: &mut [Cell]| -> Result<u64, VisitFault>
        requires { EachIs (λ c. IsReady (λ b. meaning (b.vtable, b.value)) c) part.now × (length part.now ≤ variable_limit) }
        ensures ready { EachBecomes (λ a b. StaysReady (λ b. meaning (b.vtable, b.value)) a b) part.entry.now part.exit.now }
        ensures ok { IfOk result (λ n. HavePlayed (λ b. meaning (b.vtable, b.value)) n part.entry.now part.exit.now) }
        ensures err { IfErr result (λ f. SomeFailed f part.exit.now) }
        ensures left { IfErr result (λ f. AreCutShort (λ b. meaning (b.vtable, b.value)) f HasGoneOn sprint_limit 1 part.entry.now part.exit.now) }
        ensures turns { OnOk result (IsPlayedInTurns (λ b. meaning (b.vtable, b.value)) alone part.entry.now part.exit.now) }
    { play_part(gate, alone, part) };
    play_parts(rt, &play, size, busy, cells)
}

/// Plays a part: turn after turn, until one takes nothing, at most 32. Returns how many messages
/// were taken.
///
/// The clause `turns` says whom a turn visits. Each turn visits each cell that has not ended once,
/// unless the part is `alone`: it has all cells, and during a round nothing is sent on a link
/// except by visits of these cells. Then a turn passes over a cell only if the cell knows of
/// nothing and nothing was sent to it since the turn before reached it (in the first turn: since
/// this turn began). The links were settled just before the first turn, so a visit would find
/// nothing. A cell that is passed over passes no gate.
///
/// The marks of a [`Watch`] decide this. A visit marks each agent to which it sends something, and
/// its own cell if it left something that the cell knows of. Only a cell's own turn takes its mark
/// away.
///
/// Two things are no clause. What another thread sends during a turn has no place in the order of
/// these visits; so a part that is not `alone` visits all its cells in each turn. And a visit need
/// not find what was sent before it: it takes at least what its cell knows to wait, and at most 64
/// messages of each link, and the settling of the next round shows what is left. A visit that finds
/// nothing leaves the cell as it was; contracts tell it from no visit by the number of visits,
/// which only proofs know.
pub(crate) fn play_part<G: Gate>(
    gate: &G,
    alone: bool,
    cells: &mut [Cell],
) -> Result<u64, VisitFault>
    requires ready { EachIs (λ c. IsReady (λ b. meaning (b.vtable, b.value)) c) cells.old }
    requires few { length cells.old ≤ variable_limit }
    ensures ready { EachBecomes (λ a b. StaysReady (λ b. meaning (b.vtable, b.value)) a b) cells.old cells.new }
    ensures ok { IfOk result (λ n. HavePlayed (λ b. meaning (b.vtable, b.value)) n cells.old cells.new) }
    ensures turns { OnOk result (IsPlayedInTurns (λ b. meaning (b.vtable, b.value)) alone cells.old cells.new) }
    ensures err { IfErr result (λ f. SomeFailed f cells.new) }
    ensures left { IfErr result (λ f. AreCutShort (λ b. meaning (b.vtable, b.value)) f HasGoneOn sprint_limit 1 cells.old cells.new) }
{
    let mut watch = Watch::new();
    let mut taken = 0;
    for turn in 0..MOST_TURNS {
        let all = goes_to_all(turn, alone);
        let more = take_turn(gate, all, alone, &mut watch, cells)?;
        taken += more;
        if more == 0 {
            return Ok(taken);
        }
    }
    Ok(taken)
}

/// Whether this turn goes to all cells that have not ended, marked or not. The first turn does. If
/// the part is not `alone`, each turn does, since something may arrive for any cell at any time.
fn goes_to_all(turn: usize, alone: bool) -> bool
    ensures first { turn ≡ 0 → result ≡ true }
    ensures due { result ≡ all_due turn alone }
{
    turn == 0 || !alone
}

/// Plays a turn: visits each cell that has not ended once, in order. If it does not go to `all`, it
/// visits only those that are marked. If it does and the part is `alone`, every link was settled
/// just before, and it passes over unmarked cells that know of nothing. Returns how many messages
/// were taken.
fn take_turn<G: Gate>(
    gate: &G,
    all: bool,
    alone: bool,
    watch: &mut Watch,
    cells: &mut [Cell],
) -> Result<u64, VisitFault>
    requires ready { EachIs (λ c. IsReady (λ b. meaning (b.vtable, b.value)) c) cells.old }
    requires few { length cells.old ≤ variable_limit }
    requires known { all ≡ false → MarksKnowing (λ b. meaning (b.vtable, b.value)) watch.old.waits (length cells.old) cells.old }
    ensures ready { EachBecomes (λ a b. StaysReady (λ b. meaning (b.vtable, b.value)) a b) cells.old cells.new }
    ensures ok { IfOk result (λ n. AreTurning (λ b. meaning (b.vtable, b.value)) all (length cells.old) n cells.old cells.new) }
    ensures turn { OnOk result (PassesUnmarked (λ b. meaning (b.vtable, b.value)) all alone watch.old.waits (length cells.old) cells.old cells.new) }
    ensures marks { OnOk result (MarksWaiting (λ b. meaning (b.vtable, b.value)) watch.new.waits (length cells.old) cells.old cells.new) }
    ensures known { OnOk result (MarksKnowing (λ b. meaning (b.vtable, b.value)) watch.new.waits (length cells.old) cells.new) }
    ensures err { IfErr result (λ f. SomeFailed f cells.new) }
    ensures left { IfErr result (λ f. AreCutShort (λ b. meaning (b.vtable, b.value)) f HasGoneOn visit_limit 1 cells.old cells.new) }
{
    if all {
        return visit_all(gate, alone, watch, cells);
    }
    visit_waiting(gate, watch, cells)
}

/// Visits each cell that has not ended once, in order. If every link was `settled` just before, and
/// only these visits send, an unmarked cell knows all that waits for it, and is passed over if that
/// is nothing. Returns how many messages were taken.
fn visit_all<G: Gate>(
    gate: &G,
    settled: bool,
    watch: &mut Watch,
    cells: &mut [Cell],
) -> Result<u64, VisitFault>
    requires ready { EachIs (λ c. IsReady (λ b. meaning (b.vtable, b.value)) c) cells.old }
    requires few { length cells.old ≤ variable_limit }
    ensures ready { EachBecomes (λ a b. StaysReady (λ b. meaning (b.vtable, b.value)) a b) cells.old cells.new }
    ensures ok { IfOk result (λ n. AreTurning (λ b. meaning (b.vtable, b.value)) true (length cells.old) n cells.old cells.new) }
    ensures turn { OnOk result (PassesUnmarked (λ b. meaning (b.vtable, b.value)) true settled watch.old.waits (length cells.old) cells.old cells.new) }
    ensures marks { OnOk result (MarksWaiting (λ b. meaning (b.vtable, b.value)) watch.new.waits (length cells.old) cells.old cells.new) }
    ensures known { OnOk result (MarksKnowing (λ b. meaning (b.vtable, b.value)) watch.new.waits (length cells.old) cells.new) }
    ensures err { IfErr result (λ f. SomeFailed f cells.new) }
    ensures left { IfErr result (λ f. AreCutShort (λ b. meaning (b.vtable, b.value)) f HasGoneOn visit_limit 1 cells.old cells.new) }
{
    let mut taken = 0;
    for (place, cell) in cells.iter_mut().enumerate() {
        taken += visit_once(gate, settled, place, watch, cell)?;
    }
    Ok(taken)
}

/// Visits each marked cell that has not ended once, in order, including a cell that a visit before
/// it in this turn has marked. Returns how many messages were taken.
fn visit_waiting<G: Gate>(
    gate: &G,
    watch: &mut Watch,
    cells: &mut [Cell],
) -> Result<u64, VisitFault>
    requires ready { EachIs (λ c. IsReady (λ b. meaning (b.vtable, b.value)) c) cells.old }
    requires few { length cells.old ≤ variable_limit }
    requires known { MarksKnowing (λ b. meaning (b.vtable, b.value)) watch.old.waits (length cells.old) cells.old }
    ensures ready { EachBecomes (λ a b. StaysReady (λ b. meaning (b.vtable, b.value)) a b) cells.old cells.new }
    ensures ok { IfOk result (λ n. AreTurning (λ b. meaning (b.vtable, b.value)) false (length cells.old) n cells.old cells.new) }
    ensures turn { (alone : Bool) → OnOk result (PassesUnmarked (λ b. meaning (b.vtable, b.value)) false alone watch.old.waits (length cells.old) cells.old cells.new) }
    ensures marks { OnOk result (MarksWaiting (λ b. meaning (b.vtable, b.value)) watch.new.waits (length cells.old) cells.old cells.new) }
    ensures known { OnOk result (MarksKnowing (λ b. meaning (b.vtable, b.value)) watch.new.waits (length cells.old) cells.new) }
    ensures err { IfErr result (λ f. SomeFailed f cells.new) }
    ensures left { IfErr result (λ f. AreCutShort (λ b. meaning (b.vtable, b.value)) f HasGoneOn visit_limit 1 cells.old cells.new) }
{
    let mut taken = 0;
    let mut from = 0;
    while let Some(place) = watch.next(from, cells.len()) {
        taken += visit_once(gate, false, place, watch, &mut cells[place])?;
        from = place + 1;
    }
    Ok(taken)
}

/// Visits the cell at this place, if it has not ended, takes its mark away, and marks each agent to
/// which the visit sends something, and the cell again if it still knows of something. If an
/// unmarked cell knows all that waits for it (`known`), and that is nothing, there is no visit.
/// Returns how many messages were taken.
fn visit_once<G: Gate>(
    gate: &G,
    known: bool,
    place: usize,
    watch: &mut Watch,
    cell: &mut Cell,
) -> Result<u64, VisitFault>
    requires ready { IsReady (λ b. meaning (b.vtable, b.value)) cell.old }
    requires inside { place < variable_limit }
    ensures ready { StaysReady (λ b. meaning (b.vtable, b.value)) cell.old cell.new }
    ensures ok { IfOk result (λ n. HasTurned (λ b. meaning (b.vtable, b.value)) n cell.old cell.new) }
    ensures turn { OnOk result (MayBePassed (λ b. meaning (b.vtable, b.value)) known watch.old.waits place cell.old cell.new) }
    ensures marks { OnOk result (MarksReceivers place watch.old.waits watch.new.waits
        (state_of (λ b. meaning (b.vtable, b.value)) cell.old).sent (state_of (λ b. meaning (b.vtable, b.value)) cell.new).sent) }
    ensures known { OnOk result (IsUnmarked watch.new.waits place → NeedsNoVisit (λ b. meaning (b.vtable, b.value)) cell.new) }
    ensures err { IfErr result (λ f. fault_in cell.new ≡ Some f) }
    ensures left { IfErr result (λ f. fault_in cell.old ≡ None
        → HasFailedVisit (λ b. meaning (b.vtable, b.value)) f
        (state_of (λ b. meaning (b.vtable, b.value)) cell.old) cell.new) }
    ensures again { IfErr result (λ f. IfSome (fault_in cell.old) (λ own. cell.new ≡ cell.old)) }
{
    let marked = watch.look(place);
    if is_idle(known && !marked, cell) {
        return Ok(0);
    }
    if cell.ended() {
        return Ok(0);
    }
    let taken = cell.visit_marking(gate, &mut watch.marks)?;
    watch.keep_own(place, cell);
    if taken > 0 {
        watch.keep(cell);
    }
    Ok(taken)
}

/// Whether nothing waits for a cell that knows all that waits for it; false if that is not `known`.
fn is_idle(known: bool, cell: &Cell) -> bool
    ensures known { result ≡ true → known ≡ true }
    ensures fine { result ≡ true → fault_in cell.now ≡ None }
    ensures none { result ≡ true → (j : ℕ) → known_from j (state_of (λ b. meaning (b.vtable, b.value)) cell.now).known ≡ 0 }
{
    if !known {
        return false;
    }
    cell.rests()
}
