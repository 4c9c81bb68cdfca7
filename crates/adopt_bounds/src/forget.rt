//! Resetting entries whose context is not part of what is known.

ghost use Rattle.std.specs.Prelude.{◌≡◌, ◌*◌, ◌<◌, ◌≤◌, length, map};
ghost use Rattle.adopt_context.specs.Allot.{kept, reset};
ghost use Rattle.adopt_bounds.specs.Rows.{entries_of, rows_of};
ghost use Rattle.adopt_bounds.specs.Totals.{AreBounds, AreEntryParts, totals_of};

use crate::interval::Interval;
use crate::totals::Totals;
use adopt_context::AgentContext;

/// Resets the entries whose context is not part of what is known. Each row has `width` entries.
pub(crate) fn forget_rows(
    totals: &mut [Totals],
    lower: &mut [u64],
    upper: &mut [Option<u64>],
    share: &mut [u64],
    contexts: &mut [AgentContext],
    width: usize,
    known: &AgentContext,
)
    requires { AreBounds width lower.old upper.old share.old contexts.old totals.old }
    ensures bounds { AreBounds width lower.new upper.new share.new contexts.new totals.new }
    ensures rows { rows_of (length totals.old) width (entries_of lower.new upper.new share.new contexts.new)
        ≡ reset known.now (rows_of (length totals.old) width
        (entries_of lower.old upper.old share.old contexts.old)) }
{
    let Some((first, totals)) = totals.split_first_mut() else {
        return;
    };
    let (row_lower, lower) = lower.split_at_mut(width);
    let (row_upper, upper) = upper.split_at_mut(width);
    let (row_share, share) = share.split_at_mut(width);
    let (row_contexts, contexts) = contexts.split_at_mut(width);
    forget_row(first, row_lower, row_upper, row_share, row_contexts, known);
    forget_rows(totals, lower, upper, share, contexts, width, known);
}

/// Resets the entries of a row whose context is not part of what is known.
fn forget_row(
    totals: &mut Totals,
    lower: &mut [u64],
    upper: &mut [Option<u64>],
    share: &mut [u64],
    contexts: &mut [AgentContext],
    known: &AgentContext,
)
    requires parts { AreEntryParts (length lower.old) lower.old upper.old share.old contexts.old }
    requires totals { totals.old ≡ totals_of (entries_of lower.old upper.old share.old contexts.old) }
    ensures parts { AreEntryParts (length lower.old) lower.new upper.new share.new contexts.new }
    ensures totals { totals.new ≡ totals_of (entries_of lower.new upper.new share.new contexts.new) }
    ensures entries { entries_of lower.new upper.new share.new contexts.new
        ≡ map (kept known.now) (entries_of lower.old upper.old share.old contexts.old) }
{
    for k in 0..lower.len() {
        if !contexts[k].part_of(known) {
            let bounds = Interval {
                lower: lower[k],
                upper: upper[k],
            };
            totals.exchange(
                bounds,
                Interval {
                    lower: 0,
                    upper: None,
                },
            );
            lower[k] = 0;
            upper[k] = None;
            share[k] = 0;
            contexts[k].clear();
        }
    }
}
