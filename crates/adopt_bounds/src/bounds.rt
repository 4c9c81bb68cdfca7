//! The bounds of an agent, for each own value and child.

ghost use Rattle.std.specs.Prelude.{◌≡◌, ◌+◌, ◌*◌, ◌<◌, ◌≤◌, ◌==◌, true, length, replicate, None, IfOk, IfSome, OnErr, slice_set, if◌then◌else◌};
ghost use Rattle.dcop_base.specs.Limits.{amount_limit, variable_limit};
ghost use Rattle.dcop_base.specs.Table.{has};
ghost use Rattle.adopt_context.specs.Allot.{reset, allot};
ghost use Rattle.adopt_context.specs.Bounds.{blank, capped, entry_at, lower_at, row_at, upper_at, upper_sum};
ghost use Rattle.adopt_context.specs.Context.{compatible};
ghost use Rattle.adopt_context.specs.Merge.{may_merge};
ghost use Rattle.adopt_bounds.specs.Rows.{entry_of, merged_at, place_of, with_merged};

use crate::allot::allot_at;
use crate::forget::forget_rows;
use crate::interval::Interval;
use crate::totals::Totals;
use adopt_context::AgentContext;
use dcop_base::{CAP, NoMemory, Val, VarId, VarList, position_of};
use std::alloc::Global;
use std::marker::Model;

/// What an ADOPT agent holds for each own value and child: a lower bound; an upper bound, which is
/// `None` as long as there is none; the share of its threshold that is allotted to the child; and
/// the context on which the bounds depend. All amounts are at most [`CAP`].
///
/// Contracts see the children and the rows of entries. There is one row for each own value, with
/// one entry for each child, in the order of the children.
#[derive(Debug, Drop)]
pub struct Bounds {
    children: VarList,
    lower: Vec<u64>,
    upper: Vec<Option<u64>>,
    share: Vec<u64>,
    contexts: Vec<AgentContext>,
    totals: Vec<Totals>,
}

impl Model for Bounds {
    ghost use Rattle.std.specs.Prelude.{◌≡◌, ◌*◌, length, map};
    ghost use Rattle.adopt_bounds.specs.Rows.{BoundsView, entries_of, rows_of};
    ghost use Rattle.adopt_bounds.specs.Totals.{AreBounds};

    ghost Value = { BoundsView };

    ghost view = { λ b. record {
      children = b.children;
      rows = rows_of (length b.totals.items) (length b.children)
          (entries_of b.lower.items b.upper.items b.share.items b.contexts.items);
    } };

    ghost invariant = { λ b. AreBounds (length b.children) b.lower.items b.upper.items b.share.items
        b.contexts.items b.totals.items };
}

impl Bounds {
    /// Bounds in which nothing is known: all lower bounds and shares are 0, there are no upper
    /// bounds, and all contexts are empty. There are at most
    /// [`MAX_VARIABLES`](dcop_base::MAX_VARIABLES) children.
    ///
    /// # Errors
    ///
    /// [`NoMemory`] if memory runs out. The list is dropped in that case.
    pub fn new(alloc: Global, size: u16, children: VarList) -> Result<Bounds, NoMemory>
        requires { length children ≤ variable_limit }
        ensures children { IfOk result (λ bounds. bounds.children ≡ children) }
        ensures rows { IfOk result (λ bounds.
            bounds.rows ≡ replicate size (replicate (length children) blank)) }
    {
        let size = usize::from(size);
        let width = children.as_slice().len();
        let count = size * width;
        Ok(Bounds {
            children,
            lower: vec![in alloc; 0; count]?,
            upper: none_yet(alloc, count)?,
            share: vec![in alloc; 0; count]?,
            contexts: vec![in alloc; AgentContext::new(alloc); count]?,
            totals: vec![in alloc; Totals::of_blank(width); size]?,
        })
    }

    /// The children, in the order in which each own value has their entries.
    pub fn children(&self) -> &VarList
        ensures { result.now ≡ self.now.children }
    {
        &self.children
    }

    /// LB(d): the cost `own` of an own value plus its lower bounds, at most [`CAP`].
    pub fn lb_of(&self, own: u64, d: Val) -> u64
        requires value { d < length self.now.rows }
        ensures { result ≡ lower_at (λ e. own) self.now.rows d }
    {
        self.totals[usize::from(d.0)].lower_with(own)
    }

    /// UB(d): the cost `own` of an own value plus its upper bounds, at most [`CAP`]; `None` if the
    /// cost or one of the upper bounds is not there.
    pub fn ub_of(&self, own: Option<u64>, d: Val) -> Option<u64>
        requires value { d < length self.now.rows }
        ensures { result ≡ upper_at (λ e. own) self.now.rows d }
    {
        self.totals[usize::from(d.0)].upper_with(own)
    }

    /// The sum of the upper bounds for an own value, at most [`CAP`]; `None` if one of them is not
    /// there.
    pub fn upper_sum_of(&self, d: Val) -> Option<u64>
        requires value { d < length self.now.rows }
        ensures { result ≡ capped (upper_sum (row_at self.now.rows d)) }
    {
        self.ub_of(Some(0), d)
    }

    /// The share of the threshold that is allotted to a child for an own value.
    pub fn threshold_of(&self, d: Val, child: VarId) -> u64
        requires value { d < length self.now.rows }
        requires child { has self.now.children child ≡ true }
        ensures share { result ≡ (entry_of self.now d child).share }
        ensures within { result ≤ amount_limit }
    {
        self.share_at(d, place_of(self.children.as_slice(), child))
    }

    /// The share of the threshold that is allotted for an own value to the child at this place among
    /// the children.
    pub fn share_at(&self, d: Val, place: usize) -> u64
        requires value { d < length self.now.rows }
        requires place { place < length self.now.children }
        ensures share { result ≡ (entry_at self.now.rows d place).share }
        ensures within { result ≤ amount_limit }
    {
        self.share[index_at(self.children.as_slice(), d, place)]
    }

    /// Resets the entries whose context is not part of what is known: their bounds become 0 and
    /// none, their share 0 and their context empty.
    pub fn reset(&mut self, known: &AgentContext)
        ensures { self.new ≡ record self.old { rows = reset known.now self.old.rows } }
    {
        let width = self.children.as_slice().len();
        forget_rows(
            self.totals.as_mut_slice(),
            self.lower.as_mut_slice(),
            self.upper.as_mut_slice(),
            self.share.as_mut_slice(),
            self.contexts.as_mut_slice(),
            width,
            known,
        );
    }

    /// Divides the cost `goal` among the children, as their shares of the threshold for an own
    /// value. The shares are raised, each to no more than its upper bound, or lowered, each to no
    /// less than its lower bound, in the order of the children, until they add up to `goal` or no
    /// share can move further.
    pub fn allot(&mut self, d: Val, goal: u64)
        requires value { d < length self.old.rows }
        requires goal { goal ≤ amount_limit }
        ensures { self.new ≡ record self.old {
          rows = slice_set self.old.rows d (allot goal (row_at self.old.rows d));
        } }
    {
        let width = self.children.as_slice().len();
        allot_at(
            self.share.as_mut_slice(),
            self.lower.as_slice(),
            self.upper.as_slice(),
            usize::from(d.0) * width,
            width,
            goal,
        );
    }

    /// Merges the bounds that a child sends into the entry for an own value. The entry gets the
    /// larger lower bound and the smaller upper bound (`None` counts as the largest), and the pairs
    /// of both contexts. Its share is raised to the lower bound and lowered to the upper one.
    /// Returns `false` exactly if that lower bound would exceed the upper one; nothing changes in
    /// that case.
    ///
    /// # Errors
    ///
    /// [`NoMemory`] if memory runs out; nothing changes in that case.
    pub fn store(
        &mut self,
        d: Val,
        child: VarId,
        context: &AgentContext,
        lower: u64,
        upper: Option<u64>,
    ) -> Result<bool, NoMemory>
        requires value { d < length self.old.rows }
        requires child { has self.old.children child ≡ true }
        requires compatible { compatible (entry_of self.old d child).context context.now ≡ true }
        requires lower { lower ≤ amount_limit }
        requires upper { IfSome upper (λ u. u ≤ amount_limit) }
        ensures stored { IfOk result (λ stored. stored ≡ may_merge (entry_of self.old d child) lower upper) }
        ensures merged { IfOk result (λ stored. self.new ≡
            if stored then with_merged self.old d child context.now lower upper else self.old) }
        ensures kept { OnErr result (self.new ≡ self.old) }
    {
        let place = place_of(self.children.as_slice(), child);
        self.store_at(d, place, context, lower, upper)
    }

    /// Merges the bounds that the child at this place among the children sends, as
    /// [`store`](Bounds::store) does.
    ///
    /// # Errors
    ///
    /// [`NoMemory`] if memory runs out; nothing changes in that case.
    pub fn store_at(
        &mut self,
        d: Val,
        place: usize,
        context: &AgentContext,
        lower: u64,
        upper: Option<u64>,
    ) -> Result<bool, NoMemory>
        requires value { d < length self.old.rows }
        requires place { place < length self.old.children }
        requires compatible { compatible (entry_at self.old.rows d place).context context.now ≡ true }
        requires lower { lower ≤ amount_limit }
        requires upper { IfSome upper (λ u. u ≤ amount_limit) }
        ensures stored { IfOk result (λ stored. stored ≡ may_merge (entry_at self.old.rows d place) lower upper) }
        ensures merged { IfOk result (λ stored. self.new ≡
            if stored then merged_at self.old d place context.now lower upper else self.old) }
        ensures kept { OnErr result (self.new ≡ self.old) }
    {
        let index = index_at(self.children.as_slice(), d, place);
        let old = Interval {
            lower: self.lower[index],
            upper: self.upper[index],
        };
        let Some(new) = old.merged(Interval { lower, upper }) else {
            return Ok(false);
        };
        self.contexts[index].union(context)?;
        self.totals[usize::from(d.0)].exchange(old, new);
        self.lower[index] = new.lower;
        self.upper[index] = new.upper;
        self.share[index] = new.nearest(self.share[index]);
        Ok(true)
    }
}

/// `count` upper bounds that are not there yet.
fn none_yet(alloc: Global, count: usize) -> Result<Vec<Option<u64>>, NoMemory>
    ensures { IfOk result (λ upper. upper.items ≡ replicate count None) }
{
    let mut upper = Vec::with_capacity(alloc, count)?;
    for _ in 0..count {
        upper.push(None)?;
    }
    Ok(upper)
}

/// The place of a child among the children.
fn place_of(children: &[VarId], child: VarId) -> usize
    requires child { has children.now child ≡ true }
    ensures place { result ≡ place_of children.now child }
    ensures within { result < length children.now }
{
    position_of(children, child).unwrap_or(0)
}

/// The index in the flat lists of the entry for an own value and the child at a place.
fn index_at(children: &[VarId], d: Val, place: usize) -> usize
    requires place { place < length children.now }
    requires within { (d + 1) * length children.now ≤ usize.MAX }
    ensures { result ≡ d * length children.now + place }
{
    usize::from(d.0) * children.len() + place
}
