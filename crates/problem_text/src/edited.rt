//! The answers of an edit session.

use dcop_base::{Sequence, ValList};

/// An optimum after edits, and how many agents' tables were recomputed for it.
#[derive(Clone, Debug, Drop)]
pub struct Edited {
    /// The cost of the values.
    pub cost: u64,
    /// The values, one for each variable.
    pub values: ValList,
    /// How many agents' tables were recomputed.
    pub remade: u64,
}

/// The answers of a session, in order.
pub type EditedList = Sequence<Edited>;
