//! Why the lines of an edit session are refused.

ghost use Rattle.std.specs.Prelude.{◌≡◌};
ghost use Rattle.edit_text.specs.Kinds.{number_of_edit};

/// The kind of a fault in the lines of an edit session.
#[derive(Clone, Copy, Debug, PartialEq, Eq)]
pub enum EditKind {
    /// The line has none of the forms, or a further word follows `end`.
    BadLine,
    /// A word that must be a number does not have 1 to 19 digits.
    BadNumber,
    /// The number of the table is not below the number of tables.
    NoTable,
    /// The table has no such cell, or the number of given cells is not that of the table.
    NoCell,
    /// A cost is above [`MAX_COST`](dcop_base::MAX_COST).
    CostTooLarge,
    /// The sum of the greatest cells of all tables would exceed [`CAP`](dcop_base::CAP).
    SumTooLarge,
    /// The input ends before `end`.
    NoEnd,
}

impl EditKind {
    /// The number that a user sees for the kind.
    pub fn number(self) -> u8
        ensures { result ≡ number_of_edit self }
    {
        match self {
            EditKind::BadLine => 1,
            EditKind::BadNumber => 2,
            EditKind::NoTable => 3,
            EditKind::NoCell => 4,
            EditKind::CostTooLarge => 5,
            EditKind::SumTooLarge => 6,
            EditKind::NoEnd => 7,
        }
    }
}
