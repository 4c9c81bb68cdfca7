//! The law about the stamps of merged journals.

ghost use Rattle.run_log.specs.Laws.{MergedStampsAreRight};

/// The merged journals of a run of cells are a log of that run. It leads to the same end, and its
/// stamps are right.
pub fn merged_stamps_are_right()
    ensures { MergedStampsAreRight }
{}
