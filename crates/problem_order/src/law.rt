//! Laws of files in another order. Each is the contract of a call that does nothing: to use the
//! law, call it.

ghost use Rattle.problem_order.specs.Costs.{ReorderedFilesCostTheSame};
ghost use Rattle.problem_order.specs.Lines.{ReorderedFilesKeepTheirLines};
ghost use Rattle.problem_order.specs.Narrowed.{NarrowedFilesAreOne};

/// A file and the same file in another order have the same assignments by names, with the same
/// costs. So the best sum is the same, for goal min and for goal max.
pub fn reordered_files_cost_the_same()
    ensures { ReorderedFilesCostTheSame }
{}

/// The canonical text of a file in another order has the lines of the old one, with the lines of
/// the variables in that order. So it is one function of the file and the order.
pub fn reordered_files_keep_their_lines()
    ensures { ReorderedFilesKeepTheirLines }
{}

/// For the same file and the same order, [`narrower`](crate::narrower) always gives the same file.
pub fn narrowed_files_are_one()
    ensures { NarrowedFilesAreOne }
{}
