//! The law of the files that a search gives. It is the contract of a call that does nothing: to use
//! the law, call it.

ghost use Rattle.order_search.specs.Finding.{SearchedFilesAreOne};

use problem_order::narrowed_files_are_one;

/// The file that [`narrowed`](crate::narrowed) gives is one function of the file, the tries and the
/// seed.
pub fn searched_files_are_one()
    ensures { SearchedFilesAreOne }
{
    narrowed_files_are_one();
}
