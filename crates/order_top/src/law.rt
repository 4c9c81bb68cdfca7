//! The law of the replies. It is the contract of a call that does nothing: to use the law, call it.

ghost use Rattle.order_top.specs.Answering.{OrderAnswersAreOne, OrderedFilesAreOne};

use order_search::searched_files_are_one;

/// The reply is one function of the words and the input: the same words and the same bytes have one
/// reply, and so one text. The file in that text is one function of what the words ask for and of
/// what the bytes declare.
pub fn order_answers_are_one()
    ensures replies { OrderAnswersAreOne }
    ensures files { OrderedFilesAreOne }
{
    searched_files_are_one();
}
