//! The law of the files made from WCSP texts.

ghost use Rattle.answer_io.specs.WcspLaw.{WcspFilesHaveValues};

/// In any file that declares what the network of a WCSP text declares, the cost of an assignment
/// gives its WCSP value: the cost itself if it is below the bar, and otherwise top, the cost of
/// what is forbidden. So an assignment of least cost has the least WCSP value.
///
/// The law is the contract of a call that does nothing: to use the law, call it.
pub fn wcsp_files_have_values()
    ensures { WcspFilesHaveValues }
{}
