//! Laws of codes. Each is the contract of a function that does nothing: a proof that needs the law
//! calls it.

ghost use Rattle.message_code.specs.Decode.{CodesDiffer, CodesAreGood};

/// Two different envelopes have different codes.
pub fn codes_differ()
    ensures { CodesDiffer }
{}

/// The code of an envelope has no bad position: each of its fields is complete and within its
/// range, and nothing follows.
pub fn codes_are_good()
    ensures { CodesAreGood }
{}
