//! Laws of sessions. Each is the contract of a call that does nothing: to use the law, call it.

ghost use Rattle.solve_serve.specs.Exact.{EndsExactly, AnswersFirst, RepliesAreOne};

use reply_cache::Maker;

/// If a source's bytes are known, a session that ends without a fault and without running out of
/// memory ends as its whole input says: by the limit if it has that many frames; otherwise by a
/// length field that is too long; otherwise after whole frames or inside one.
pub fn ends_exactly<M: Maker>()
    ensures { EndsExactly M.does M.is_reply }
{}

/// If a source's bytes are known, the requests that a session answered are the first frames of its
/// whole input, in order.
pub fn answers_first<M: Maker>()
    ensures { AnswersFirst M.does M.is_reply }
{}

/// Two sessions with one type of maker that answered the same requests gave the same replies,
/// whatever they found in a cache.
pub fn replies_are_one<M: Maker>()
    ensures { RepliesAreOne M.does M.is_reply }
{
    M::keys_have_one_reply();
}
