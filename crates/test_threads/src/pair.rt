//! A problem of two agents and the answer to it, also as frames of requests and replies.

/// The problem.
pub(crate) const PAIR: &str = "dcop 1\nvar x 2\nvar y 2\ntable x y : 5 3 2 7\nend\n";

/// The answer to it by DPOP.
pub(crate) const SOLVED: &str =
    "status solved\nmethod dpop\nerror 0\ndeliveries 2\ncost 2\nlower 2\nupper 2\nvalue x 1\nvalue y 0\nend\n";

/// The frame of the problem.
pub(crate) const ONCE: &[u8] =
    b"\x00\x00\x00\x2fdcop 1\nvar x 2\nvar y 2\ntable x y : 5 3 2 7\nend\n";

/// The same twice.
pub(crate) const TWICE: &[u8] =
    b"\x00\x00\x00\x2fdcop 1\nvar x 2\nvar y 2\ntable x y : 5 3 2 7\nend\n\x00\x00\x00\x2fdcop 1\nvar x 2\nvar y 2\ntable x y : 5 3 2 7\nend\n";

/// The frame of the answer.
const REPLY: &[u8] =
    b"\x00\x00\x00\x5estatus solved\nmethod dpop\nerror 0\ndeliveries 2\ncost 2\nlower 2\nupper 2\nvalue x 1\nvalue y 0\nend\n";

/// The same twice.
const REPLIES: &[u8] =
    b"\x00\x00\x00\x5estatus solved\nmethod dpop\nerror 0\ndeliveries 2\ncost 2\nlower 2\nupper 2\nvalue x 1\nvalue y 0\nend\n\x00\x00\x00\x5estatus solved\nmethod dpop\nerror 0\ndeliveries 2\ncost 2\nlower 2\nupper 2\nvalue x 1\nvalue y 0\nend\n";

/// How many replies these bytes are: none, one or two; `None` if they are something else.
pub(crate) fn replies_in(written: &[u8]) -> Option<u64> {
    if written.is_empty() {
        Some(0)
    } else if written == REPLY {
        Some(1)
    } else if written == REPLIES {
        Some(2)
    } else {
        None
    }
}
