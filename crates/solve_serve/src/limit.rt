//! Limits of a session.

ghost use Rattle.std.specs.Prelude.{◌≡◌};
ghost use Rattle.solve_serve.specs.Limits.{request_limit, session_limit};

/// The most bytes of a request, 2^20.
pub const MAX_REQUEST: u32 = 1_048_576;

/// The most replies of a session.
pub const MAX_REPLIES: u64 = 1_000;

/// The limits of the code are those of the definitions.
pub fn limits_agree()
    ensures request { MAX_REQUEST ≡ request_limit }
    ensures session { MAX_REPLIES ≡ session_limit }
{}
