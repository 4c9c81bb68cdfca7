//! Limits of replies and of the cache.

ghost use Rattle.std.specs.Prelude.{◌≡◌};
ghost use Rattle.reply_cache.specs.Limits.{reply_limit, key_limit, entry_limit};

/// The most bytes of a reply, 2^24.
pub const MAX_REPLY: u32 = 16_777_216;

/// The most bytes of a key that is kept, 2^16.
pub const MAX_KEY: usize = 65_536;

/// The most entries of a cache.
pub const MAX_ENTRIES: u32 = 1_024;

/// The limits of the code are those of the definitions.
pub fn limits_agree()
    ensures reply { MAX_REPLY ≡ reply_limit }
    ensures key { MAX_KEY ≡ key_limit }
    ensures entries { MAX_ENTRIES ≡ entry_limit }
{}
