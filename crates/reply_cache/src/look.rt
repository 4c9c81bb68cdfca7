//! A look at a cache.

ghost use Rattle.std.specs.Prelude.{◌≡◌};

use crate::key::Key;

/// A look at a cache for a key. Only the cache makes one, when it has looked.
#[derive(Drop)]
pub struct Look<'a> {
    key: &'a Key,
    found: bool,
}

impl<'a> Look<'a> {
    /// The look for this key, which found its reply or not.
    pub(crate) fn new(key: &'a Key, found: bool) -> Self
        ensures { (result.key.now ≡ key.now) × (result.found ≡ found) }
    {
        Look { key, found }
    }
}
