//! Keys of replies.

ghost use Rattle.std.specs.Prelude.{◌≡◌, nat_eq};
ghost use Rattle.std.specs.Cmp.{partial_equiv_from_equiv};
ghost use Rattle.std.specs.Cmp.Lexicographic.{pointwise, bytes_decides, nat_list_eq_equiv};
ghost use Rattle.std.specs.Hash as fed;
ghost use Rattle.std.specs.Hash.{same_Alike};
ghost use Rattle.reply_cache.specs.Digest.{digest_of};

use dcop_base::Bytes;
use std::hash::{FoldHasher, Hash, Hasher};
use std::marker::Model;

/// The key of a reply: the bytes of a request. Contracts see the bytes.
///
/// It keeps a digest of its bytes, so that hashing it takes no longer for more bytes, and comparing
/// it reads the bytes only of a key with the same digest.
#[derive(Drop)]
pub struct Key {
    bytes: Bytes,
    digest: u64,
}

impl Model for Key {
    ghost use Rattle.std.specs.Prelude.{◌≡◌, ℕ, List};
    ghost use Rattle.reply_cache.specs.Digest.{digest_of};

    ghost Value = { List ℕ };

    ghost view = { λ k. k.bytes };

    ghost invariant = { λ k. k.digest ≡ digest_of k.bytes };
}

impl Key {
    /// The key of these bytes. They keep their memory, and no more is taken.
    pub fn new(bytes: Bytes) -> Self
        ensures { result ≡ bytes }
    {
        let digest = digest(bytes.as_slice());
        Key { bytes, digest }
    }

    /// The bytes.
    pub fn as_slice(&self) -> &[u8]
        ensures { result.now ≡ self.now }
    {
        self.bytes.as_slice()
    }
}

impl PartialEq for Key {
    ghost eq = { pointwise nat_eq };

    ghost laws = { partial_equiv_from_equiv nat_list_eq_equiv };

    fn eq(&self, other: &Self) -> bool {
        if self.digest != other.digest {
            return false;
        }
        self.bytes == other.bytes
    }
}

impl Eq for Key {
    ghost laws = { nat_list_eq_equiv };
}

impl Hash for Key {
    ghost hash_input = { λ k. fed.u64 (digest_of k) };

    ghost respects_eq = { (same_Alike (λ k. fed.u64 (digest_of k)) bytes_decides).fed };

    fn hash<H: Hasher>(&self, state: &mut H) {
        state.write_u64(self.digest);
    }
}

/// The digest of these bytes.
fn digest(bytes: &[u8]) -> u64
    ensures { result ≡ digest_of bytes.now }
{
    let mut state = FoldHasher::default();
    state.write(bytes);
    state.finish()
}
