//! What stands in a register.
ghost use Rattle.std.specs.Prelude.{◌≡◌};

/// A member: what is kept under a key, and its rank. A member with the rank `Register::UNRANKED` is
/// never the first.
#[derive(Clone, Copy, Debug)]
pub struct Member<K, T> {
    pub key: K,
    pub value: T,
    pub rank: u64,
}

impl<K: Copy, T: Copy> Member<K, T> {
    pub(crate) fn changed_to(self, value: T, rank: u64) -> Member<K, T>
        ensures { result ≡ record self { value = value; rank = rank } }
    {
        Member {
            key: self.key,
            value,
            rank,
        }
    }
}
