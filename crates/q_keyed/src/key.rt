//! What items are found by.
ghost use Rattle.std.specs.Prelude.{◌≡◌, Bool, true, ℕ};

/// An item with a key. Keys that are equal are one and the same.
pub trait HasKey {
    type Key;

    ghost key_of: { Self → Self.Key };

    ghost eq: { Self.Key → Self.Key → Bool };

    ghost hash: { Self.Key → ℕ };

    /// Whether this is the item's key.
    fn has_key(&self, key: &Self::Key) -> bool
        ensures { result ≡ eq (key_of self.now) key.now };

    /// A number that is taken from the item's key.
    fn hash(&self) -> u32
        ensures { result ≡ hash (key_of self.now) };

    /// The number that is taken from a key.
    fn hash_of(key: &Self::Key) -> u32
        ensures { result ≡ hash key.now };

    ghost is_same: { (a b : Self.Key) → eq a b ≡ true → a ≡ b };

    ghost is_own: { (a : Self.Key) → eq a a ≡ true };
}
