//! Lists whose items are known by a key.

ghost use Rattle.std.specs.Prelude.{◌≡◌, Bool};
ghost use Rattle.std.specs.List.{position_or_len};

/// What is known by a key among its like.
pub trait Keyed {
    /// What it is known by.
    type Key: Copy;

    ghost is_of: { Self → Self.Key → Bool };

    /// Whether this is its key.
    fn has_key(&self, key: Self::Key) -> bool
        ensures { result ≡ is_of self.now key };
}

/// How many items stand in front of the first with a key; the number of items where none has it.
pub fn position_of<T: Keyed>(items: &[T], key: T::Key) -> usize
    ensures { result ≡ position_or_len (λ item. T.is_of item key) items.now }
{
    for (at, item) in items.iter().enumerate() {
        if item.has_key(key) {
            return at;
        }
    }
    items.len()
}
