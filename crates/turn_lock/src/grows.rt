//! What a value behind the turn tells.
ghost use Rattle.std.specs.Prelude.{◌≡◌, ℕ, List, length, Option};

/// A value that tells a list of entries, which only grows while it is behind the lock.
pub trait Grows {
    /// What the list is made of. No value of it need ever be made.
    type Entry;

    ghost entries: { Self → List Self.Entry };

    /// Whose entry it is: a number from 0 to 64, or none.
    ghost number: { Self.Entry → Option ℕ };

    /// How long the list is. Each `give` calls it, so it doesn't walk the list.
    fn count(&self) -> u64
        ensures { result ≡ length (entries self.now) };
}
