ghost use Rattle.std.specs.Prelude.{◌≡◌, ℕ, Option, IfOk};

use cache_traces::Counted;
use std::alloc::{AllocError, Global};
use std::hash::Hash;

/// A value that a cache of a view keeps under a key.
pub trait Kept: Counted {
    /// What it is kept under.
    type Key: Eq + Hash + Drop;

    /// What the cache is about, which contracts see as plain data.
    type View;

    /// The value is what an evaluation of the key on the view gives.
    ghost fits: { Self.View → Self.Key → Self → Type 0 };

    /// The most entries of the view's cache.
    ghost size: { Self.View → ℕ };

    /// The most that they weigh together, where that is bounded.
    ghost greatest: { Self.View → Option ℕ };

    /// How many seats it has.
    ghost seats: { Self.View → ℕ };

    /// An equal key. It costs the key's length.
    fn copy(alloc: Global, key: &Self::Key) -> Result<Self::Key, AllocError>
        ensures { IfOk result (λ k. k ≡ key.now) };
}
