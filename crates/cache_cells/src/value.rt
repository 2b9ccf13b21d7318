ghost use Rattle.std.specs.Prelude.{◌≡◌, ℕ, Bool, IfOk};
ghost use Rattle.cache_cells.specs.Within.{within};

use std::alloc::AllocError;

/// What a cache keeps under a key, and hands out to those who look it up.
pub trait Value: Drop {
    /// What it weighs, in the units of the cache's bound.
    ghost weight: { Self → ℕ };

    /// Whether it serves a look-up that needs so much.
    ghost serves: { ℕ → Self → Bool };

    /// What it weighs, if that is at most `most`. It takes no memory.
    fn weight_within(&self, most: u64) -> Option<u64>
        ensures { result ≡ within most (weight self.now) };

    /// Whether it serves a look-up that needs so much. It takes no memory.
    fn serves(&self, need: u64) -> bool
        ensures { result ≡ serves need self.now };

    /// The same value for one more owner, or an error where memory was wanting.
    fn share(&self) -> Result<Self, AllocError>
        ensures { IfOk result (λ v. v ≡ self.now) };
}
