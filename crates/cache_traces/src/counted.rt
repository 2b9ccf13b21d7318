ghost use Rattle.std.specs.Prelude.{◌≡◌, ℕ, Bool};

use cache_cells::Value;

/// A value of which the machine needs to know some numbers alone, and which may list too much to be kept.
pub trait Counted: Value {
    /// The numbers of a value, where at most so many may be listed.
    type Numbers: Drop;

    /// The numbers.
    ghost numbers: { ℕ → Self → Self.Numbers };

    /// Whether a value of these numbers may be kept.
    ghost keeps: { Self.Numbers → Bool };

    /// The numbers. It takes no memory.
    fn numbers(&self, most: u32) -> Self::Numbers
        ensures { result ≡ numbers most self.now };

    /// Whether a value of these numbers may be kept. It takes no memory.
    fn keeps(of: &Self::Numbers) -> bool
        ensures { result ≡ keeps of.now };
}
