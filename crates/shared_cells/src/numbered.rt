ghost use Rattle.std.specs.Prelude.{ℕ, Option};

use cache_traces::Counted;

/// A value that a store of a view keeps under a number.
pub trait Numbered: Counted {
    /// What the store is about, which contracts see as plain data.
    type View;

    /// The value is what the view has under the number.
    ghost fits: { Self.View → ℕ → Self → Type 0 };

    /// The most entries of the view's store.
    ghost size: { Self.View → ℕ };

    /// The most that they weigh together, where that is bounded.
    ghost greatest: { Self.View → Option ℕ };
}
