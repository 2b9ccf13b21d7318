ghost use Rattle.std.specs.Prelude.{ℕ, List};

/// When a value fits a view, and which entries it keeps of a seat.
pub trait Fits: Drop {
    /// What the value is about, which contracts see as plain data.
    type View;

    /// What the value may keep of a seat, as plain data.
    type Entry;

    // The value fits the view.
    ghost fits: { Self.View → Self → Type 0 };

    // The entries that the value keeps of the seat of this number, in their order.
    ghost entries: { Self → ℕ → List Self.Entry };
}
