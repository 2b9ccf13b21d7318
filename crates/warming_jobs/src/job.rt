ghost use Rattle.std.specs.Prelude.{ℕ};

/// A searcher that is to be warmed.
pub trait Job: Drop {
    // The searcher's generation.
    ghost generation: { Self → ℕ };
}
