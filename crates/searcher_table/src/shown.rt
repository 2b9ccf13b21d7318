ghost use Rattle.std.specs.Prelude.{List};

/// What a caller's door to a searcher shows, all as plain data.
pub trait Shown: Drop {
    /// With what the searcher was made.
    type Setting;

    /// The documents that the searcher sees, with their numbers.
    type Docs;

    /// What a caller can do through its door.
    type Deed;

    // The setting that the door shows.
    ghost setting: { Self → Self.Setting };

    // The documents that the door shows.
    ghost docs: { Self → Self.Docs };

    // What was done through the door, in order.
    ghost list: { Self → List Self.Deed };
}
