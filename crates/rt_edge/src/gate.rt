/// A moment at which a caller can be held in a test.
#[derive(Clone, Copy, Debug, PartialEq, Eq)]
pub enum Moment {
    /// After an acquire.
    Pinned,
    /// Before a release.
    BeforeRelease,
    /// After an announcement, before the lock of the core is asked for.
    Announced,
    /// After the caller became the owner of a cache key.
    Owning,
}

/// Is told when a caller reaches a moment. It answers nothing and returns.
pub trait Gate: Sync {
    /// Caller `caller` has reached `moment`.
    fn at(&self, caller: u32, moment: Moment);
}

/// Holds nobody.
#[derive(Clone, Copy, Debug)]
pub struct OpenGate;

impl Gate for OpenGate {
    fn at(&self, _caller: u32, _moment: Moment) {}
}
