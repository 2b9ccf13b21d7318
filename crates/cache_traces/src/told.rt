/// What a look-up was answered, without the value that it handed out.
#[derive(Clone, Copy, Debug, PartialEq, Eq)]
pub enum Told {
    /// An entry had the key and served.
    Hit,
    /// The seat of this number was computing the key.
    Joined(u32),
    /// The caller's seat owned the key from then on.
    Owned,
}
