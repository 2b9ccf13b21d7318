/// What a look-up of a key is answered.
#[derive(Debug, Drop)]
pub enum Look<K, V> {
    /// An entry has the key and serves. It is now the most recently used.
    Hit(V),
    /// Another caller is computing the key: the key, and that caller's seat.
    Join(K, u32),
    /// Nobody is. The caller's seat owns the key from now on, and computes it.
    Own,
}
