/// A call of a store, with what it was answered. Contracts see it as it is kept.
#[derive(Drop)]
pub enum StoreAct<N: Drop> {
    /// A look-up: its number, and whether an entry had it and served.
    Looked { number: u32, hit: bool },
    /// A value that was put: its number, and the numbers of the value.
    Put { number: u32, numbers: N },
}

/// A call of the seat of this number.
#[derive(Drop)]
pub struct StoreStep<N: Drop> {
    pub seat: u32,
    pub act: StoreAct<N>,
}
