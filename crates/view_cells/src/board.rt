// The table behind the seats.
//
// Word 8 is the lock word: 0 where nobody holds the value, else one more than the number of the seat that holds it.
// No other word is written. The words before and after it keep the lock word in a cache line of its own, which is eight
// words. Slot 0 is the cell of the value.
use crate::fits::Fits;
use atomic_table::TableRule;
use std::alloc::Global;
use std::collections::LinkedList;
use std::marker::PhantomData;
use std::snapshot::Snapshot;
use std::sync::Arc;

pub(crate) const LOCK: usize = 8;

pub(crate) const WORDS: usize = 16;

/// What a table is told once: the view that its value fits, and how many seats there are.
#[derive(Drop)]
pub struct Setting<W> {
    pub view: Snapshot<W>,
    pub seats: u32,
}

/// A seat's number, with the list of its entries. No value of it is made.
pub struct Listing<E> {
    pub number: u32,
    pub entries: LinkedList<E>,
}

/// What a seat knows. No value of it is made.
pub struct Known<T, W, E> {
    /// What the table was told. A seat that was joined into another knows nothing.
    pub setting: Option<Setting<W>>,
    /// The value as it was taken, while the seat holds it.
    pub taken: Option<T>,
    /// This seat's list, and then those of the seats that were joined into it.
    pub lists: LinkedList<Listing<E>>,
    /// The lock word as each try of this seat found it, in their order.
    pub tries: LinkedList<u64>,
}

pub struct Cells<T> {
    value: PhantomData<T>,
}

impl<T: Fits> TableRule<Option<T>, Known<T, T::View, T::Entry>, Setting<T::View>> for Cells<T> {
    ghost use Rattle.view_cells.specs.Rule.{Kept, opened};

    ghost holds = { Kept T.fits T.entries };

    ghost first = { opened };
}

pub(crate) type Table<T, W, E> = atomic_table::Table<
    Option<T>,
    Known<T, W, E>,
    Setting<W>,
    Cells<T>,
    Global,
>;

pub(crate) type Place<T, W, E> = atomic_table::Seat<Option<T>, Known<T, W, E>>;

pub(crate) type SharedTable<T, W, E> = Arc<Table<T, W, E>, Global>;
