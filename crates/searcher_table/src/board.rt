// The table behind the passes and the registrar.
//
// Words on which different threads step lie in cache lines of their own, which are eight words: the current word, the
// registrar's own word, two mask words, the words of the slots, and the words in which callers announce. Word 0 is only
// ever read. The slots of the table are the cells of the doors, 64 for each slot of the registry.
use crate::shown::Shown;
use atomic_table::TableRule;
use registry_machine::Entry;
use std::alloc::Global;
use std::collections::LinkedList;
use std::marker::PhantomData;
use std::snapshot::Snapshot;
use std::sync::Arc;

/// The word that says what is current.
pub(crate) const CURRENT: usize = 8;

/// In the current word, the unit of the generation, which has its highest 25 bits, and that of the slot, which has the 7
/// bits below. The lowest 32 bits count the acquires of the generation.
pub(crate) const GENERATION: u64 = 549_755_813_888;

pub(crate) const SLOT: u64 = 4_294_967_296;

/// The word that the registrar reads to see the history.
pub(crate) const REGISTRAR: usize = 16;

/// The mask word of slots 0 to 63, whose bit is 1 where the slot is free. That of the others is the next one.
pub(crate) const MASKS: usize = 24;

/// The word of slot 0: slot s has the s-th cache line behind. It counts the releases of the generation in the slot.
pub(crate) const SLOTS: usize = 64;

/// Before the words in which callers announce: caller c has the c-th cache line behind.
pub(crate) const CALLS: usize = 640;

pub(crate) const WORDS: usize = 1168;

/// The last generation that can be opened.
pub(crate) const LAST_GENERATION: u32 = 33_554_431;

/// Cells of one slot of the registry, one for each caller that there may be.
pub(crate) const CELLS: usize = 64;

/// What a caller can announce.
#[derive(Clone, Copy, Debug, PartialEq, Eq)]
pub enum Call {
    /// To open a searcher.
    Open,
    /// To change the index, or to take a place without a searcher.
    Update,
}

impl Call {
    ghost use Rattle.std.specs.Prelude.{◌≡◌};
    ghost use Rattle.searcher_table.specs.Words.{code_of};

    // What the caller's word is while the call is announced.
    pub(crate) fn code(self) -> u64
        ensures { result ≡ code_of self }
    {
        match self {
            Call::Open => 1,
            Call::Update => 2,
        }
    }
}

/// A call and its content, as announced.
#[derive(Drop)]
pub struct Asked<U> {
    pub call: Call,
    pub content: U,
}

/// What a cell holds.
#[derive(Drop)]
pub enum Cell<D, U> {
    /// No door.
    Empty,
    /// A caller's door to the searcher of the slot.
    Full(D),
    /// What a caller announces. No cell has it: it tells a step's proof what is announced.
    Said(Asked<U>),
}

impl<D: Drop, U: Drop> Cell<D, U> {
    ghost use Rattle.std.specs.Prelude.{◌≡◌};
    ghost use Rattle.searcher_table.specs.declared.board.Cell.TheVariants.{Full, Said};
    ghost use Rattle.searcher_table.specs.Words.{IsFull, IsSaid, door_in};

    // What is said, where something is.
    pub(crate) fn asked(self) -> Asked<U>
        requires { IsSaid self }
        ensures { self ≡ Said result }
    {
        match self {
            Cell::Said(asked) => asked,
            Cell::Full(_door) => unreachable!(),
            Cell::Empty => unreachable!(),
        }
    }

    // The door, where there is one.
    pub(crate) fn door(self) -> D
        requires { IsFull self }
        ensures { self ≡ Full result }
    {
        match self {
            Cell::Full(door) => door,
            Cell::Said(_asked) => unreachable!(),
            Cell::Empty => unreachable!(),
        }
    }

    // The door, if there is one.
    pub(crate) fn found(self) -> Option<D>
        ensures { result ≡ door_in self }
    {
        match self {
            Cell::Full(door) => Some(door),
            Cell::Said(_asked) => None,
            Cell::Empty => None,
        }
    }
}

/// What a table is told once.
#[derive(Drop)]
pub struct Plan<W> {
    pub setting: Snapshot<W>,
    pub callers: u32,
    pub max_warming: u32,
    pub first_generation: u32,
    pub budget: u32,
}

/// The right to have a caller's announced call executed or withdrawn. No value of it is made.
pub struct Hand<U> {
    pub caller: u32,
    pub asked: Asked<U>,
}

/// A caller's own entries, as its pass left them. No value of it is made.
pub struct Own<U, X, L> {
    pub caller: u32,
    pub mine: LinkedList<Entry<U, X, L>>,
}

/// What a seat has begun with a slot and has not ended. All but the last are the registrar's alone. No value of it is made.
pub enum Task {
    /// Nothing.
    Idle,
    /// The slot was found to be free.
    Found {
        slot: u32,
    },
    /// The slot was claimed.
    Claimed {
        slot: u32,
    },
    /// The slot was claimed, its word is 0, and the cells of so many callers have doors for an opening.
    Filled {
        slot: u32,
        count: u32,
    },
    /// The same, while the next caller's cell is out.
    Filling {
        slot: u32,
        count: u32,
    },
    /// The generation in the slot is neither warming nor current any more, and its acquires, so many, are not told to
    /// the slot's word yet.
    Unsettled {
        slot: u32,
        generation: u32,
        total: u32,
    },
    /// The slot has to be freed, since nobody uses the generation any more.
    Duty {
        slot: u32,
        generation: u32,
    },
    /// Of a caller, that its pass was taken back.
    Back,
    /// The table is given up, and the doors of the first cells, so many, are taken out for good.
    Emptied {
        count: u32,
    },
}

/// The right to have a warming generation published. No value of it is made.
pub struct Fresh {
    pub generation: u32,
    pub slot: u32,
}

/// What a seat knows. No value of it is made.
pub struct Known<W, U, X, L> {
    /// What the table was told. A seat that was joined into another knows nothing.
    pub plan: Option<Plan<W>>,
    /// The caller whose pass it is, or 0.
    pub caller: u32,
    /// The caller's own entries in what was seen.
    pub mine: LinkedList<Entry<U, X, L>>,
    /// What the caller announced and is not among them yet.
    pub announced: Option<Asked<U>>,
    /// The announced call that this seat can execute or withdraw.
    pub hand: Option<Hand<U>>,
    /// What it has begun with a slot.
    pub task: Task,
    /// The warming generation that this seat can publish.
    pub fresh: Option<Fresh>,
    /// A beginning of the history.
    pub seen: LinkedList<Entry<U, X, L>>,
    /// What the seat that was joined last had seen.
    pub told: LinkedList<Entry<U, X, L>>,
    /// The seat's own steps on words.
    pub steps: u64,
    /// Whether it is the registrar's.
    pub registrar: bool,
    /// Of the registrar, the first caller with no pass yet.
    pub next: u32,
    /// Of the registrar, the callers whose passes it took back.
    pub back: LinkedList<Own<U, X, L>>,
    /// Of the registrar, what the doors show that it has laid into a slot for an opening.
    pub filling: Option<X>,
}

pub struct Registry<D, U> {
    cells: PhantomData<(D, U)>,
}

impl<D: Shown, U: Drop> TableRule<
    Cell<D, U>,
    Known<D::Setting, U, D::Docs, D::Deed>,
    Plan<D::Setting>,
> for Registry<D, U> {
    ghost use Rattle.searcher_table.specs.Rule.{Kept, opened};

    ghost holds = { Kept D.setting D.docs D.list };

    ghost first = { opened };
}

pub(crate) type Table<D, U, W, X, L> = atomic_table::Table<
    Cell<D, U>,
    Known<W, U, X, L>,
    Plan<W>,
    Registry<D, U>,
    Global,
>;

pub(crate) type Place<D, U, W, X, L> = atomic_table::Seat<Cell<D, U>, Known<W, U, X, L>>;

pub(crate) type SharedTable<D, U, W, X, L> = Arc<Table<D, U, W, X, L>, Global>;

// A reference to a table, for an opening.
#[derive(Drop)]
pub(crate) struct Link<D: Shown, U: Drop> {
    pub(crate) table: SharedTable<D, U, D::Setting, D::Docs, D::Deed>,
}
