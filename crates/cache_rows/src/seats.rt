//! Calls of seats that share a cache.
use std::alloc::Global;
use std::fmt;
use std::test::Fail;

// What a seat asks for.
#[derive(Clone, Copy)]
pub(crate) enum Call {
    // A key of which so much is needed.
    Look { key: u32, need: u32 },
    // What it computed.
    Give(Given),
    // To compute it no more.
    Leave,
}

// So many documents, maybe all that there are, and whether they may be kept.
#[derive(Clone, Copy)]
pub(crate) struct Given {
    pub(crate) count: u32,
    pub(crate) whole: bool,
    pub(crate) keep: bool,
}

// What a call was answered: with the count that was found, or the owner.
#[derive(Clone, Copy)]
pub(crate) enum Seen {
    Hit(usize),
    Join(u32),
    Own,
    Done,
}

impl fmt::Display for Seen {
    fn fmt<W: fmt::Write>(&self, f: &mut fmt::Formatter<W>) -> fmt::Result {
        match self {
            Seen::Hit(count) => write!(f, "hit {count}"),
            Seen::Join(owner) => write!(f, "join {owner}"),
            Seen::Own => write!(f, "own"),
            Seen::Done => write!(f, "done"),
        }
    }
}

// How many seats there are.
pub(crate) const SEATS: u32 = 3;

// A cache with seats, whose keys are told by numbers.
pub(crate) trait Shared {
    // Looks up for a seat that owns none.
    fn ask(&mut self, alloc: Global, seat: u32, key: u32, need: u32) -> Result<Seen, Fail>;

    // Ends the key of a seat that owns one.
    fn end(&mut self, alloc: Global, seat: u32, given: Option<Given>) -> Result<Seen, Fail>;

    // The keys, the most recently used first.
    fn keys(&self, alloc: Global) -> Result<Vec<u32>, Fail>;
}

// Makes a call, and adds what it was answered and the keys that are then kept.
pub(crate) fn make_call<C: Shared>(
    alloc: Global,
    cache: &mut C,
    seat: u32,
    call: Call,
    told: &mut String,
) -> Result<(), Fail> {
    let seen = match call {
        Call::Look { key, need } => cache.ask(alloc, seat, key, need)?,
        Call::Give(given) => cache.end(alloc, seat, Some(given))?,
        Call::Leave => cache.end(alloc, seat, None)?,
    };
    told.push_str(format!(in alloc; " => {seen};")?.as_str())?;
    for key in cache.keys(alloc)?.as_slice() {
        told.push_str(format!(in alloc; " {key}")?.as_str())?;
    }
    Ok(())
}
