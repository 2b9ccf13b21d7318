use crate::NoMemory;
use crate::gate::{Gate, Moment};
use std::alloc::Global;
use std::sync::atomic::{AtomicU64, Ordering};
use std::thread::yield_now;

/// Holds caller `caller` at its `time`-th arrival at `moment`, until caller `until_caller` has arrived at `until_moment` for
/// the `until_time`-th time, or `turns` turns are spent. Times count from 1.
#[derive(Clone, Copy, Debug)]
pub struct Hold {
    pub caller: u32,
    pub moment: Moment,
    pub time: u32,
    pub until_caller: u32,
    pub until_moment: Moment,
    pub until_time: u32,
    pub turns: u32,
}

// From here on a count stands still.
const MOST: u64 = u64::MAX / 2;

// One more is counted, and the count given.
fn counted(count: &AtomicU64) -> u64 {
    let before = count.load(Ordering::SeqCst);
    if before >= MOST {
        return before;
    }
    count.fetch_add(1, Ordering::SeqCst).saturating_add(1)
}

// How often a caller has arrived at a moment.
#[derive(Drop)]
struct Arrivals {
    caller: u32,
    moment: Moment,
    count: AtomicU64,
}

/// Holds callers at chosen arrivals, each until another arrival was seen or its turns are spent. It is for tests.
///
/// Threads share it by reference. It counts the arrivals that its holds name, up to 2^63 of each.
#[derive(Drop)]
pub struct HoldGate {
    holds: Vec<Hold>,
    // One for each caller and moment that a hold names.
    arrivals: Vec<Arrivals>,
    met: AtomicU64,
    exceeded: AtomicU64,
}

// The arrivals of a caller at a moment, if they are counted.
fn find(arrivals: &[Arrivals], caller: u32, moment: Moment) -> Option<&Arrivals> {
    arrivals
        .iter()
        .find(|a| a.caller == caller && a.moment == moment)
}

// These are counted too.
fn name(arrivals: &mut Vec<Arrivals>, caller: u32, moment: Moment) -> Result<(), NoMemory> {
    if find(arrivals.as_slice(), caller, moment).is_some() {
        return Ok(());
    }
    let count = AtomicU64::new(0);
    match arrivals.push(Arrivals {
        caller,
        moment,
        count,
    }) {
        Ok(()) => Ok(()),
        Err(_full) => Err(NoMemory),
    }
}

impl HoldGate {
    /// A gate with these holds, at which nobody has arrived.
    ///
    /// # Errors
    /// [`NoMemory`].
    pub fn new(alloc: Global, holds: Vec<Hold>) -> Result<HoldGate, NoMemory> {
        let mut arrivals = Vec::new(alloc);
        for hold in holds.as_slice() {
            name(&mut arrivals, hold.caller, hold.moment)?;
            name(&mut arrivals, hold.until_caller, hold.until_moment)?;
        }
        Ok(HoldGate {
            holds,
            arrivals,
            met: AtomicU64::new(0),
            exceeded: AtomicU64::new(0),
        })
    }

    /// Whether some hold ended because its turns were spent.
    pub fn exceeded(&self) -> bool {
        self.exceeded.load(Ordering::SeqCst) > 0
    }

    /// How many holds were reached and ended because the other arrival was seen, then or before. It stands still at
    /// 2^32 - 1.
    pub fn met(&self) -> u32 {
        u32::try_from(self.met.load(Ordering::SeqCst)).unwrap_or(u32::MAX)
    }

    // Whether the other arrival was seen.
    fn is_seen(&self, hold: &Hold) -> bool {
        match find(
            self.arrivals.as_slice(),
            hold.until_caller,
            hold.until_moment,
        ) {
            Some(other) => other.count.load(Ordering::SeqCst) >= u64::from(hold.until_time),
            None => false,
        }
    }

    // Holds the caller until the other arrival was seen or the turns are spent.
    fn keep(&self, hold: &Hold) {
        for _ in 0..hold.turns {
            if self.is_seen(hold) {
                break;
            }
            yield_now();
        }
        if self.is_seen(hold) {
            counted(&self.met);
        } else {
            counted(&self.exceeded);
        }
    }
}

impl Gate for HoldGate {
    fn at(&self, caller: u32, moment: Moment) {
        let Some(own) = find(self.arrivals.as_slice(), caller, moment) else {
            return;
        };
        let time = counted(&own.count);
        for hold in self.holds.as_slice() {
            if hold.caller == caller && hold.moment == moment && u64::from(hold.time) == time {
                self.keep(hold);
            }
        }
    }
}
