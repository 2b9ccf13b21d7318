ghost use Rattle.std.specs.Prelude.{◌≡◌, ◌<◌, ◌++◌, [], ◌∷◌, cond, length, IfSome};
ghost use Rattle.std.specs.List.{All};
ghost use Rattle.view_cells.specs.Seats.{IsIdle, IsSameSeat, own_list, view_of};
ghost use Rattle.table_rows.specs.SeatTrials.{Adds, EachWorked, ArePair, IsReady, Worked};
ghost use Rattle.view_cells.specs.Closing.{AllIdle};

use std::alloc::Global;
use std::sync::Wait;
use std::test::Fail;
use std::thread;
use std::thread::Threads;
use view_cells::{Busy, CellTable, Fits, Seat};

const SEATS: usize = 4;

const ROUNDS: u32 = 10_000;

// Whose call it was, and its number, of all seats in one order.
#[derive(Drop)]
struct Log {
    calls: Vec<(u32, u32)>,
}

impl Fits for Log {
    type View = u32;

    type Entry = u32;

    ghost use Rattle.table_rows.specs.SeatTrials.{IsBelow, done_by};

    ghost fits = { λ most log. IsBelow most log.calls.items };

    ghost entries = { λ log n. done_by n log.calls.items };
}

impl Log {
    // Adds a call, if there is memory.
    fn add(&mut self, seat: u32, call: u32) -> bool
        ensures { Adds result self.old.calls.items seat call self.new.calls.items }
    {
        self.calls.push((seat, call)).is_ok()
    }
}

// Takes the value, adds a call and puts the value back.
fn round<R: Wait>(rt: &R, seat: &mut Seat<Log>, call: u32) -> bool
    requires idle { IsIdle seat.old }
    requires below { call < view_of seat.old }
    ensures same { IsSameSeat seat.old seat.new }
    ensures idle { IsIdle seat.new }
    ensures list { own_list seat.new ≡ cond result (own_list seat.old ++ call ∷ []) (own_list seat.old) }
{
    let number = seat.number();
    let mut held = seat.take(rt);
    let added = held.value().add(number, call);
    held.put_back();
    added
}

fn rounds<R: Wait>(rt: &R, seat: &mut Seat<Log>)
    requires { IsReady 10000 seat.old }
    ensures { Worked seat.old seat.new }
{
    for call in 0..ROUNDS {
        round(rt, seat, call);
    }
}

// All seats at once, each in a thread of its own.
fn all_rounds<R: Threads + Wait + Sync>(rt: &R, seats: &mut [Seat<Log>])
    requires { All (IsReady 10000) seats.old }
    ensures len { length seats.new ≡ length seats.old }
    ensures each { EachWorked seats.old seats.new }
{
    if seats.is_empty() {
        return;
    }
    let count = seats.len();
    thread::for_each_mut(rt, seats, count, &|_, seat| rounds(rt, seat));
}

// Four threads with a seat each, all of whose calls are in the value that the last seat gives.
fn shared_log<R: Threads + Wait + Sync>(rt: &R, alloc: Global) -> Option<Log> {
    let log = Log {
        calls: Vec::new(alloc),
    };
    let Ok(mut seats) = CellTable::make(alloc, log, &ROUNDS, SEATS as u32) else {
        return None;
    };
    all_rounds(rt, seats.as_mut_slice());
    Some(CellTable::close_all(seats))
}

fn pair_of(mut seats: Vec<Seat<Log>>) -> Option<(Seat<Log>, Seat<Log>)>
    requires { AllIdle seats.items × (length seats.items ≡ 2) }
    ensures { IfSome result (λ pair. ArePair pair.0 pair.1) }
{
    let one = seats.pop()?;
    let zero = seats.pop()?;
    Some((zero, one))
}

// By whom the value is held, if it is.
fn holder_of(seat: &mut Seat<Log>) -> Option<u32>
    requires { IsIdle seat.old }
    ensures { Worked seat.old seat.new }
{
    match seat.try_take() {
        Ok(held) => {
            held.put_back();
            None
        }
        Err(Busy { by }) => Some(by),
    }
}

// Whom the second seat finds as the holder while the first holds the value, and afterwards, and the value.
fn in_turn(mut zero: Seat<Log>, mut one: Seat<Log>) -> Option<(Option<u32>, Option<u32>, Log)>
    requires { ArePair zero one }
{
    let Ok(held) = zero.try_take() else {
        return None;
    };
    let during = holder_of(&mut one);
    held.put_back();
    let after = holder_of(&mut one);
    one.join(zero);
    Some((during, after, one.close()))
}

fn two_seats(alloc: Global) -> Option<(Option<u32>, Option<u32>, Log)> {
    let log = Log {
        calls: Vec::new(alloc),
    };
    let Ok(seats) = CellTable::make(alloc, log, &ROUNDS, 2) else {
        return None;
    };
    let (zero, one) = pair_of(seats)?;
    in_turn(zero, one)
}

#[test]
fn seats_share_one_value(rt: HostRuntime) -> Result<(), Fail> {
    let (during, after, value) = two_seats(rt.alloc()).expect(&rt, "the value is free");
    assert_eq!(rt; (during, after, value.calls.len()), (Some(0), None, 0));
    let log = shared_log(&rt, rt.alloc()).expect(&rt, "there is memory");
    let mut next = [0u32; SEATS];
    for (seat, call) in log.calls {
        assert_eq!(rt; call, next[seat as usize % SEATS]);
        next[seat as usize % SEATS] = call.wrapping_add(1);
    }
    assert_eq!(rt; next, [ROUNDS; SEATS]);
    Ok(())
}
