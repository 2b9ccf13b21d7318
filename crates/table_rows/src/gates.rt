// Callers that a gate holds.
use rt_edge::{Gate, Hold, HoldGate, Moment};
use std::alloc::Global;
use std::test::Fail;
use std::thread::{Threads, join};

const TURNS: u32 = 10_000_000;

// Holds a caller at its first arrival at a moment until another caller has arrived at another one.
fn hold(caller: u32, moment: Moment, until_caller: u32, until_moment: Moment, turns: u32) -> Hold {
    Hold {
        caller,
        moment,
        time: 1,
        until_caller,
        until_moment,
        until_time: 1,
        turns,
    }
}

// A gate with these holds.
fn gate(alloc: Global, holds: &[Hold]) -> Option<HoldGate> {
    let mut all = Vec::new(alloc);
    for hold in holds {
        all.push(*hold).ok()?;
    }
    HoldGate::new(alloc, all).ok()
}

// Two callers, each in a thread of its own, of whom each is held until the other has arrived: how many holds were met, and
// whether one was exceeded.
fn each_other<R: Threads + Sync>(rt: &R, alloc: Global) -> Option<(u32, bool)> {
    let one = hold(1, Moment::Pinned, 2, Moment::Owning, TURNS);
    let two = hold(2, Moment::Owning, 1, Moment::Pinned, TURNS);
    let gate = gate(alloc, &[one, two])?;
    join(
        rt,
        || gate.at(1, Moment::Pinned),
        || gate.at(2, Moment::Owning),
    );
    Some((gate.met(), gate.exceeded()))
}

// The same of a hold whose other arrival was before, at an arrival that comes before the named one, at that one, and at
// one behind it.
fn seen_before(alloc: Global) -> Option<[(u32, bool); 3]> {
    let mut second = hold(1, Moment::Announced, 2, Moment::BeforeRelease, 0);
    second.time = 2;
    let gate = gate(alloc, &[second])?;
    gate.at(2, Moment::BeforeRelease);
    gate.at(1, Moment::Announced);
    let first = (gate.met(), gate.exceeded());
    gate.at(1, Moment::Announced);
    let second = (gate.met(), gate.exceeded());
    gate.at(1, Moment::Announced);
    Some([first, second, (gate.met(), gate.exceeded())])
}

// The same of a hold that nobody ends.
fn alone(alloc: Global) -> Option<(u32, bool)> {
    let gate = gate(alloc, &[hold(1, Moment::Pinned, 2, Moment::Pinned, 100)])?;
    gate.at(2, Moment::Announced);
    gate.at(1, Moment::Pinned);
    Some((gate.met(), gate.exceeded()))
}

#[test]
fn a_gate_holds_callers(rt: HostRuntime) -> Result<(), Fail> {
    let met = each_other(&rt, rt.alloc()).expect(&rt, "there is memory");
    assert_eq!(rt; met, (2, false));
    let before = seen_before(rt.alloc()).expect(&rt, "there is memory");
    assert_eq!(rt; before, [(0, false), (1, false), (1, false)]);
    let spent = alone(rt.alloc()).expect(&rt, "there is memory");
    assert_eq!(rt; spent, (0, true));
    Ok(())
}
