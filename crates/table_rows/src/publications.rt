// Worked examples of openings, publications, acquires and releases.
use crate::desk::{Desk, Door, Held, start};
use searcher_table::{AcquireRefusal, OpenRefusal, Pass, Pin, Published};
use std::alloc::Global;
use std::test::Fail;

// What a caller that may make two acquires is answered before the publication, behind it, and once more; and the publication.
fn one_caller(alloc: Global) -> Option<([Held; 3], Published)> {
    let (_none, desk) = start(alloc, 1, 1, 1, 2)?;
    let (mut desk, early) = desk.hold();
    let published = desk.turn(alloc)?;
    let (desk, held) = desk.hold();
    let (_desk, spent) = desk.hold();
    Some(([early, held, spent], published))
}

// How the opening is refused that comes behind the last generation that there is.
fn last_generation(alloc: Global) -> Option<(Published, OpenRefusal)> {
    let (_none, mut desk) = start(alloc, 1, 1, 33_554_431, 2)?;
    let published = desk.turn(alloc)?;
    let refusal = desk.refused(alloc)?;
    Some((published, refusal))
}

pub(crate) fn registered(place: u64, settled: Option<(u32, u32)>) -> Published {
    Published::Registered { place, settled }
}

#[test]
fn one_caller_acquires_as_often_as_it_may(rt: HostRuntime) -> Result<(), Fail> {
    let (held, published) = one_caller(rt.alloc()).expect(&rt, "there is memory");
    let spent = AcquireRefusal::Spent { made: 2 };
    assert!(rt; held == [Err(AcquireRefusal::NotYet), Ok((1, 0)), Err(spent)]);
    assert_eq!(rt; published, registered(1, None));
    let (published, refusal) = last_generation(rt.alloc()).expect(&rt, "there is memory");
    assert_eq!(rt; published, registered(1, None));
    assert!(rt; matches!(refusal, OpenRefusal::GenerationsSpent { place: 2 }));
    Ok(())
}

pub(crate) type Mark = (u32, u32);

pub(crate) fn mark(pin: &Pin<Door, u32>) -> Mark {
    (pin.generation(), pin.ticket())
}

// A caller holds a generation while the next ones, so many, are opened and published: these, what it acquired, and what
// it acquires once it has let that go.
fn held_over(alloc: Global, turns: u32) -> Option<(Vec<Published>, [Mark; 2])> {
    let (mut passes, mut desk) = start(alloc, 2, 1, 1, 8)?;
    let mut told = Vec::new(alloc);
    told.push(desk.turn(alloc)?).ok()?;
    let pin = passes.pop()?.acquire().ok()?;
    for _ in 0..turns {
        told.push(desk.turn(alloc)?).ok()?;
    }
    let first = mark(&pin);
    let pin = pin.release().acquire().ok()?;
    Some((told, [first, mark(&pin)]))
}

#[test]
fn a_generation_is_held_over_eleven_openings(rt: HostRuntime) -> Result<(), Fail> {
    let (told, marks) = held_over(rt.alloc(), 10).expect(&rt, "there is memory");
    assert_eq!(rt; marks, [(1, 0), (11, 0)]);
    assert_eq!(rt; told.len(), 11);
    assert_eq!(rt;
        (told[0], told[1]),
        (registered(1, None), registered(3, Some((1, 1))))
    );
    for generation in 3..12u32 {
        let want = registered(u64::from(2 * generation - 1), Some((generation - 1, 0)));
        assert_eq!(rt; told[generation as usize - 1], want);
    }
    Ok(())
}

// What two callers acquire, and the publication of the next generation: so many of them release before it, and the others
// behind it.
fn round(
    alloc: Global,
    desk: &mut Desk,
    pair: (Pass<Door, u32>, Pass<Door, u32>),
    early: u32,
) -> Option<((Pass<Door, u32>, Pass<Door, u32>), [Mark; 2], Published)> {
    let one = pair.0.acquire().ok()?;
    let two = pair.1.acquire().ok()?;
    let marks = [mark(&one), mark(&two)];
    match early {
        0 => {
            let published = desk.turn(alloc)?;
            Some(((one.release(), two.release()), marks, published))
        }
        1 => {
            let one = one.release();
            let published = desk.turn(alloc)?;
            Some(((one, two.release()), marks, published))
        }
        _ => {
            let pair = (one.release(), two.release());
            let published = desk.turn(alloc)?;
            Some((pair, marks, published))
        }
    }
}

// So many rounds at a table of six slots.
fn rounds(alloc: Global, early: u32, turns: u32) -> Option<Vec<([Mark; 2], Published)>> {
    let (mut passes, mut desk) = start(alloc, 3, 1, 1, 100)?;
    desk.turn(alloc)?;
    let mut pair = (passes.pop()?, passes.pop()?);
    let mut told = Vec::new(alloc);
    for _ in 0..turns {
        let (again, marks, published) = round(alloc, &mut desk, pair, early)?;
        pair = again;
        told.push((marks, published)).ok()?;
    }
    Some(told)
}

#[test]
fn slots_are_freed_whoever_drains_them(rt: HostRuntime) -> Result<(), Fail> {
    for early in 0..3 {
        let told = rounds(rt.alloc(), early, 12).expect(&rt, "each opening has a slot");
        assert_eq!(rt; told.len(), 12);
        for turn in 0..12u32 {
            let (marks, published) = told[turn as usize];
            let generation = turn + 1;
            assert_eq!(rt; marks, [(generation, 0), (generation, 1)]);
            let place = u64::from(2 * generation + 1);
            assert_eq!(rt; published, registered(place, Some((generation, 2))));
        }
    }
    Ok(())
}

// Two generations that are warming at once, the newer one published before the older: the opening that is refused
// meanwhile, the two publications, and what is acquired then.
fn overtaken(alloc: Global) -> Option<(OpenRefusal, [Published; 2], Mark)> {
    let (mut passes, mut desk) = start(alloc, 2, 2, 1, 8)?;
    desk.turn(alloc)?;
    let older = desk.opened(alloc)?;
    let newer = desk.opened(alloc)?;
    let refusal = desk.refused(alloc)?;
    let published = [desk.publish(newer)?, desk.publish(older)?];
    let pin = passes.pop()?.acquire().ok()?;
    Some((refusal, published, mark(&pin)))
}

#[test]
fn a_newer_generation_supersedes_an_older(rt: HostRuntime) -> Result<(), Fail> {
    let (refusal, published, marked) = overtaken(rt.alloc()).expect(&rt, "there is memory");
    let full = match refusal {
        OpenRefusal::TooMany { place, warming } => place == 4 && warming.get() == [2, 3].as_slice(),
        OpenRefusal::GenerationsSpent { .. } => false,
    };
    assert!(rt; full);
    let superseded = Published::Superseded { by: 3, place: 6 };
    assert_eq!(rt; published, [registered(5, Some((1, 0))), superseded]);
    assert_eq!(rt; marked, (3, 0));
    Ok(())
}

// Sixty-three callers each acquire the generation of their number and hold it, while a hundred are published by one more.
fn sixty_four(alloc: Global) -> Option<(Vec<Published>, Vec<Mark>)> {
    let (passes, mut desk) = start(alloc, 64, 4, 1, 2)?;
    let mut told = Vec::new(alloc);
    let mut pins = Vec::new(alloc);
    let mut marks = Vec::new(alloc);
    for pass in passes {
        told.push(desk.turn(alloc)?).ok()?;
        let pin = pass.acquire().ok()?;
        marks.push(mark(&pin)).ok()?;
        pins.push(pin).ok()?;
    }
    for _ in 63..100 {
        told.push(desk.turn(alloc)?).ok()?;
    }
    Some((told, marks))
}

#[test]
fn sixty_four_callers_leave_a_slot(rt: HostRuntime) -> Result<(), Fail> {
    let (told, marks) = sixty_four(rt.alloc()).expect(&rt, "each opening has a slot");
    assert_eq!(rt; told.len(), 100);
    assert_eq!(rt; marks.len(), 63);
    for turn in 0..100u32 {
        let settled = match turn {
            0 => None,
            1..64 => Some((turn, 1)),
            _ => Some((turn, 0)),
        };
        assert_eq!(rt;
            told[turn as usize],
            registered(u64::from(2 * turn + 1), settled)
        );
    }
    for caller in 1..64u32 {
        assert_eq!(rt; marks[caller as usize - 1], (caller, 0));
    }
    Ok(())
}
