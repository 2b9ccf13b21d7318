// Eight callers that acquire and release, each in a thread of its own, while generations are published in another.
use crate::desk::{Desk, Door, start};
use crate::publications::{Mark, mark};
use searcher_table::{Pass, Published};
use std::alloc::Global;
use std::test::Fail;
use std::thread;
use std::thread::{Threads, join};

const WORKERS: u32 = 8;

const ROUNDS: u32 = 100_000;

const GENERATIONS: u32 = 100;

// A generation is replaced once it was acquired so often, or after so many looks.
const SHARE: u32 = 5_000;

const LOOKS: u32 = 100_000;

// What a caller acquires, round after round, if it could acquire each time.
fn work(alloc: Global, mut pass: Pass<Door, u32>) -> Option<Vec<Mark>> {
    let mut marks = Vec::new(alloc);
    for _ in 0..ROUNDS {
        let pin = pass.acquire().ok()?;
        marks.push(mark(&pin)).ok()?;
        pass = pin.release();
    }
    Some(marks)
}

// All of them at once.
fn all_work<R: Threads + Sync>(
    rt: &R,
    alloc: Global,
    passes: Vec<Pass<Door, u32>>,
) -> Option<Vec<Option<Vec<Mark>>>> {
    thread::map_vec(rt, passes, &|pass| work(alloc, pass)).ok()
}

// A hundred generations, each published once the one before was acquired often.
fn publications(alloc: Global, mut desk: Desk) -> Option<(Desk, Vec<Published>)> {
    let mut told = Vec::new(alloc);
    for _ in 0..GENERATIONS {
        for _ in 0..LOOKS {
            let (_, acquires) = desk.current()?;
            if acquires >= SHARE {
                break;
            }
        }
        told.push(desk.turn(alloc)?).ok()?;
    }
    Some((desk, told))
}

// All that was acquired, all publications, and what is current at the end.
fn crowd<R: Threads + Sync>(
    rt: &R,
    alloc: Global,
) -> Option<(Vec<Mark>, Vec<Published>, Option<Mark>)> {
    let (passes, mut desk) = start(alloc, WORKERS + 1, 4, 1, ROUNDS)?;
    desk.turn(alloc)?;
    let (worked, published) = join(
        rt,
        || all_work(rt, alloc, passes),
        || publications(alloc, desk),
    );
    let (mut desk, told) = published?;
    let mut marks = Vec::new(alloc);
    for done in worked? {
        for mark in done? {
            marks.push(mark).ok()?;
        }
    }
    Some((marks, told, desk.current()))
}

#[test]
fn tickets_count_the_acquires_of_a_generation(rt: HostRuntime) -> Result<(), Fail> {
    let (mut marks, told, last) = crowd(&rt, rt.alloc()).expect(&rt, "each opening has a slot");
    assert_eq!(rt; marks.len(), 800_000);
    assert_eq!(rt; told.len(), 100);
    let mut each = Vec::new(rt.alloc());
    for turn in 0..100u32 {
        let Published::Registered { place, settled } = told[turn as usize] else {
            continue;
        };
        assert_eq!(rt; place, u64::from(2 * turn + 3));
        let (old, acquires) = settled.expect(&rt, "a generation was current");
        assert_eq!(rt; old, turn + 1);
        each.push(acquires).expect(&rt, "there is memory");
    }
    let (current, acquires) = last.expect(&rt, "a generation is current");
    assert_eq!(rt; current, 101);
    each.push(acquires).expect(&rt, "there is memory");
    assert_eq!(rt; each.len(), 101);
    marks.sort().expect(&rt, "there is memory");
    let mut next = marks.into_iter();
    for turn in 0..101u32 {
        for ticket in 0..each[turn as usize] {
            assert_eq!(rt; next.next(), Some((turn + 1, ticket)));
        }
    }
    assert_eq!(rt; next.next(), None);
    Ok(())
}
