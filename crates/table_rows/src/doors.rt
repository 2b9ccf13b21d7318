// Worked examples of doors.
ghost use Rattle.std.specs.Prelude.{◌≡◌};
ghost use Rattle.searcher_table.specs.Pins.{IsDoorOf};

use crate::desk::{Door, start};
use crate::publications::{Mark, mark, registered};
use searcher_table::{Pin, Published};
use std::alloc::Global;
use std::test::Fail;

// How the caller's door was marked. It is marked so from now on.
fn mark_door(pin: &mut Pin<Door, u32>, mark: u32) -> u32
    requires { IsDoorOf (λ _. 0) (λ d. d.number) pin.old }
    ensures door { IsDoorOf (λ _. 0) (λ d. d.number) pin.new }
    ensures before { result ≡ pin.old.door.mark }
    ensures after { pin.new.door.mark ≡ mark }
{
    let door = pin.door();
    let before = door.mark;
    door.mark = mark;
    before
}

// What is told of a door: the generation and the ticket, how it was marked at first, and how it is in the end.
type Told = (Mark, u32, u32);

// Caller 1 holds generation 1 while generation 2 is opened and published, and then generation 2 while so many more are.
// Behind each of them it writes a mark on its door.
fn held_doors(alloc: Global, turns: u32) -> Option<([Told; 2], Published, Told)> {
    let (mut passes, mut desk) = start(alloc, 2, 1, 1, 8)?;
    desk.turn(alloc)?;
    let mut pin = passes.pop()?.acquire().ok()?;
    let published = desk.turn(alloc)?;
    let one = (mark(&pin), mark_door(&mut pin, 7), mark_door(&mut pin, 8));
    let mut pin = pin.release().acquire().ok()?;
    let first = mark_door(&mut pin, 9);
    for _ in 0..turns {
        desk.turn(alloc)?;
    }
    let two = (mark(&pin), first, mark_door(&mut pin, 10));
    let mut pin = pin.release().acquire().ok()?;
    let last = (mark(&pin), mark_door(&mut pin, 11), mark_door(&mut pin, 12));
    Some(([one, two], published, last))
}

#[test]
fn a_held_door_is_the_callers_own(rt: HostRuntime) -> Result<(), Fail> {
    let (held, published, last) = held_doors(rt.alloc(), 10).expect(&rt, "there is memory");
    assert_eq!(rt; published, registered(3, Some((1, 1))));
    assert_eq!(rt; held, [((1, 0), 101, 7), ((2, 0), 201, 9)]);
    assert_eq!(rt; last, ((12, 0), 1201, 11));
    Ok(())
}

// How the doors of two callers are marked that acquire, mark and release one generation twice in turn.
fn doors_in_turn(alloc: Global) -> Option<[u32; 4]> {
    let (mut passes, mut desk) = start(alloc, 3, 1, 1, 8)?;
    desk.turn(alloc)?;
    let mut two = passes.pop()?.acquire().ok()?;
    let mut one = passes.pop()?.acquire().ok()?;
    let first = [mark_door(&mut one, 5), mark_door(&mut two, 6)];
    let (mut two, mut one) = (two.release().acquire().ok()?, one.release().acquire().ok()?);
    let second = [mark_door(&mut one, 7), mark_door(&mut two, 8)];
    Some([first[0], first[1], second[0], second[1]])
}

#[test]
fn a_door_lies_in_its_cell_as_it_was_left(rt: HostRuntime) -> Result<(), Fail> {
    let marks = doors_in_turn(rt.alloc()).expect(&rt, "there is memory");
    assert_eq!(rt; marks, [101, 102, 5, 6]);
    Ok(())
}
