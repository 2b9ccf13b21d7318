ghost use Rattle.std.specs.Prelude.{◌≡◌, ◌+◌, ◌≤◌, [], None, length, IfOk, IfSome};
ghost use Rattle.searcher_table.specs.Passes.{mine_of, announced_of};
ghost use Rattle.searcher_table.specs.Making.{AreDealt};
ghost use Rattle.searcher_table.specs.Registrars.{places_of, IsSameRegistrar};
ghost use Rattle.table_rows.specs.TableTrials.{ArePair, IsReady, HasRoom, HasOneMore, HasNothingOut};
ghost use Rattle.table_rows.specs.TableTrials.{IsForTwo, HasOneCallMore, HasOneOpeningMore, AreTwo};

use crate::desk::{Door, Held, hold};
use searcher_table::{AcquireRefusal, Call, OpenRefusal, Pass, Registrar, make};
use std::alloc::Global;
use std::test::Fail;
use std::thread::{Threads, join};

// Announces an update, has it executed and meets it: the caller has just this entry more, at the place that is answered.
fn update(
    pass: &mut Pass<Door, u32>,
    registrar: &mut Registrar<Door, u32>,
    content: u32,
) -> (u64, u32)
    requires ready { IsReady registrar.old pass.old }
    requires room { HasRoom registrar.old 1 }
    ensures more { HasOneMore pass.old pass.new registrar.old registrar.new content }
    ensures content { result.1 ≡ content }
{
    let call = pass.announce(Call::Update, content);
    let done = registrar.execute_update(call);
    let note = registrar.note();
    pass.meet(note);
    done
}

// Announces an update and takes it back.
fn change_of_mind(pass: &mut Pass<Door, u32>, content: u32) -> u32
    requires { announced_of pass.old ≡ None }
    ensures pass { HasNothingOut pass.old pass.new }
    ensures mine { mine_of pass.new ≡ mine_of pass.old }
    ensures content { result ≡ content }
{
    let call = pass.announce(Call::Update, content);
    pass.withdraw(call)
}

// The passes of two callers.
fn pair_of(
    registrar: &Registrar<Door, u32>,
    mut passes: Vec<Pass<Door, u32>>,
) -> Option<(Pass<Door, u32>, Pass<Door, u32>)>
    requires { AreDealt registrar.now passes.items × (length passes.items ≡ 2) }
    ensures { IfSome result (λ pair. ArePair registrar.now pair.0 pair.1) }
{
    let two = passes.pop()?;
    let one = passes.pop()?;
    Some((one, two))
}

// How often each caller works in a thread of its own.
const ROUNDS: u32 = 10_000;

// Updates of one caller, and how many of them were answered with their content at the place that comes next.
fn updates(pass: &mut Pass<Door, u32>, registrar: &mut Registrar<Door, u32>, first: u64) -> u32
    requires ready { IsReady registrar.old pass.old }
    requires room { HasRoom registrar.old 10000 }
    ensures ready { IsReady registrar.new pass.new }
    ensures same { IsSameRegistrar registrar.old registrar.new }
    ensures places { places_of registrar.new ≡ places_of registrar.old + 10000 }
{
    let mut right = 0;
    for content in 0..ROUNDS {
        if update(pass, registrar, content) == (first.wrapping_add(u64::from(content)), content) {
            right = content;
        }
    }
    right
}

// Looks, changes of mind and acquires of another caller.
fn looks(mut pass: Pass<Door, u32>) -> Pass<Door, u32>
    requires { announced_of pass ≡ None }
    ensures { HasNothingOut pass result }
{
    for content in 0..ROUNDS {
        pass.look();
        change_of_mind(&mut pass, content);
        let (again, _held) = hold(pass);
        pass = again;
    }
    pass
}

// Both callers at once, each in a thread of its own.
fn at_once<R: Threads + Sync>(
    rt: &R,
    mut one: Pass<Door, u32>,
    two: Pass<Door, u32>,
    mut registrar: Registrar<Door, u32>,
) -> (u32, Pass<Door, u32>, Registrar<Door, u32>)
    requires one { IsReady registrar one × HasRoom registrar 10001 }
    requires two { IsReady registrar two }
    ensures ready { IsReady result.2 result.1 }
    ensures room { HasRoom result.2 1 }
{
    let ((right, registrar), two) = join(
        rt,
        || -> (u32, Registrar<Door, u32>)
            requires { IsReady registrar one × HasRoom registrar 10000 }
            ensures same { IsSameRegistrar registrar result.1 }
            ensures places { places_of result.1 ≡ places_of registrar + 10000 }
        {
            let right = updates(&mut one, &mut registrar, 2);
            (right, registrar)
        },
        || -> Pass<Door, u32>
            requires { announced_of two ≡ None }
            ensures { HasNothingOut two result }
        { looks(two) },
    );
    (right, two, registrar)
}

// One update of each caller, a change of mind between them, and then both at once: what was answered.
fn all_of<R: Threads + Sync>(rt: &R, alloc: Global) -> Option<([u64; 2], u32, u32, u64)> {
    let Ok((passes, mut registrar)) = make::<Door, u32>(alloc, &0, 2, 1, 1, ROUNDS - 1) else {
        return None;
    };
    let (mut one, mut two) = pair_of(&registrar, passes)?;
    let (first, _) = update(&mut one, &mut registrar, 7);
    let back = change_of_mind(&mut one, 8);
    let (second, _) = update(&mut two, &mut registrar, 9);
    let (right, mut two, mut registrar) = at_once(rt, one, two, registrar);
    let (last, _) = update(&mut two, &mut registrar, 10);
    registrar.meet(two.note());
    registrar.take_back(two);
    Some(([first, second], back, right, last))
}

#[test]
fn calls_have_places_in_one_history(rt: HostRuntime) -> Result<(), Fail> {
    let (places, back, right, last) = all_of(&rt, rt.alloc()).expect(&rt, "there is memory");
    assert_eq!(rt; (places, back), ([0, 1], 8));
    assert_eq!(rt; (right, last), (ROUNDS - 1, 10_002));
    Ok(())
}

// What three acquires of a caller that may make two are answered while nothing is current.
fn three_holds(alloc: Global) -> Option<([Held; 3], Option<(u32, u32)>)> {
    let Ok((mut passes, mut registrar)) = make::<Door, u32>(alloc, &0, 1, 1, 1, 2) else {
        return None;
    };
    let pass = passes.pop()?;
    let (pass, first) = hold(pass);
    let (pass, second) = hold(pass);
    let (_pass, third) = hold(pass);
    Some(([first, second, third], registrar.current()))
}

#[test]
fn acquires_come_too_early_or_are_spent(rt: HostRuntime) -> Result<(), Fail> {
    let (held, current) = three_holds(rt.alloc()).expect(&rt, "there is memory");
    let early = Err(AcquireRefusal::NotYet);
    let spent = Err(AcquireRefusal::Spent { made: 2 });
    assert!(rt; held == [early, early, spent] && current.is_none());
    Ok(())
}

// Two doors that show 9.
fn two_doors(alloc: Global) -> Option<Vec<Door>>
    ensures { IfSome result (λ doors. AreTwo (λ d. d.number) 9 doors.items) }
{
    let Ok(mut doors) = Vec::with_capacity(alloc, 2) else {
        return None;
    };
    doors.push_reserved(Door { number: 9, mark: 1 });
    doors.push_reserved(Door { number: 9, mark: 2 });
    Some(doors)
}

// What the opening of a caller is answered: the generation and the place, or the refusal. Once it has met the opening,
// the caller has just this entry more.
fn open(
    pass: &mut Pass<Door, u32>,
    registrar: &mut Registrar<Door, u32>,
    doors: Vec<Door>,
) -> Result<(u32, u64), OpenRefusal>
    requires ready { IsReady registrar.old pass.old }
    requires room { HasRoom registrar.old 1 }
    requires table { IsForTwo 0 registrar.old }
    requires doors { AreTwo (λ d. d.number) 9 doors.items }
    ensures more { HasOneCallMore registrar.old registrar.new }
    ensures opened { IfOk result (λ o. HasOneOpeningMore pass.old pass.new 0 o.0) }
{
    let call = pass.announce(Call::Open, 0);
    match registrar.execute_open(call, doors) {
        Ok(mut opening) => {
            pass.meet(opening.note());
            Ok((opening.generation(), opening.place()))
        }
        Err((refusal, _doors)) => Err(refusal),
    }
}

// The place of a refusal, and the generations that it tells.
fn refused(answer: &Result<(u32, u64), OpenRefusal>) -> Option<(u64, usize, u32)> {
    match answer {
        Ok(_) => None,
        Err(OpenRefusal::TooMany { place, warming }) => {
            let told = warming.get();
            Some((*place, told.len(), *told.first()?))
        }
        Err(OpenRefusal::GenerationsSpent { place }) => Some((*place, 0, 0)),
    }
}

type Answer = Result<(u32, u64), OpenRefusal>;

// What two openings in turn are answered, and whether one may be made before, between and afterwards.
fn two_openings(
    alloc: Global,
    max_warming: u32,
    first_generation: u32,
) -> Option<(Answer, Answer, [bool; 3])>
    requires warming { (1 ≤ max_warming) × (max_warming ≤ 2) }
    requires generation { (1 ≤ first_generation) × (first_generation ≤ 33554431) }
{
    let Ok((passes, mut registrar)) = make::<Door, u32>(
        alloc,
        &0,
        2,
        max_warming,
        first_generation,
        1,
    ) else {
        return None;
    };
    let (mut one, mut two) = pair_of(&registrar, passes)?;
    let before = registrar.may_open();
    let first = open(&mut one, &mut registrar, two_doors(alloc)?);
    let between = registrar.may_open();
    let second = open(&mut two, &mut registrar, two_doors(alloc)?);
    let after = registrar.may_open();
    Some((first, second, [before, between, after]))
}

#[test]
fn openings_are_numbered_or_refused(rt: HostRuntime) -> Result<(), Fail> {
    let (first, second, may) = two_openings(rt.alloc(), 2, 1).expect(&rt, "there is memory");
    assert!(rt; matches!(first, Ok((1, 0))) && matches!(second, Ok((2, 1))));
    assert_eq!(rt; may, [true, true, false]);
    let (first, second, may) = two_openings(rt.alloc(), 1, 5).expect(&rt, "there is memory");
    assert!(rt; matches!(first, Ok((5, 0))));
    assert_eq!(rt;
        (refused(&second), may),
        (Some((1, 1, 5)), [true, false, false])
    );
    let (first, second, may) = two_openings(rt.alloc(), 2, 33_554_431).expect(
        &rt,
        "there is memory",
    );
    assert!(rt; matches!(first, Ok((33_554_431, 0))));
    assert_eq!(rt;
        (refused(&second), may),
        (Some((1, 0, 0)), [true, false, false])
    );
    Ok(())
}
