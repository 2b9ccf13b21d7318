// A registrar, with a caller that asks it for openings, and what else the tests share.
ghost use Rattle.std.specs.Prelude.{◌≡◌};
ghost use Rattle.searcher_table.specs.Registrars.{plan_of, places_of};
ghost use Rattle.table_rows.specs.TableTrials.{IsReady};

use searcher_table::{
    AcquireRefusal, Call, OpenRefusal, Opening, Pass, Published, Registrar, Shown, make,
};
use std::alloc::Global;

/// A door that shows a number. Its mark tells it from others.
#[derive(Drop)]
pub(crate) struct Door {
    pub(crate) number: u32,
    pub(crate) mark: u32,
}

impl Shown for Door {
    type Setting = u32;

    type Docs = u32;

    type Deed = u32;

    ghost use Rattle.std.specs.Prelude.{[]};

    ghost setting = { λ d. 0 };

    ghost docs = { λ d. d.number };

    ghost list = { λ d. [] };
}

/// The registrar of a table, and the pass of its last caller, which asks for openings.
#[derive(Drop)]
pub(crate) struct Desk {
    pass: Pass<Door, u32>,
    registrar: Registrar<Door, u32>,
    callers: u32,
    places: u64,
    // How many lists of doors it has made.
    lists: u32,
    ghost ready: { IsReady registrar pass },
    ghost setting: { (plan_of registrar).setting.value ≡ 0 },
    ghost for_each: { (plan_of registrar).callers ≡ callers },
    ghost counted: { places_of registrar ≡ places },
}

ghost use Rattle.std.specs.Prelude.{◌≤◌, None, IfSome, IfOk, IfErr};
ghost use Rattle.searcher_table.specs.Passes.{announced_of};
ghost use Rattle.searcher_table.specs.Pins.{IsNotAcquired};
ghost use Rattle.searcher_table.specs.Making.{AreDealt};
ghost use Rattle.searcher_table.specs.Registrars.{table_of, IsSameRegistrar};
ghost use Rattle.table_rows.specs.TableTrials.{AreShowing, HasNothingOut, HasHeld};

/// What an acquire gave: the generation and the ticket.
pub(crate) type Held = Result<(u32, u32), AcquireRefusal>;

/// Acquires what is current, if anything is, and releases it: the generation and the ticket. The caller has just these two
/// entries more.
pub(crate) fn hold(pass: Pass<Door, u32>) -> (Pass<Door, u32>, Result<(u32, u32), AcquireRefusal>)
    requires { announced_of pass ≡ None }
    ensures pass { HasNothingOut pass result.0 }
    ensures held { IfOk result.1 (λ got. HasHeld pass result.0 got.0 got.1) }
    ensures refused { IfErr result.1 (λ why. IsNotAcquired pass result.0 why) }
{
    match pass.acquire() {
        Ok(pin) => {
            let got = (pin.generation(), pin.ticket());
            (pin.release(), Ok(got))
        }
        Err((pass, why)) => (pass, Err(why)),
    }
}

// So many doors that show 9. Their marks are those behind this one.
fn doors(alloc: Global, count: u32, first: u32) -> Option<Vec<Door>>
    ensures { IfSome result (λ doors. AreShowing (λ d. d.number) 9 count doors.items) }
{
    let Ok(mut doors) = Vec::with_capacity(alloc, count as usize) else {
        return None;
    };
    for index in 0..count {
        let mark = first.wrapping_add(index + 1);
        doors.push_reserved(Door { number: 9, mark });
    }
    Some(doors)
}

/// The passes of all callers of a new table but the last one, and the desk of that one.
pub(crate) fn start(
    alloc: Global,
    callers: u32,
    max_warming: u32,
    first_generation: u32,
    budget: u32,
) -> Option<(Vec<Pass<Door, u32>>, Desk)>
    requires callers { (1 ≤ callers) × (callers ≤ 64) }
    requires warming { (1 ≤ max_warming) × (max_warming ≤ 4) }
    requires generation { (1 ≤ first_generation) × (first_generation ≤ 33554431) }
    requires budget { (1 ≤ budget) × (budget ≤ 67108863) }
    ensures { IfSome result (λ s. AreDealt s.1.registrar s.0.items) }
{
    let Ok((mut passes, registrar)) = make::<Door, u32>(
        alloc,
        &0,
        callers,
        max_warming,
        first_generation,
        budget,
    ) else {
        return None;
    };
    let pass = passes.pop()?;
    let desk = Desk {
        pass,
        registrar,
        callers,
        places: 0,
        lists: 0,
    };
    Some((passes, desk))
}

impl Desk {
    /// What the next opening is answered, if there is memory. The doors of the nth list are marked `100 * n + 1` and so on.
    pub(crate) fn open(&mut self, alloc: Global) -> Option<Result<Opening<Door, u32>, OpenRefusal>>
        ensures same { IsSameRegistrar self.old.registrar self.new.registrar }
        ensures table { IfSome result (λ r. IfOk r (λ o. o.seat.table_id ≡ table_of self.new.registrar)) }
    {
        let places = self.places.checked_add(1)?;
        let lists = self.lists.checked_add(1)?;
        let doors = doors(alloc, self.callers, lists.wrapping_mul(100))?;
        let call = self.pass.announce(Call::Open, 0);
        let answer = self.registrar.execute_open(call, doors);
        let note = self.registrar.note();
        self.pass.meet(note);
        self.places = places;
        self.lists = lists;
        match answer {
            Ok(opening) => Some(Ok(opening)),
            Err((refusal, _doors)) => Some(Err(refusal)),
        }
    }

    /// The next opening. There is none where it is refused.
    pub(crate) fn opened(&mut self, alloc: Global) -> Option<Opening<Door, u32>>
        ensures same { IsSameRegistrar self.old.registrar self.new.registrar }
        ensures table { IfSome result (λ o. o.seat.table_id ≡ table_of self.new.registrar) }
    {
        match self.open(alloc)? {
            Ok(opening) => Some(opening),
            Err(_refusal) => None,
        }
    }

    /// How the next opening is refused, if it is.
    pub(crate) fn refused(&mut self, alloc: Global) -> Option<OpenRefusal>
        ensures { IsSameRegistrar self.old.registrar self.new.registrar }
    {
        match self.open(alloc)? {
            Ok(_opening) => None,
            Err(refusal) => Some(refusal),
        }
    }

    /// How the warming of an opening ends. Its own door is marked 0.
    pub(crate) fn publish(&mut self, opening: Opening<Door, u32>) -> Option<Published>
        requires { opening.seat.table_id ≡ table_of self.old.registrar }
        ensures { IsSameRegistrar self.old.registrar self.new.registrar }
    {
        let places = self.places.checked_add(1)?;
        let own = Door { number: 9, mark: 0 };
        let published = self.registrar.publish(opening, &own);
        self.places = places;
        Some(published)
    }

    /// Opens the next generation and publishes it at once, if it is not refused.
    pub(crate) fn turn(&mut self, alloc: Global) -> Option<Published>
        ensures { IsSameRegistrar self.old.registrar self.new.registrar }
    {
        let opening = self.opened(alloc)?;
        self.publish(opening)
    }

    /// The generation that is current, with its acquires.
    pub(crate) fn current(&mut self) -> Option<(u32, u32)>
        ensures { IsSameRegistrar self.old.registrar self.new.registrar }
    {
        self.registrar.current()
    }

    /// Has its caller acquire and release.
    pub(crate) fn hold(self) -> (Desk, Held)
        ensures { IsSameRegistrar self.registrar result.0.registrar }
    {
        let Desk {
            pass,
            registrar,
            callers,
            places,
            lists,
        } = self;
        let (pass, held) = hold(pass);
        let desk = Desk {
            pass,
            registrar,
            callers,
            places,
            lists,
        };
        (desk, held)
    }
}
