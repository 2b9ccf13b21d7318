use crate::board::{CURRENT, GENERATION, REGISTRAR, SLOT};
use crate::plays::{Ends, Gather, Publish, Supersede};
use crate::registrar::Registrar;
use crate::settle::settle;
use crate::shown::Shown;
use crate::tokens::{Opening, Published};
use std::marker::Brand;

impl<D: Shown, U: Drop> Registrar<D, U> {
    ghost use Rattle.std.specs.Prelude.{◌≡◌, ◌<◌, ◌≤◌};
    ghost use Rattle.searcher_table.specs.Registrars.{table_of, places_of};
    ghost use Rattle.searcher_table.specs.Publishing.{HasPublished};

    /// Ends the warming of an opened generation: it is current from now on, unless a greater one is. The entry has the list
    /// of its own door, by which it was warmed. What was current before is settled: its slot is free once nobody uses it
    /// any more, and so is that of a superseded one. It takes no memory and doesn't wait.
    pub fn publish(&mut self, opening: Opening<D, U>, own: &D) -> Published
        requires table { opening.seat.table_id ≡ table_of self.old }
        requires room { places_of self.old < 18446744073709551615 }
        ensures { HasPublished (D.list own.now) self.old self.new opening result }
    {
        if self.current > opening.generation {
            self.supersede::<Brand>(opening, own)
        } else {
            self.register::<Brand>(opening, own)
        }
    }

    // Gives the opened generation up, since a greater one is current. A call picks the list from the own door.
    fn supersede<E: Ends<D::Deed>>(&mut self, opening: Opening<D, U>, _own: &D) -> Published
        requires table { opening.seat.table_id ≡ table_of self.old }
        requires room { places_of self.old < 18446744073709551615 }
        requires later { opening.generation < self.old.current }
        ensures { HasPublished E.list self.old self.new opening result }
    {
        let Opening {
            generation,
            slot,
            at: _,
            seat,
            link,
        } = opening;
        let shared = &self.table.shared;
        shared.join_seat::<Gather>(&mut self.place, seat);
        shared.store::<Supersede<E>>(&mut self.place, REGISTRAR, 0);
        settle(&self.table, &mut self.place, slot, generation, 0);
        let place = self.places;
        self.places += 1;
        self.warming.remove(generation);
        self.spare.push_reserved(link);
        Published::Superseded {
            by: self.current,
            place,
        }
    }

    // Makes the opened generation current. A call picks the list from the own door.
    fn register<E: Ends<D::Deed>>(&mut self, opening: Opening<D, U>, _own: &D) -> Published
        requires table { opening.seat.table_id ≡ table_of self.old }
        requires room { places_of self.old < 18446744073709551615 }
        requires latest { self.old.current ≤ opening.generation }
        ensures { HasPublished E.list self.old self.new opening result }
    {
        let Opening {
            generation,
            slot,
            at: _,
            seat,
            link,
        } = opening;
        let packed = u64::from(generation) * GENERATION + u64::from(slot) * SLOT;
        let shared = &self.table.shared;
        shared.join_seat::<Gather>(&mut self.place, seat);
        let word = shared.swap::<Publish<E>>(&mut self.place, CURRENT, packed);
        let place = self.places;
        self.places += 1;
        self.current = generation;
        self.warming.remove(generation);
        self.spare.push_reserved(link);
        if word < GENERATION {
            return Published::Registered {
                place,
                settled: None,
            };
        }
        let old = (word / GENERATION) as u32;
        let total = (word % SLOT) as u32;
        let old_slot = (word / SLOT % 128) as u32;
        settle(&self.table, &mut self.place, old_slot, old, total);
        Published::Registered {
            place,
            settled: Some((old, total)),
        }
    }
}
