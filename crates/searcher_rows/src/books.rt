// The books of a searcher of one door.
ghost use Rattle.searcher_core.specs.Shows.{AreSizes};

use crate::base::{ANSWERS, requests, schema, small_caches, told, view};
use field_schema::NoMemory;
use request_form::Request;
use rt_edge::OpenGate;
use searcher_books::{Book, Books, close_doors};
use searcher_core::{CacheSizes, Door, Searcher, Served, serve};
use segment_postings::{Probe, View};
use std::alloc::Global;
use std::marker::Model;
use std::sync::{Arc, Wait};
use std::test::Fail;

// The only door of a searcher. Contracts see what the searcher shows.
#[derive(Drop)]
struct OnlyDoor {
    door: Door,
}

impl Model for OnlyDoor {
    ghost use Rattle.std.specs.Arc.{arc_value};
    ghost use Rattle.searcher_core.specs.Doors.{AreCounted};
    ghost use Rattle.searcher_core.specs.Seating.{AreSeatsOf};
    ghost use Rattle.searcher_core.specs.Shows.{Shows};
    ghost use Rattle.searcher_rows.specs.Only.{IsOnly};

    ghost Value = { Shows };

    ghost view = { λ d. arc_value d.door.searcher };

    ghost invariant = { λ d.
        AreSeatsOf (arc_value d.door.searcher) d.door.seats × IsOnly d.door };
}

impl OnlyDoor {
    // The door to a new searcher of a view.
    fn new(alloc: Global, view: Arc<View>, sizes: CacheSizes) -> Result<OnlyDoor, NoMemory>
        requires { AreSizes sizes }
    {
        let doors = Searcher::new(alloc, view, sizes, 1)?;
        let Some(door) = doors.into_iter().next() else {
            unreachable!()
        };
        Ok(OnlyDoor { door })
    }

    fn serve<R: Wait>(
        &mut self,
        rt: &R,
        alloc: Global,
        request: &Request,
    ) -> Result<Served, NoMemory> {
        let Door { searcher, seats } = &mut self.door;
        let mut probe = Probe::new(searcher.view());
        serve(
            rt, alloc, searcher, seats, request, &mut probe, &OpenGate, 1,
        )
    }

    fn close(self, alloc: Global) -> Result<Books, NoMemory> {
        let mut doors = Vec::new(alloc);
        doors.push(self.door)?;
        Ok(close_doors(doors))
    }
}

// A book of so many look-ups, hits and stores, of which no list was asked for.
fn book(lookups: u64, hits: u64, stores: u64) -> Book {
    Book {
        lookups,
        hits,
        stores,
        recents: 0,
        keys: 0,
    }
}

#[test]
fn a_searcher_of_one_door_has_books(rt: HostRuntime) -> Result<(), Fail> {
    let alloc = rt.alloc();
    let schema = schema(alloc)?;
    let requests = requests(alloc, &schema)?;
    let mut door = OnlyDoor::new(alloc, view(alloc, &schema)?, small_caches())?;
    let mut answers = ANSWERS.iter();
    for request in &requests {
        let served = door.serve(&rt, alloc, request)?;
        let text = told(alloc, &served).expect(&rt, "there is memory");
        assert_eq!(rt; answers.next(), Some(&text.as_str()));
    }
    assert_eq!(rt; answers.next(), None);
    let books = door.close(alloc)?;
    assert_eq!(rt; books.document, book(8, 1, 7));
    assert_eq!(rt; books.filter, book(5, 1, 4));
    assert_eq!(rt; books.result, book(5, 0, 5));
    assert_eq!(rt; books.left_out, 0);
    Ok(())
}
