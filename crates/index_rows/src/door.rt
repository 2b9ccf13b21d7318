//! A door to a searcher, which is kept from row to row.
ghost use Rattle.searcher_core.specs.Shows.{AreSizes};

use field_schema::NoMemory;
use request_form::Request;
use rt_edge::Gate;
use searcher_core::{CacheSizes, Door, Searcher, Served, serve};
use segment_postings::{Counts, Probe, Reads, View};
use std::alloc::Global;
use std::marker::Model;
use std::sync::{Arc, Wait};

// A door to a searcher. Contracts see what the searcher shows.
#[derive(Drop)]
pub(crate) struct KeptDoor {
    door: Door,
}

impl Model for KeptDoor {
    ghost use Rattle.std.specs.Arc.{arc_value};
    ghost use Rattle.searcher_core.specs.Seating.{AreSeatsOf};
    ghost use Rattle.searcher_core.specs.Shows.{Shows};

    ghost Value = { Shows };

    ghost view = { λ d. arc_value d.door.searcher };

    ghost invariant = { λ d. AreSeatsOf (arc_value d.door.searcher) d.door.seats };
}

impl KeptDoor {
    // A door to a searcher of a view, whose caches keep nothing yet.
    pub(crate) fn new(
        alloc: Global,
        view: &Arc<View>,
        sizes: CacheSizes,
    ) -> Result<KeptDoor, NoMemory>
        requires { AreSizes sizes }
    {
        let doors = Searcher::new(alloc, Arc::clone(view)?, sizes, 1)?;
        let Some(door) = doors.into_iter().next() else {
            unreachable!()
        };
        Ok(KeptDoor { door })
    }

    // Serves a request of a caller, and tells how often the view was read for it.
    pub(crate) fn serve<R: Wait, G: Gate>(
        &mut self,
        rt: &R,
        alloc: Global,
        request: &Request,
        gate: &G,
        caller: u32,
    ) -> Result<(Served, Counts), NoMemory> {
        let Door { searcher, seats } = &mut self.door;
        let mut probe = Probe::new(searcher.view());
        let served = serve(
            rt, alloc, searcher, seats, request, &mut probe, gate, caller,
        )?;
        Ok((served, probe.counts()))
    }
}
