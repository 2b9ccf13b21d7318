//! The filter cache, whose filters and sets are told by numbers.
use crate::seats::{Given, Seen, Shared};
use doc_sets::DocSet;
use filter_cache::{FilterCells, FilterLook};
use query_tree::Query;
use std::alloc::Global;
use std::sync::Arc;
use std::test::Fail;

// The filter of so great a number.
fn filter(number: u32) -> Query {
    Query::Exists(number)
}

// A set of so many documents, at most a hundred.
fn set_of(alloc: Global, count: u32) -> Result<Arc<DocSet>, Fail> {
    let mut set = DocSet::new(alloc);
    for number in 0..count.min(100) {
        let one = DocSet::from_sorted(alloc, &[number * 7])?;
        set = set.or(alloc, &one)?;
    }
    Ok(Arc::new(alloc, set)?)
}

impl Shared for FilterCells {
    fn ask(&mut self, _alloc: Global, seat: u32, key: u32, _need: u32) -> Result<Seen, Fail> {
        if seat >= self.seats() || self.owned(seat).is_some() {
            return Err(Fail::new("no idle seat"));
        }
        match self.look(filter(key), seat)? {
            FilterLook::Hit(set) => Ok(Seen::Hit(set.len() as usize)),
            FilterLook::Join(joined, owner) if joined == filter(key) => Ok(Seen::Join(owner)),
            FilterLook::Join(_, _) => Err(Fail::new("another filter")),
            FilterLook::Own => Ok(Seen::Own),
        }
    }

    fn end(&mut self, alloc: Global, seat: u32, given: Option<Given>) -> Result<Seen, Fail> {
        if self.owned(seat).is_none() {
            return Err(Fail::new("no owner"));
        }
        match given {
            Some(given) => self.finish(seat, set_of(alloc, given.count)?)?,
            None => self.give_up(seat),
        }
        Ok(Seen::Done)
    }

    fn keys(&self, alloc: Global) -> Result<Vec<u32>, Fail> {
        let mut keys = Vec::new(alloc);
        for key in self.recent(self.len())?.as_slice() {
            if let Query::Exists(number) = key {
                keys.push(*number)?;
            }
        }
        Ok(keys)
    }
}
