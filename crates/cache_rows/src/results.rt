//! The result cache, whose queries and results are told by numbers.
use crate::seats::{Given, Seen, Shared};
use doc_sets::DocList;
use field_schema::NoMemory;
use query_tree::{Query, Sort, SortBy, SortKey};
use result_cache::{Entry, ResultCells, ResultKey, ResultLook};
use sqlite_items::Items;
use std::alloc::Global;
use std::sync::Arc;
use std::test::Fail;

// The key of the query of so great a number, with filters of these numbers, by the first field.
pub(crate) fn key_of(alloc: Global, number: u32, filters: &[u32]) -> Result<ResultKey, NoMemory> {
    let mut queries = Items::new(alloc);
    for filter in filters {
        queries.push(Query::Exists(*filter))?;
    }
    let by = SortBy::Field(0);
    let sort = Sort::new(Vec::from_slice(alloc, &[SortKey { by, down: false }])?);
    ResultKey::make(alloc, &Query::Exists(number), &queries, &sort)
}

// What lists so many documents: all that were found, or all but one.
fn entry_of(alloc: Global, given: Given) -> Result<Arc<Entry>, Fail> {
    let mut numbers = Vec::new(alloc);
    for number in 0..given.count {
        numbers.push(number)?;
    }
    let missing = if given.whole { 0 } else { 1 };
    let entry = Entry {
        ids: DocList::new(numbers),
        found: given.count.saturating_add(missing),
    };
    Ok(Arc::new(alloc, entry)?)
}

// A cache that keeps no result of more documents than `most`.
#[derive(Drop)]
pub(crate) struct Results {
    pub(crate) cells: ResultCells,
    pub(crate) most: u32,
}

impl Shared for Results {
    fn ask(&mut self, alloc: Global, seat: u32, key: u32, need: u32) -> Result<Seen, Fail> {
        if seat >= self.cells.seats() || self.cells.owned(seat).is_some() {
            return Err(Fail::new("no idle seat"));
        }
        let key = key_of(alloc, key, &[9, 8])?;
        let asked = key.copy(alloc)?;
        match self.cells.look(key, u64::from(need), seat)? {
            ResultLook::Hit(entry) => Ok(Seen::Hit(entry.ids.get().len())),
            ResultLook::Join(joined, owner) if joined == asked => Ok(Seen::Join(owner)),
            ResultLook::Join(_, _) => Err(Fail::new("another key")),
            ResultLook::Own => Ok(Seen::Own),
        }
    }

    fn end(&mut self, alloc: Global, seat: u32, given: Option<Given>) -> Result<Seen, Fail> {
        if self.cells.owned(seat).is_none() {
            return Err(Fail::new("no owner"));
        }
        match given {
            Some(given) => {
                let entry = entry_of(alloc, given)?;
                self.cells.finish(seat, entry, self.most)?;
            }
            None => self.cells.give_up(seat),
        }
        Ok(Seen::Done)
    }

    fn keys(&self, alloc: Global) -> Result<Vec<u32>, Fail> {
        let mut keys = Vec::new(alloc);
        for key in &self.cells.recent(self.cells.len())? {
            if let Query::Exists(number) = &key.q {
                keys.push(*number)?;
            }
        }
        Ok(keys)
    }
}
