//! A cache of lists that are told by their lengths.
ghost use Rattle.std.specs.Prelude.{◌+◌, ◌||◌, nat_le};

use crate::seats::{Given, Seen, Shared};
use cache_cells::{Cells, Value};
use cache_machine::Look;
use std::alloc::{AllocError, Global};
use std::test::Fail;

impl Value for Given {
    ghost weight = { λ v. 1 + v.count };

    ghost serves = { λ need v. nat_le need v.count || v.whole };

    fn weight_within(&self, most: u64) -> Option<u64> {
        let weight = 1 + u64::from(self.count);
        if weight <= most { Some(weight) } else { None }
    }

    fn serves(&self, need: u64) -> bool {
        need <= u64::from(self.count) || self.whole
    }

    fn share(&self) -> Result<Given, AllocError> {
        Ok(*self)
    }
}

impl Shared for Cells<u32, Given> {
    fn ask(&mut self, _alloc: Global, seat: u32, key: u32, need: u32) -> Result<Seen, Fail> {
        if seat >= self.seats() || self.owned(seat).is_some() {
            return Err(Fail::new("no idle seat"));
        }
        match self.look(key, u64::from(need), seat)? {
            Look::Hit(given) => Ok(Seen::Hit(given.count as usize)),
            Look::Join(joined, owner) if joined == key => Ok(Seen::Join(owner)),
            Look::Join(_, _) => Err(Fail::new("another key")),
            Look::Own => Ok(Seen::Own),
        }
    }

    fn end(&mut self, _alloc: Global, seat: u32, given: Option<Given>) -> Result<Seen, Fail> {
        if self.owned(seat).is_none() {
            return Err(Fail::new("no owner"));
        }
        match given {
            Some(given) => self.finish(seat, given, given.keep)?,
            None => {
                self.release(seat);
            }
        }
        Ok(Seen::Done)
    }

    fn keys(&self, alloc: Global) -> Result<Vec<u32>, Fail> {
        let mut keys = Vec::new(alloc);
        for (key, _given) in self.iter() {
            keys.push(*key)?;
        }
        Ok(keys)
    }
}
