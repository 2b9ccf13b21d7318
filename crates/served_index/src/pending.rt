//! The documents that were added since the current searcher was opened.
ghost use Rattle.std.specs.Prelude.{◌≡◌, ℕ, ◌+◌, ◌<◌, ◌≤◌, [], OnOk, OnErr, IfOk, IfSome, map, length};
ghost use Rattle.std.specs.Arc.{arc_value};
ghost use Rattle.doc_sets.specs.declared.TheConstants.{MAX_DOCS};
ghost use Rattle.search_model.specs.Live.{added, deleted_id, deleted_query, after};
ghost use Rattle.served_index.specs.Pendings.{emptied, kept_with};

use doc_model::Doc;
use field_schema::{NoMemory, Text};
use query_eval::matches;
use query_tree::Query;
use std::alloc::Global;
use std::collections::BTreeMap;
use std::marker::Model;
use std::sync::Arc;

// Documents in their order, each in a slot, and a map from unique keys to slots. A document that is replaced or
// deleted leaves its slot empty.
#[derive(Drop)]
pub(crate) struct Pending {
    slots: Vec<Option<Arc<Doc>>>,
    places: BTreeMap<Text, usize>,
}

impl Model for Pending {
    ghost use Rattle.std.specs.Prelude.{length};
    ghost use Rattle.served_index.specs.Pendings.{PendingState, documents, IsPlaced};

    ghost Value = { PendingState };

    ghost view = { λ p. record { docs = documents p.slots.items; slots = length p.slots.items } };

    ghost invariant = { λ p. IsPlaced p.slots.items p.places };
}

impl Pending {
    // No document.
    pub(crate) fn new(alloc: Global) -> Pending
        ensures docs { result.docs ≡ [] }
        ensures slots { result.slots ≡ 0 }
    {
        Pending {
            slots: Vec::new(alloc),
            places: BTreeMap::new(alloc),
        }
    }

    // How many slots there are.
    pub(crate) fn len(&self) -> u32
        requires { self.now.slots ≤ MAX_DOCS }
        ensures { result ≡ self.now.slots }
    {
        self.slots.len() as u32
    }

    // Puts a document last, in place of the one with its unique key. It costs a search among the keys.
    pub(crate) fn put(&mut self, alloc: Global, doc: Arc<Doc>) -> Result<(), NoMemory>
        ensures ok { OnOk result (self.new.docs ≡ after self.old.docs (added (arc_value doc))) }
        ensures err { OnErr result (self.new.docs ≡ self.old.docs) }
        ensures slots { self.new.slots ≤ self.old.slots + 1 }
    {
        let key = doc.id().copy(alloc)?;
        let last = self.slots.len();
        self.slots.push(Some(doc))?;
        match self.places.insert(key, last) {
            Ok(older) => {
                empty(&mut self.slots, older);
                Ok(())
            }
            Err(fault) => {
                self.slots.truncate(last);
                Err(NoMemory::from(fault))
            }
        }
    }

    // Drops the document with a unique key, if there is one. It costs a search among the keys.
    pub(crate) fn remove(&mut self, id: &Text)
        ensures docs { self.new.docs ≡ after self.old.docs (deleted_id id.now) }
        ensures slots { self.new.slots ≡ self.old.slots }
    {
        let place = self.places.remove(id);
        empty(&mut self.slots, place);
    }

    // The documents, shared. It costs a step a slot.
    pub(crate) fn shared(&self, alloc: Global) -> Result<Vec<Arc<Doc>>, NoMemory>
        ensures docs { IfOk result (λ v. map arc_value v.items ≡ self.now.docs) }
        ensures few { length self.now.docs ≤ self.now.slots }
    {
        let mut all = Vec::new(alloc);
        for slot in &self.slots {
            match slot {
                Some(doc) => all.push(Arc::try_clone(doc)?)?,
                None => {}
            }
        }
        Ok(all)
    }

    // The same without the documents that a query matches. It costs a match for each document, and a search among
    // the keys.
    pub(crate) fn without(&self, alloc: Global, query: &Query) -> Result<Pending, NoMemory>
        ensures docs { IfOk result (λ p. p.docs ≡ after self.now.docs (deleted_query query.now)) }
        ensures slots { IfOk result (λ p. p.slots ≤ self.now.slots) }
    {
        let mut kept = Pending::new(alloc);
        for slot in &self.slots {
            match slot {
                Some(doc) => keep(alloc, &mut kept, doc, query)?,
                None => {}
            }
        }
        Ok(kept)
    }
}

// Puts a document last, unless a query matches it.
fn keep(alloc: Global, kept: &mut Pending, doc: &Arc<Doc>, query: &Query) -> Result<(), NoMemory>
    ensures ok { OnOk result (kept.new.docs
        ≡ kept_with kept.old.docs query.now (arc_value doc.now)) }
    ensures slots { kept.new.slots ≤ kept.old.slots + 1 }
{
    if matches(alloc, doc, query)? {
        return Ok(());
    }
    kept.put(alloc, Arc::try_clone(doc)?)
}

// Empties the slot at a place, if there is one.
fn empty(slots: &mut Vec<Option<Arc<Doc>>>, place: Option<usize>)
    requires { IfSome place (λ i. i < length slots.old.items) }
    ensures { slots.new.items ≡ emptied place slots.old.items }
{
    if let Some(place) = place {
        slots[place] = None;
    }
}
