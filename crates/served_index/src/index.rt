ghost use Rattle.std.specs.Prelude.{◌≡◌, ℕ, ◌<◌, ◌≤◌, ◌+◌, ◌^◌, true, [], OnOk, OnErr, IfOk, length};
ghost use Rattle.doc_sets.specs.Sets.{is_in};
ghost use Rattle.std.specs.Arc.{arc_value};
ghost use Rattle.search_model.specs.Live.{added, deleted_id, deleted_query, after};
ghost use Rattle.doc_sets.specs.declared.TheConstants.{MAX_DOCS};
ghost use Rattle.segment_postings.specs.Numbered.{docs};

use crate::gone::{all_gone, matching_numbers, numbers_with_id, set_of};
use crate::pending::Pending;
use doc_model::Doc;
use doc_sets::DocNo;
use field_schema::{FieldNo, NoMemory, Text};
use query_tree::Query;
use segment_postings::View;
use std::alloc::Global;
use std::marker::Model;
use std::sync::Arc;

/// The documents that the updates so far leave, and those that the current searcher sees. Contracts see both lists in
/// index order, and how many document numbers are taken. A document tells where its unique key stands, so an index asks for no
/// schema.
///
/// The current searcher sees a view that is never changed, and that is shared with it. Beside it stand the numbers of its documents that were
/// replaced or deleted since, and the documents that were added since. So an opening copies no document.
#[derive(Drop)]
pub struct Index {
    current: Arc<View>,
    // They stand in the order in which they went, and one may stand twice.
    gone: Vec<DocNo>,
    pending: Pending,
    // Where the unique keys stand: one field, if all documents are of one schema.
    keys: Vec<FieldNo>,
}

impl Model for Index {
    ghost use Rattle.served_index.specs.IndexState.{IndexState};
    ghost use Rattle.served_index.specs.Standing.{state, IsIndex};
    ghost use Rattle.std.specs.Arc.{arc_value};

    ghost Value = { IndexState };

    ghost view = { λ p. state (arc_value p.current).seen p.gone.items p.pending };

    ghost invariant = { λ p. IsIndex (arc_value p.current).seen p.gone.items p.pending p.keys.items };
}

// An opening leaves no more segments than these.
const MOST_SEGMENTS: u32 = 10;

impl Index {
    /// No document.
    ///
    /// Fails only for want of memory.
    pub fn new(alloc: Global) -> Result<Index, NoMemory>
        ensures docs { IfOk result (λ p. p.docs ≡ []) }
        ensures served { IfOk result (λ p. p.served ≡ []) }
        ensures numbers { IfOk result (λ p. p.numbers ≡ 0) }
    {
        Ok(Index {
            current: Arc::new(alloc, View::empty(alloc)?)?,
            gone: Vec::new(alloc),
            pending: Pending::new(alloc),
            keys: Vec::new(alloc),
        })
    }

    /// How many document numbers are taken: those of the view, and one for each document added since the opening. It
    /// costs nothing.
    pub fn numbers(&self) -> u32
        ensures numbers { result ≡ self.now.numbers }
        ensures most { result ≤ MAX_DOCS }
    {
        self.current.size() + self.pending.len()
    }

    /// Adds a document, last, in place of the one with its unique key. It takes a document number, which the next
    /// opening gives back if the document is replaced or deleted before.
    ///
    /// Fails only for want of memory, and then all documents are as before. It costs the postings of the unique key in
    /// each segment, and a search among the unique keys of the documents added since the opening. The document is shared.
    pub fn add(&mut self, alloc: Global, doc: Arc<Doc>) -> Result<(), NoMemory>
        requires room { self.old.numbers < MAX_DOCS }
        ensures ok { OnOk result (self.new.docs ≡ after self.old.docs (added (arc_value doc))) }
        ensures err { OnErr result (self.new.docs ≡ self.old.docs) }
        ensures served { self.new.served ≡ self.old.served }
        ensures numbers { self.new.numbers ≤ self.old.numbers + 1 }
    {
        note_field(&mut self.keys, doc.key_field())?;
        let found = numbers_with_id(alloc, &self.current, &self.keys, doc.id())?;
        let before = self.gone.len();
        self.gone.extend_from_slice(found.as_slice())?;
        match self.pending.put(alloc, doc) {
            Ok(()) => Ok(()),
            Err(fault) => {
                self.gone.truncate(before);
                Err(fault)
            }
        }
    }

    /// Deletes the document with a unique key, if there is one.
    ///
    /// Fails only for want of memory, and then all documents are as before. It costs what an add costs.
    pub fn delete_id(&mut self, alloc: Global, id: &str) -> Result<(), NoMemory>
        ensures ok { OnOk result (self.new.docs ≡ after self.old.docs (deleted_id id.now)) }
        ensures err { OnErr result (self.new.docs ≡ self.old.docs) }
        ensures served { self.new.served ≡ self.old.served }
        ensures numbers { self.new.numbers ≤ self.old.numbers }
    {
        let id = Text::from_str(alloc, id)?;
        let found = numbers_with_id(alloc, &self.current, &self.keys, &id)?;
        self.gone.extend_from_slice(found.as_slice())?;
        self.pending.remove(&id);
        Ok(())
    }

    /// Deletes each document that a query matches.
    ///
    /// Fails only for want of memory, and then all documents are as before. It costs the evaluation of the query on the
    /// current view, a sort of the numbers that are gone, and for each document added since the opening a match and a
    /// search among their unique keys.
    pub fn delete_query(&mut self, alloc: Global, query: &Query) -> Result<(), NoMemory>
        ensures ok { OnOk result (self.new.docs ≡ after self.old.docs (deleted_query query.now)) }
        ensures err { OnErr result (self.new.docs ≡ self.old.docs) }
        ensures served { self.new.served ≡ self.old.served }
        ensures numbers { self.new.numbers ≤ self.old.numbers }
    {
        let found = matching_numbers(alloc, &self.current, query)?;
        let gone = all_gone(alloc, &self.gone, &found)?;
        let pending = self.pending.without(alloc, query)?;
        self.gone = gone;
        self.pending = pending;
        Ok(())
    }

    /// The view that the current searcher sees. It costs nothing.
    pub fn view(&self) -> &Arc<View>
        ensures served { docs (arc_value result.now).seen ≡ self.now.served }
    {
        &self.current
    }

    /// A view of the documents as they stand, for the next searcher. The index stays as it is.
    ///
    /// Fails only for want of memory. It costs a pass over the documents added since the last opening and a sort of their
    /// keys, a sort of the numbers that are gone, a step for each 64 numbers, and where there are more than ten segments
    /// the merge of neighbours, by which each document moves some tens of times over all openings.
    pub fn next_view(&self, alloc: Global) -> Result<Arc<View>, NoMemory>
        ensures docs { IfOk result (λ v. docs (arc_value v).seen ≡ self.now.docs) }
        ensures size { IfOk result (λ v. (arc_value v).seen.size ≤ self.now.numbers) }
    {
        let gone = set_of(alloc, &self.gone)?;
        let added = self.pending.shared(alloc)?;
        let extended = self.current.extend(alloc, added, &gone)?;
        let next = settled(alloc, extended)?;
        Ok(Arc::new(alloc, next)?)
    }

    /// Goes on from a view of the documents as they stand: the current searcher sees it from now on. It takes no memory.
    pub fn go_on(&mut self, alloc: Global, view: Arc<View>)
        requires docs { docs (arc_value view).seen ≡ self.old.docs }
        requires size { (arc_value view).seen.size ≤ self.old.numbers }
        ensures served { self.new.served ≡ self.old.docs }
        ensures docs { self.new.docs ≡ self.old.docs }
        ensures numbers { self.new.numbers ≤ self.old.numbers }
    {
        self.current = view;
        self.gone = Vec::new(alloc);
        self.pending = Pending::new(alloc);
    }
}

// Puts a field among those where unique keys stand, unless it is there.
fn note_field(fields: &mut Vec<FieldNo>, field: FieldNo) -> Result<(), NoMemory>
    ensures there { OnOk result (is_in fields.new.items field ≡ true) }
    ensures stay { (n : ℕ) → is_in fields.old.items n ≡ true → is_in fields.new.items n ≡ true }
{
    if !fields.contains(&field) {
        fields.push(field)?;
    }
    Ok(())
}

// The view with neighbours merged until there are no more segments than ten.
fn settled(alloc: Global, view: View) -> Result<View, NoMemory>
    ensures docs { IfOk result (λ v. docs v.seen ≡ docs view.seen) }
    ensures size { IfOk result (λ v. v.seen.size ≤ view.seen.size) }
{
    let mut settled = view;
    while settled.segments() > MOST_SEGMENTS {
        let at = pair_to_merge(&settled);
        settled = settled.merge(alloc, at)?;
    }
    Ok(settled)
}

// The first pair of neighbours whose earlier segment is the fewest times as large as the later one. So sizes fall from
// segment to segment, and a merge is seldom of a large one.
fn pair_to_merge(view: &View) -> u32
    requires two { 1 < length view.now.keys }
    ensures pair { result + 1 < length view.now.keys }
{
    let mut best = 0;
    for at in 1..view.segments() - 1 {
        if is_less_steep(view, at, best) {
            best = at;
        }
    }
    best
}

// Whether the segment at a place is fewer times as large as the next one than it is so at another place.
fn is_less_steep(view: &View, at: u32, other: u32) -> bool
    requires few { length view.now.keys < 2 ^ 32 }
    requires at { at + 1 < length view.now.keys }
    requires other { other + 1 < length view.now.keys }
{
    let here = u64::from(view.held(at)) * u64::from(view.held(other + 1));
    let there = u64::from(view.held(other)) * u64::from(view.held(at + 1));
    here < there
}
