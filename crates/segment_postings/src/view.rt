ghost use Rattle.std.specs.Prelude.{◌≡◌, ℕ, ◌+◌, ◌<◌, ◌≤◌, ◌++◌, IfOk, OnOk, Some, true, map, length, slice_get};
ghost use Rattle.std.specs.Arc.{arc_value};
ghost use Rattle.std.specs.FinSet as set;
ghost use Rattle.std.specs.List.{range_with_len};
ghost use Rattle.field_schema.specs.Keys.{key_eq};
ghost use Rattle.doc_sets.specs.declared.TheConstants.{MAX_DOCS};
ghost use Rattle.segment_postings.specs.Numbered.{IsNumbered, IsLive, no_docs, numbers, docs, extended, doc_at};
ghost use Rattle.segment_postings.specs.Positions.{positions_of};
ghost use Rattle.segment_postings.specs.Postings.{postings_of};
ghost use Rattle.segment_postings.specs.Segments.{IsPart};
ghost use Rattle.segment_postings.specs.Spans.{takes, numbers_within};
ghost use Rattle.segment_postings.specs.Terms.{AreTerms, terms_from};
ghost use Rattle.segment_postings.specs.Views.{terms_of, all_docs, AddsNumbers, AddsPart, Merges, Packs, IsPacked};

use crate::packing::{Packing, moved};
use crate::posting::{Position, Posting};
use crate::segment::Segment;
use crate::span::Span;
use doc_model::Doc;
use doc_sets::{DocNo, DocSet, Gathered, MAX_DOCS};
use field_schema::{FieldNo, Key, NoMemory};
use std::alloc::Global;
use std::marker::Model;
use std::sync::Arc;

/// Segments, and which of their documents are live. Contracts see the live documents in index order, each with its
/// number, and the size, which is greater than each number; and of each segment the keys in each field and how many
/// documents it holds.
///
/// A view is never changed: others are made of it, and share its segments and documents.
#[derive(Drop)]
pub struct View {
    parts: Vec<Arc<Segment>>,
    live: Arc<DocSet>,
    size: u32,
}

impl Model for View {
    ghost use Rattle.std.specs.Prelude.{map};
    ghost use Rattle.std.specs.Arc.{arc_value};
    ghost use Rattle.segment_postings.specs.Views.{Indexed, indexed, IsView};

    ghost Value = { Indexed };

    ghost view = { λ v. indexed (arc_value v.live) (map arc_value v.parts.items) };

    ghost invariant = { λ v. IsView (arc_value v.live) v.size (map arc_value v.parts.items) };
}

impl View {
    /// The view of no document.
    pub fn empty(alloc: Global) -> Result<View, NoMemory>
        ensures seen { IfOk result (λ v. v.seen ≡ no_docs) }
        ensures segments { IfOk result (λ v. length v.keys ≡ 0) }
    {
        let live = Arc::new(alloc, DocSet::new(alloc))?;
        Ok(View {
            parts: Vec::new(alloc),
            live,
            size: 0,
        })
    }

    /// The view without the documents of `deleted`, and with `added` behind them. The size grows by these.
    ///
    /// Fails only for want of memory. It costs a pass over the documents added and a sort of their keys, and a step
    /// for each 64 numbers of the view; no older segment is read. Where nothing is added or deleted the set of live numbers
    /// is shared.
    pub fn extend(
        &self,
        alloc: Global,
        added: Vec<Arc<Doc>>,
        deleted: &DocSet,
    ) -> Result<View, NoMemory>
        requires { self.now.seen.size + length added.items ≤ MAX_DOCS }
        ensures seen { IfOk result (λ v. v.seen ≡ extended self.now.seen deleted.now (map arc_value added.items)) }
        ensures segments { IfOk result (λ v. length v.keys ≤ length self.now.keys + 1) }
    {
        let count = added.len() as u32;
        let live = next_live(alloc, &self.live, deleted, self.size, count)?;
        let size = self.size + count;
        let part = Segment::new(alloc, added)?;
        let parts = with_part(alloc, self.parts.as_slice(), part)?;
        Ok(View { parts, live, size })
    }

    /// The view with the live documents of the segments `at` and `at + 1` in one segment, or in none where there are none.
    /// The live documents and their order are the same, those of the two segments have numbers one after another, and
    /// those behind them move down.
    ///
    /// Fails only for want of memory. It costs one pass over the two segments' documents, keys and places, and where one of
    /// the documents is deleted a step for each number of the view; else the set of live numbers is shared.
    pub fn merge(&self, alloc: Global, at: u32) -> Result<View, NoMemory>
        requires { at + 1 < length self.now.keys }
        ensures docs { IfOk result (λ v. docs v.seen ≡ docs self.now.seen) }
        ensures size { IfOk result (λ v. v.seen.size ≤ self.now.seen.size) }
        ensures segments { IfOk result (λ v. length v.keys < length self.now.keys) }
        ensures packed { IfOk result (λ v. IsPacked self.now at v.seen) }
    {
        let parts = self.parts.as_slice();
        let at = at as usize;
        let (packing, part) = packed(alloc, &self.live, parts, at)?;
        let live = moved(alloc, &self.live, self.size, packing)?;
        let parts = merged(alloc, parts, at, part)?;
        let size = self.size - (packing.count - packing.kept);
        Ok(View { parts, live, size })
    }

    /// How many live documents there are. It costs nothing.
    pub fn len(&self) -> u32
        ensures { result ≡ length self.now.seen.list }
    {
        self.live.len()
    }

    /// The size, which is greater than each number, and at most [`MAX_DOCS`]. It costs nothing.
    pub fn size(&self) -> u32
        ensures size { result ≡ self.now.seen.size }
        ensures most { result ≤ MAX_DOCS }
    {
        self.size
    }

    /// How many segments there are. It costs nothing.
    pub fn segments(&self) -> u32
        ensures { result ≡ length self.now.keys }
    {
        let parts = self.parts.as_slice();
        parts.len() as u32
    }

    /// How many documents a segment holds, deleted ones too. It costs nothing.
    pub fn held(&self, at: u32) -> u32
        requires { at < length self.now.keys }
        ensures { slice_get self.now.held at ≡ Some result }
    {
        let parts = self.parts.as_slice();
        let docs = parts[at as usize].docs();
        docs.len() as u32
    }

    // The numbers of the live documents.
    pub(crate) fn live(&self) -> &DocSet
        ensures numbers { result.now ≡ set.from_list (numbers self.now.seen) }
        ensures numbered { IsNumbered self.now.seen }
        ensures terms { AreTerms self.now.seen (terms_of self.now.keys) }
    {
        &self.live
    }

    // The live documents with a key in a field.
    pub(crate) fn postings(
        &self,
        alloc: Global,
        field: FieldNo,
        key: &Key,
    ) -> Result<Vec<Posting>, NoMemory>
        ensures { IfOk result (λ p. p.items ≡ postings_of self.now.seen field key.now) }
    {
        let live: &DocSet = &self.live;
        let mut found = Vec::new(alloc);
        let mut base = 0;
        let parts = self.parts.as_slice();
        for part in parts {
            part.add_postings(alloc, &mut found, live, base, field, key)?;
            base += part.docs().len() as u32;
        }
        Ok(found)
    }

    // The numbers of the live documents with a key in a field.
    pub(crate) fn numbers(
        &self,
        alloc: Global,
        field: FieldNo,
        key: &Key,
    ) -> Result<DocSet, NoMemory>
        ensures { IfOk result (λ s. s ≡ numbers_within self.now.seen field (key_eq key.now)) }
    {
        let end = self.size;
        let mut found = Gathered::new(alloc);
        let mut base = 0;
        let parts = self.parts.as_slice();
        for part in parts {
            part.add_numbers(alloc, &mut found, base, end, field, key)?;
            base += part.docs().len() as u32;
        }
        let alive = both(alloc, found, &self.live)?;
        Ok(alive)
    }

    // Adds the positions of a key in a field of the live documents.
    pub(crate) fn add_positions(
        &self,
        found: &mut Vec<Position>,
        field: FieldNo,
        key: &Key,
    ) -> Result<(), NoMemory>
        ensures { OnOk result (found.new.items ≡ found.old.items ++ positions_of self.now.seen field key.now) }
    {
        let live: &DocSet = &self.live;
        let mut base = 0;
        let parts = self.parts.as_slice();
        for part in parts {
            part.add_positions(found, live, base, field, key)?;
            base += part.docs().len() as u32;
        }
        Ok(())
    }

    // The numbers of the live documents with a key in a field that a span takes.
    pub(crate) fn numbers_within(
        &self,
        alloc: Global,
        field: FieldNo,
        span: &Span,
    ) -> Result<DocSet, NoMemory>
        ensures { IfOk result (λ s. s ≡ numbers_within self.now.seen field (takes span.now)) }
    {
        let end = self.size;
        let mut found = Gathered::new(alloc);
        let mut base = 0;
        let parts = self.parts.as_slice();
        for part in parts {
            part.add_numbers_within(alloc, &mut found, base, end, field, span)?;
            base += part.docs().len() as u32;
        }
        let alive = both(alloc, found, &self.live)?;
        Ok(alive)
    }

    // The first of the field's terms at or after a key.
    pub(crate) fn terms_from(
        &self,
        alloc: Global,
        field: FieldNo,
        from: &Key,
        most: u32,
    ) -> Result<Vec<Key>, NoMemory>
        ensures { IfOk result (λ t. t.items ≡ terms_from (terms_of self.now.keys field) from.now most) }
    {
        let mut found = Vec::new(alloc);
        let parts = self.parts.as_slice();
        for part in parts {
            part.add_terms(alloc, &mut found, field, from, most as usize)?;
        }
        Ok(found)
    }

    // A live document.
    pub(crate) fn doc(&self, number: DocNo) -> &Arc<Doc>
        requires { IsLive self.now.seen number }
        ensures { doc_at self.now.seen number ≡ Some (arc_value result.now) }
    {
        let mut place = number as usize;
        let parts = self.parts.as_slice();
        for part in parts {
            let docs = part.docs();
            if place < docs.len() {
                return &docs[place];
            }
            place -= docs.len();
        }
        unreachable!()
    }
}

// The live numbers without those of `deleted`, and with the `count` ones from `size` on: the same set, shared, where
// nothing changes.
fn next_live(
    alloc: Global,
    live: &Arc<DocSet>,
    deleted: &DocSet,
    size: u32,
    count: u32,
) -> Result<Arc<DocSet>, NoMemory>
    requires most { size + count ≤ MAX_DOCS }
    requires within { (n : ℕ) → set.contains (arc_value live.now) n ≡ true → n < size }
    ensures { IfOk result (λ s. AddsNumbers (arc_value live.now) deleted.now size count (arc_value s)) }
{
    if count == 0 && deleted.len() == 0 {
        let same = Arc::clone(live)?;
        return Ok(same);
    }
    let all = with_numbers(alloc, live, deleted, size, count)?;
    let all = Arc::new(alloc, all)?;
    Ok(all)
}

// The live numbers without those of `deleted`, and with the `count` ones from `size` on.
fn with_numbers(
    alloc: Global,
    live: &DocSet,
    deleted: &DocSet,
    size: u32,
    count: u32,
) -> Result<DocSet, NoMemory>
    requires most { size + count ≤ MAX_DOCS }
    requires within { (n : ℕ) → set.contains live.now n ≡ true → n < size }
    ensures { IfOk result (λ s. AddsNumbers live.now deleted.now size count s) }
{
    let numbers = range(alloc, size, count)?;
    let Ok(fresh) = DocSet::from_sorted(alloc, numbers.as_slice()) else {
        return Err(NoMemory);
    };
    if deleted.len() == 0 {
        let all = either(alloc, live, &fresh)?;
        return Ok(all);
    }
    let Ok(kept) = live.minus(alloc, deleted) else {
        return Err(NoMemory);
    };
    let all = either(alloc, &kept, &fresh)?;
    Ok(all)
}

// The numbers that either set has.
fn either(alloc: Global, left: &DocSet, right: &DocSet) -> Result<DocSet, NoMemory>
    ensures { IfOk result (λ s. s ≡ set.union left.now right.now) }
{
    match left.or(alloc, right) {
        Ok(all) => Ok(all),
        Err(_) => Err(NoMemory),
    }
}

// The numbers that were gathered and that a set has too.
fn both(alloc: Global, found: Gathered, live: &DocSet) -> Result<DocSet, NoMemory>
    ensures { IfOk result (λ s. s ≡ set.intersection found live.now) }
{
    let Ok(all) = found.into_set(alloc) else {
        return Err(NoMemory);
    };
    match all.and(alloc, live) {
        Ok(alive) => Ok(alive),
        Err(_) => Err(NoMemory),
    }
}

// The `count` numbers from `first` on.
fn range(alloc: Global, first: u32, count: u32) -> Result<Vec<u32>, NoMemory>
    requires { first + count ≤ MAX_DOCS }
    ensures { IfOk result (λ v. v.items ≡ range_with_len first count) }
{
    let mut numbers = Vec::with_capacity(alloc, count as usize)?;
    for i in 0..count {
        numbers.push(first + i)?;
    }
    Ok(numbers)
}

// The same segments, shared, and one more where it holds documents.
fn with_part(
    alloc: Global,
    parts: &[Arc<Segment>],
    part: Segment,
) -> Result<Vec<Arc<Segment>>, NoMemory>
    requires { IsPart part }
    ensures { IfOk result (λ v. AddsPart (map arc_value parts.now) part.docs (map arc_value v.items)) }
{
    let mut all = shared(alloc, parts)?;
    if part.docs().is_empty() {
        return Ok(all);
    }
    all.push(Arc::new(alloc, part)?)?;
    Ok(all)
}

// How many documents segments hold.
fn count(parts: &[Arc<Segment>]) -> u32
    requires { length (all_docs (map arc_value parts.now)) ≤ MAX_DOCS }
    ensures { result ≡ length (all_docs (map arc_value parts.now)) }
{
    let mut total = 0;
    for part in parts {
        total += part.docs().len() as u32;
    }
    total
}

// The live documents of two neighbours as one segment, and how they take the places of all.
fn packed(
    alloc: Global,
    live: &Arc<DocSet>,
    parts: &[Arc<Segment>],
    at: usize,
) -> Result<(Packing, Segment), NoMemory>
    requires both { at + 1 < length parts.now }
    requires most { length (all_docs (map arc_value parts.now)) ≤ MAX_DOCS }
    ensures packs { IfOk result (λ r. Packs (arc_value live.now) (map arc_value parts.now) at r.1.docs r.0) }
    ensures lawful { IfOk result (λ r. IsPart r.1) }
{
    let (first, second) = (&parts[at], &parts[at + 1]);
    let start = count(&parts[..at]);
    let part = Segment::joined(alloc, first, second, live, start)?;
    let packing = Packing {
        start,
        count: (first.docs().len() + second.docs().len()) as u32,
        kept: part.docs().len() as u32,
    };
    Ok((packing, part))
}

// The same segments, two neighbours as the one that is made of them, where it holds documents.
fn merged(
    alloc: Global,
    parts: &[Arc<Segment>],
    at: usize,
    part: Segment,
) -> Result<Vec<Arc<Segment>>, NoMemory>
    requires both { at + 1 < length parts.now }
    requires lawful { IsPart part }
    ensures { IfOk result (λ v. Merges (map arc_value parts.now) at part.docs (map arc_value v.items)) }
{
    let mut all = with_part(alloc, &parts[..at], part)?;
    share(&mut all, &parts[at + 2..])?;
    Ok(all)
}

// Adds shared values behind others.
fn share<T: Drop>(all: &mut Vec<Arc<T>>, more: &[Arc<T>]) -> Result<(), NoMemory>
    ensures { OnOk result (map arc_value all.new.items ≡ map arc_value all.old.items ++ map arc_value more.now) }
{
    for one in more {
        all.push(Arc::clone(one)?)?;
    }
    Ok(())
}

// The same segments, shared.
fn shared(alloc: Global, parts: &[Arc<Segment>]) -> Result<Vec<Arc<Segment>>, NoMemory>
    ensures { IfOk result (λ v. map arc_value v.items ≡ map arc_value parts.now) }
{
    let mut shared = Vec::with_capacity(alloc, parts.len())?;
    for part in parts {
        shared.push(Arc::clone(part)?)?;
    }
    Ok(shared)
}
