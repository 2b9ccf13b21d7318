//! Segments.
ghost use Rattle.std.specs.Prelude.{◌≡◌, ℕ, ◌+◌, ◌<◌, ◌≤◌, ◌++◌, [], IfOk, OnOk, All, not, map, filter, fold, take, length};
ghost use Rattle.std.specs.Arc.{arc_value};
ghost use Rattle.std.specs.FinSet as set;
ghost use Rattle.field_schema.specs.Keys.{key_eq};
ghost use Rattle.field_schema.specs.Values.{values_at};
ghost use Rattle.doc_sets.specs.declared.TheConstants.{MAX_DOCS};
ghost use Rattle.segment_postings.specs.Positions.{positions_among};
ghost use Rattle.segment_postings.specs.Postings.{postings_among};
ghost use Rattle.segment_postings.specs.Segments.{IsPart, AreIndexes, field_at, with_key};
ghost use Rattle.segment_postings.specs.Spans.{takes, numbers_among};
ghost use Rattle.segment_postings.specs.Terms.{Ascending, is_before, put_key};
ghost use Rattle.segment_postings.specs.Groups.{EndsBefore};
ghost use Rattle.segment_postings.specs.Views.{live_from};
ghost use Rattle.segment_postings.specs.Renumbering.{AreJoined};

use crate::gathering::{add_numbers, add_positions, gather};
use crate::laid::Laid;
use crate::occurrence::{Place, index};
use crate::packing::add_live;
use crate::posting::{Position, Posting};
use crate::renumbering::moves;
use crate::span::Span;
use doc_model::Doc;
use doc_sets::{DocNo, DocSet, Gathered, MAX_DOCS};
use field_schema::{FieldNo, Key, NoMemory};
use std::alloc::Global;
use std::marker::Model;
use std::sync::Arc;

/// Documents in their order, with the keys of each field and their places.
#[derive(Debug, Drop)]
pub(crate) struct Segment {
    docs: Vec<Arc<Doc>>,
    fields: Vec<Laid>,
}

impl Model for Segment {
    ghost use Rattle.std.specs.Prelude.{map, length, ◌≤◌};
    ghost use Rattle.std.specs.Arc.{arc_value};
    ghost use Rattle.doc_sets.specs.declared.TheConstants.{MAX_DOCS};
    ghost use Rattle.segment_postings.specs.Segments.{Part, AreIndexes};

    ghost Value = { Part };

    ghost view = { λ s. record {
      docs = map arc_value s.docs.items;
      keys = map (map (λ o. o.key)) s.fields.items;
    } };

    ghost invariant = { λ s. (length s.docs.items ≤ MAX_DOCS)
        × AreIndexes (map arc_value s.docs.items) s.fields.items };
}

impl Segment {
    /// The segment of some documents. It costs a pass over them and a sort of each field's keys.
    pub fn new(alloc: Global, docs: Vec<Arc<Doc>>) -> Result<Segment, NoMemory>
        requires { length docs.items ≤ MAX_DOCS }
        ensures docs { IfOk result (λ s. s.docs ≡ map arc_value docs.items) }
        ensures lawful { IfOk result IsPart }
    {
        let fields = index_all(alloc, docs.as_slice())?;
        Ok(Segment { docs, fields })
    }

    /// The live documents of two neighbouring segments, of which the first document has the number `start`, as one segment.
    ///
    /// It costs a pass over their documents, keys and places, and a copy of each key.
    pub fn joined(
        alloc: Global,
        first: &Segment,
        second: &Segment,
        live: &DocSet,
        start: DocNo,
    ) -> Result<Segment, NoMemory>
        requires { start + (length first.now.docs + length second.now.docs) ≤ MAX_DOCS }
        ensures docs { IfOk result (λ s. s.docs ≡ live_from live.now start (first.now.docs ++ second.now.docs)) }
        ensures lawful { IfOk result IsPart }
    {
        let (one, other) = (first.docs.as_slice(), second.docs.as_slice());
        let (count, more) = (one.len() as u32, other.len() as u32);
        let behind = start + count;
        let mut docs = Vec::new(alloc);
        add_live(&mut docs, live, start, one)?;
        let one_moves = moves(alloc, live, start, 0, count)?;
        let other_moves = moves(alloc, live, behind, docs.len() as u32, more)?;
        add_live(&mut docs, live, behind, other)?;
        let fields = join_all(
            alloc,
            first.fields.as_slice(),
            one_moves.as_slice(),
            second.fields.as_slice(),
            other_moves.as_slice(),
        )?;
        Ok(Segment { docs, fields })
    }

    /// The documents, in their order.
    pub fn docs(&self) -> &[Arc<Doc>]
        ensures docs { map arc_value result.now ≡ self.now.docs }
        ensures most { length result.now ≤ MAX_DOCS }
    {
        self.docs.as_slice()
    }

    /// Adds what is told of the live documents with a key, of which the first has the number `base`.
    ///
    /// It costs the logarithm of the number of the field's keys, and the key's places.
    pub fn add_postings(
        &self,
        alloc: Global,
        found: &mut Vec<Posting>,
        live: &DocSet,
        base: DocNo,
        field: FieldNo,
        key: &Key,
    ) -> Result<(), NoMemory>
        requires most { base + length self.now.docs ≤ MAX_DOCS }
        requires before { EndsBefore base found.old.items }
        ensures found { OnOk result (found.new.items ≡ found.old.items
            ++ postings_among live.now base field key.now self.now.docs) }
    {
        let places = places_in(self.fields.as_slice(), field, key);
        gather(alloc, found, live, base, key, places)?;
        Ok(())
    }

    /// Adds the numbers of the documents with a key, deleted ones too, of which the first document has the number `base` and all are
    /// below `end`.
    ///
    /// It costs the logarithm of the number of the field's keys, and the key's places.
    pub fn add_numbers(
        &self,
        alloc: Global,
        found: &mut Gathered,
        base: DocNo,
        end: u32,
        field: FieldNo,
        key: &Key,
    ) -> Result<(), NoMemory>
        requires most { end ≤ MAX_DOCS }
        requires documents { base + length self.now.docs ≤ MAX_DOCS }
        ensures { OnOk result (found.new ≡ set.union found.old
            (numbers_among base field (key_eq key.now) self.now.docs)) }
    {
        let places = places_in(self.fields.as_slice(), field, key);
        add_numbers(alloc, found, base, end, places)?;
        Ok(())
    }

    /// Adds the positions of a key in the live documents, of which the first document has the number `base`.
    ///
    /// It costs the logarithm of the number of the field's keys, and the key's places.
    pub fn add_positions(
        &self,
        found: &mut Vec<Position>,
        live: &DocSet,
        base: DocNo,
        field: FieldNo,
        key: &Key,
    ) -> Result<(), NoMemory>
        requires { base + length self.now.docs ≤ MAX_DOCS }
        ensures { OnOk result (found.new.items ≡
            found.old.items ++ positions_among live.now base field key.now self.now.docs) }
    {
        let places = places_in(self.fields.as_slice(), field, key);
        add_positions(found, live, base, places)?;
        Ok(())
    }

    /// Adds the numbers of the documents with a key that a span takes, deleted ones too, of which the first document has the number
    /// `base` and all are below `end`.
    ///
    /// It costs the logarithm of the number of the field's keys, and the places of those that the span takes.
    pub fn add_numbers_within(
        &self,
        alloc: Global,
        found: &mut Gathered,
        base: DocNo,
        end: u32,
        field: FieldNo,
        span: &Span,
    ) -> Result<(), NoMemory>
        requires most { end ≤ MAX_DOCS }
        requires documents { base + length self.now.docs ≤ MAX_DOCS }
        ensures { OnOk result (found.new ≡ set.union found.old
            (numbers_among base field (takes span.now) self.now.docs)) }
    {
        let places = places_within(self.fields.as_slice(), field, span);
        add_numbers(alloc, found, base, end, places)?;
        Ok(())
    }

    /// Puts the field's keys at or after a key among ascending ones, and keeps the first `most` of all.
    ///
    /// It costs the logarithm of the number of the field's keys, and those that come among the first.
    pub fn add_terms(
        &self,
        alloc: Global,
        found: &mut Vec<Key>,
        field: FieldNo,
        from: &Key,
        most: usize,
    ) -> Result<(), NoMemory>
        requires ascending { Ascending found.old.items }
        requires few { length found.old.items ≤ most }
        ensures found { OnOk result (found.new.items ≡ take most
            (fold put_key found.old.items (filter (λ k. not (is_before k from.now)) (values_at self.now.keys field)))) }
        ensures ascending { OnOk result (Ascending found.new.items) }
        ensures few { OnOk result (length found.new.items ≤ most) }
    {
        match self.fields.as_slice().get(field as usize) {
            Some(laid) => {
                laid.add_terms(alloc, found, from, most)?;
                Ok(())
            }
            None => Ok(()),
        }
    }
}

// The places of a key in a field, none past the last field.
fn places_in<'a>(fields: &'a [Laid], field: FieldNo, key: &Key) -> &'a [Place]
    ensures { result.now ≡ map (λ o. o.place) (with_key key.now (field_at fields.now field)) }
{
    match fields.get(field as usize) {
        Some(laid) => laid.places(key),
        None => &[],
    }
}

// The places of the keys in a field that a span takes, none past the last field.
fn places_within<'a>(fields: &'a [Laid], field: FieldNo, span: &Span) -> &'a [Place]
    ensures { result.now ≡ map (λ o. o.place) (filter (λ o. takes span.now o.key) (field_at fields.now field)) }
{
    match fields.get(field as usize) {
        Some(laid) => laid.places_within(span),
        None => &[],
    }
}

// The keys of each field, with their places.
fn index_all(alloc: Global, docs: &[Arc<Doc>]) -> Result<Vec<Laid>, NoMemory>
    requires { length docs.now ≤ MAX_DOCS }
    ensures { IfOk result (λ fs. AreIndexes (map arc_value docs.now) fs.items) }
{
    let Ok(width) = u32::try_from(widest(docs)) else {
        return Err(NoMemory);
    };
    let mut fields = Vec::with_capacity(alloc, width as usize)?;
    for field in 0..width {
        fields.push(index(alloc, docs, field)?)?;
    }
    Ok(fields)
}

// The keys of each field of two segments, of which the documents get new numbers, as those of one.
fn join_all(
    alloc: Global,
    first: &[Laid],
    first_moves: &[Option<u32>],
    second: &[Laid],
    second_moves: &[Option<u32>],
) -> Result<Vec<Laid>, NoMemory>
    ensures { IfOk result (λ fs. AreJoined first.now first_moves.now second.now second_moves.now fs.items) }
{
    let none = Laid::empty(alloc);
    let width = first.len().max(second.len());
    let mut fields = Vec::with_capacity(alloc, width)?;
    for field in 0..width {
        let one = laid_at(first, field, &none);
        let other = laid_at(second, field, &none);
        fields.push(Laid::joined(alloc, one, first_moves, other, second_moves)?)?;
    }
    Ok(fields)
}

// The keys of a field, `none` past the last one.
fn laid_at<'a>(fields: &'a [Laid], field: usize, none: &'a Laid) -> &'a Laid
    requires { none.now ≡ [] }
    ensures { result.now ≡ field_at fields.now field }
{
    match fields.get(field) {
        Some(laid) => laid,
        None => none,
    }
}

// How many fields the documents have at most.
fn widest(docs: &[Arc<Doc>]) -> usize
    ensures { All (λ d. length d.values ≤ result) (map arc_value docs.now) }
{
    let mut width = 0;
    for doc in docs {
        width = doc.width().max(width);
    }
    width
}
