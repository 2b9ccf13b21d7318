ghost use Rattle.std.specs.Prelude.{◌≡◌, ℕ, ◌≤◌, ◌++◌, List, IfOk, OnOk, Some, map};
ghost use Rattle.std.specs.FinSet as set;
ghost use Rattle.std.specs.Arc.{arc_value};
ghost use Rattle.std.specs.Option.{option_and_then};
ghost use Rattle.field_schema.specs.declared.key.Key.{Key};
ghost use Rattle.field_schema.specs.Keys.{key_eq};
ghost use Rattle.segment_postings.specs.declared.posting.Counts.{Counts};
ghost use Rattle.segment_postings.specs.Numbered.{Numbered, IsNumbered, IsLive, numbers, doc_at, sort_value};
ghost use Rattle.segment_postings.specs.Positions.{positions_of};
ghost use Rattle.segment_postings.specs.Postings.{postings_of};
ghost use Rattle.segment_postings.specs.Spans.{takes, numbers_within};
ghost use Rattle.segment_postings.specs.Terms.{AreTerms, terms_from, raised};

use crate::posting::{Counts, Position, Posting};
use crate::span::Span;
use doc_model::Doc;
use doc_sets::{DocNo, DocSet};
use field_schema::{FieldNo, Key, NoMemory};
use std::alloc::Global;
use std::sync::Arc;

/// What an evaluation reads of a view.
///
/// No call changes the view or its terms. `postings`, `numbers`, `add_positions`, `numbers_within` and `terms_from`
/// raise the first count by one, `value` the second and `stored` the third, also where memory is wanting; a count at its
/// greatest number stays.
pub trait Reads {
    /// The view that is read.
    ghost view: { Self → Numbered };

    /// The terms of each field. A term without a live document may be among them.
    ghost terms: { Self → ℕ → List Key };

    /// How often it was read.
    ghost counted: { Self → Counts };

    /// The numbers of the live documents. It costs nothing and raises no count.
    fn live(&self) -> &DocSet
        ensures numbers { result.now ≡ set.from_list (numbers (view self.now)) }
        ensures numbered { IsNumbered (view self.now) }
        ensures terms { AreTerms (view self.now) (terms self.now) };

    /// The three counts. It costs nothing and raises none.
    fn counts(&self) -> Counts
        ensures { result ≡ counted self.now };

    /// The live documents that have a key in a field, in the order of their numbers. For a token each comes with every
    /// place where it stands, for other keys with none. Fails only for want of memory.
    fn postings(
        &mut self,
        alloc: Global,
        field: FieldNo,
        key: &Key,
    ) -> Result<Vec<Posting>, NoMemory>
        ensures postings { IfOk result (λ p. p.items ≡ postings_of (view self.old) field key.now) }
        ensures view { view self.new ≡ view self.old }
        ensures terms { terms self.new ≡ terms self.old }
        ensures postings_count { (counted self.new).postings ≡ raised (counted self.old).postings }
        ensures values_count { (counted self.new).values ≡ (counted self.old).values }
        ensures stored_count { (counted self.new).stored ≡ (counted self.old).stored };

    /// The numbers of the live documents that have a key in a field. It asks for the key's postings, and makes none. Fails only
    /// for want of memory.
    ///
    /// It costs for each segment the logarithm of the number of the field's keys, and a step for each place of the key; and
    /// for each 64 numbers of the view where many of them are found, or else a sort of those that are.
    fn numbers(&mut self, alloc: Global, field: FieldNo, key: &Key) -> Result<DocSet, NoMemory>
        ensures numbers { IfOk result (λ s. s ≡ numbers_within (view self.old) field (key_eq key.now)) }
        ensures view { view self.new ≡ view self.old }
        ensures terms { terms self.new ≡ terms self.old }
        ensures postings_count { (counted self.new).postings ≡ raised (counted self.old).postings }
        ensures values_count { (counted self.new).values ≡ (counted self.old).values }
        ensures stored_count { (counted self.new).stored ≡ (counted self.old).stored };

    /// Adds where a key stands in a field of the live documents, ascending, behind others: what the postings of a token tell, in one
    /// row. Fails only for want of memory.
    ///
    /// It costs for each segment the logarithm of the number of the field's keys, and a step for each place of the key.
    fn add_positions(
        &mut self,
        found: &mut Vec<Position>,
        field: FieldNo,
        key: &Key,
    ) -> Result<(), NoMemory>
        ensures positions { OnOk result (found.new.items ≡
            found.old.items ++ positions_of (view self.old) field key.now) }
        ensures view { view self.new ≡ view self.old }
        ensures terms { terms self.new ≡ terms self.old }
        ensures postings_count { (counted self.new).postings ≡ raised (counted self.old).postings }
        ensures values_count { (counted self.new).values ≡ (counted self.old).values }
        ensures stored_count { (counted self.new).stored ≡ (counted self.old).stored };

    /// The numbers of the live documents that have a key in a field that a span takes. Fails only for want of memory.
    ///
    /// It costs for each segment the logarithm of the number of the field's keys, and a step for each place of the keys that
    /// the span takes; and for each 64 numbers of the view where many of them are found, or else a sort of those that are. No key is
    /// copied.
    fn numbers_within(
        &mut self,
        alloc: Global,
        field: FieldNo,
        span: &Span,
    ) -> Result<DocSet, NoMemory>
        ensures numbers { IfOk result (λ s. s ≡ numbers_within (view self.old) field (takes span.now)) }
        ensures view { view self.new ≡ view self.old }
        ensures terms { terms self.new ≡ terms self.old }
        ensures postings_count { (counted self.new).postings ≡ raised (counted self.old).postings }
        ensures values_count { (counted self.new).values ≡ (counted self.old).values }
        ensures stored_count { (counted self.new).stored ≡ (counted self.old).stored };

    /// The first of the field's terms at or after a key, ascending: `most` of them, or all if there are fewer.
    /// Fails only for want of memory.
    fn terms_from(
        &mut self,
        alloc: Global,
        field: FieldNo,
        from: &Key,
        most: u32,
    ) -> Result<Vec<Key>, NoMemory>
        requires { 1 ≤ most }
        ensures found { IfOk result (λ t. t.items ≡ terms_from (terms self.old field) from.now most) }
        ensures view { view self.new ≡ view self.old }
        ensures terms { terms self.new ≡ terms self.old }
        ensures postings_count { (counted self.new).postings ≡ raised (counted self.old).postings }
        ensures values_count { (counted self.new).values ≡ (counted self.old).values }
        ensures stored_count { (counted self.new).stored ≡ (counted self.old).stored };

    /// What a live document is sorted by in a field: the first of its values, if it has any. Fails only for want of
    /// memory.
    fn value(&mut self, alloc: Global, doc: DocNo, field: FieldNo) -> Result<Option<Key>, NoMemory>
        requires { IsLive (view self.old) doc }
        ensures first { IfOk result (λ k. option_and_then (λ d. sort_value d field) (doc_at (view self.old) doc) ≡ k) }
        ensures view { view self.new ≡ view self.old }
        ensures terms { terms self.new ≡ terms self.old }
        ensures postings_count { (counted self.new).postings ≡ (counted self.old).postings }
        ensures values_count { (counted self.new).values ≡ raised (counted self.old).values }
        ensures stored_count { (counted self.new).stored ≡ (counted self.old).stored };

    /// A live document. Fails only for want of memory.
    fn stored(&mut self, doc: DocNo) -> Result<Arc<Doc>, NoMemory>
        requires { IsLive (view self.old) doc }
        ensures stored { IfOk result (λ d. doc_at (view self.old) doc ≡ Some (arc_value d)) }
        ensures view { view self.new ≡ view self.old }
        ensures terms { terms self.new ≡ terms self.old }
        ensures postings_count { (counted self.new).postings ≡ (counted self.old).postings }
        ensures values_count { (counted self.new).values ≡ (counted self.old).values }
        ensures stored_count { (counted self.new).stored ≡ raised (counted self.old).stored };
}
