ghost use Rattle.std.specs.Prelude.{◌≡◌};
ghost use Rattle.segment_postings.specs.Views.{terms_of};

use crate::posting::{Counts, Position, Posting};
use crate::reads::Reads;
use crate::span::Span;
use crate::view::View;
use doc_model::Doc;
use doc_sets::{DocNo, DocSet};
use field_schema::{FieldNo, Key, NoMemory};
use std::alloc::Global;
use std::sync::Arc;

/// A view as it is read, with how often that was done.
#[derive(Drop)]
pub struct Probe<'a> {
    view: &'a View,
    counts: Counts,
}

impl<'a> Probe<'a> {
    /// A probe of a view, which was read no times. It costs nothing.
    pub fn new(view: &'a View) -> Probe<'a>
        ensures view { ⟦<Probe<'a> as Reads>⟧.view result ≡ view.now.seen }
        ensures terms { ⟦<Probe<'a> as Reads>⟧.terms result ≡ terms_of view.now.keys }
        ensures counts { ⟦<Probe<'a> as Reads>⟧.counted result ≡ record { postings = 0; values = 0; stored = 0 } }
    {
        let counts = Counts {
            postings: 0,
            values: 0,
            stored: 0,
        };
        Probe { view, counts }
    }
}

impl<'a> Reads for Probe<'a> {
    ghost view = { λ p. p.view.now.seen };

    ghost terms = { λ p. terms_of p.view.now.keys };

    ghost counted = { λ p. p.counts };

    fn live(&self) -> &DocSet {
        self.view.live()
    }

    fn counts(&self) -> Counts {
        self.counts
    }

    fn postings(
        &mut self,
        alloc: Global,
        field: FieldNo,
        key: &Key,
    ) -> Result<Vec<Posting>, NoMemory> {
        self.counts.postings = self.counts.postings.saturating_add(1);
        self.view.postings(alloc, field, key)
    }

    fn numbers(&mut self, alloc: Global, field: FieldNo, key: &Key) -> Result<DocSet, NoMemory> {
        self.counts.postings = self.counts.postings.saturating_add(1);
        self.view.numbers(alloc, field, key)
    }

    fn add_positions(
        &mut self,
        found: &mut Vec<Position>,
        field: FieldNo,
        key: &Key,
    ) -> Result<(), NoMemory> {
        self.counts.postings = self.counts.postings.saturating_add(1);
        self.view.add_positions(found, field, key)
    }

    fn numbers_within(
        &mut self,
        alloc: Global,
        field: FieldNo,
        span: &Span,
    ) -> Result<DocSet, NoMemory> {
        self.counts.postings = self.counts.postings.saturating_add(1);
        self.view.numbers_within(alloc, field, span)
    }

    fn terms_from(
        &mut self,
        alloc: Global,
        field: FieldNo,
        from: &Key,
        most: u32,
    ) -> Result<Vec<Key>, NoMemory> {
        self.counts.postings = self.counts.postings.saturating_add(1);
        self.view.terms_from(alloc, field, from, most)
    }

    fn value(
        &mut self,
        alloc: Global,
        doc: DocNo,
        field: FieldNo,
    ) -> Result<Option<Key>, NoMemory> {
        self.counts.values = self.counts.values.saturating_add(1);
        match self.view.doc(doc).values(field) {
            [first, ..] => {
                let key = first.copy(alloc)?;
                Ok(Some(key))
            }
            [] => Ok(None),
        }
    }

    fn stored(&mut self, doc: DocNo) -> Result<Arc<Doc>, NoMemory> {
        self.counts.stored = self.counts.stored.saturating_add(1);
        let shared = Arc::clone(self.view.doc(doc))?;
        Ok(shared)
    }
}
