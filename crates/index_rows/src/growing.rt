//! A view that grows by segments.
ghost use Rattle.std.specs.Prelude.{◌<◌};
ghost use Rattle.doc_sets.specs.declared.TheConstants.{MAX_DOCS};

use doc_model::Doc;
use doc_sets::{DocNo, DocSet};
use segment_postings::View;
use std::alloc::Global;
use std::mem;
use std::sync::Arc;
use std::test::Fail;

// A view, and what its next segment adds and takes away.
#[derive(Drop)]
pub(crate) struct Growing {
    view: View,
    next: Vec<Arc<Doc>>,
    gone: DocSet,
}

impl Growing {
    pub(crate) fn new(alloc: Global) -> Result<Growing, Fail> {
        Ok(Growing {
            view: View::empty(alloc)?,
            next: Vec::new(alloc),
            gone: DocSet::new(alloc),
        })
    }

    pub(crate) fn view(&self) -> &View {
        &self.view
    }

    // A document of the next segment.
    pub(crate) fn put(&mut self, alloc: Global, doc: Doc) -> Result<(), Fail> {
        let doc = Arc::new(alloc, doc)?;
        self.next.push(doc)?;
        Ok(())
    }

    // The document of a number goes with the next segment.
    pub(crate) fn drop_number(&mut self, alloc: Global, number: DocNo) -> Result<(), Fail>
        requires { number < MAX_DOCS }
    {
        let one = DocSet::from_sorted(alloc, &[number])?;
        self.gone = self.gone.or(alloc, &one)?;
        Ok(())
    }

    // The next segment stands.
    pub(crate) fn end_segment(&mut self, alloc: Global) -> Result<(), Fail> {
        let next = mem::replace(&mut self.next, Vec::new(alloc));
        let gone = mem::replace(&mut self.gone, DocSet::new(alloc));
        self.view = extended(alloc, &self.view, next, &gone)?;
        Ok(())
    }

    // Two neighbours are one segment.
    pub(crate) fn merge(&mut self, alloc: Global, at: u32) -> Result<(), Fail> {
        if at < 100 && at + 1 < self.view.segments() {
            self.view = self.view.merge(alloc, at)?;
            Ok(())
        } else {
            Err(Fail::new("no two segments"))
        }
    }
}

fn extended(alloc: Global, view: &View, next: Vec<Arc<Doc>>, gone: &DocSet) -> Result<View, Fail> {
    if next.len() <= 1000 && view.size() <= 1000 {
        Ok(view.extend(alloc, next, gone)?)
    } else {
        Err(Fail::new("no room"))
    }
}
