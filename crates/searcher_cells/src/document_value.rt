use crate::cell_view::CellView;
use cache_cells::Value;
use cache_traces::Counted;
use doc_model::Doc;
use shared_cells::Numbered;
use std::alloc::AllocError;
use std::marker::Model;
use std::sync::Arc;

/// A document of a view. Contracts see the document.
#[derive(Drop)]
pub struct DocumentValue {
    pub(crate) doc: Arc<Doc>,
}

impl Model for DocumentValue {
    ghost use Rattle.std.specs.Arc.{arc_value};
    ghost use Rattle.doc_model.specs.Document.{Document};

    ghost Value = { Document };

    ghost view = { λ k. arc_value k.doc };
}

impl DocumentValue {
    ghost use Rattle.std.specs.Prelude.{◌≡◌};
    ghost use Rattle.std.specs.Arc.{arc_value};

    /// The document, to be kept.
    pub fn new(doc: Arc<Doc>) -> DocumentValue
        ensures { result ≡ arc_value doc }
    {
        DocumentValue { doc }
    }

    /// The document itself.
    pub fn into_doc(self) -> Arc<Doc>
        ensures { arc_value result ≡ self }
    {
        self.doc
    }
}

impl Value for DocumentValue {
    ghost use Rattle.document_cache.specs.Documents.{document_weight, any_document};

    ghost weight = { document_weight };

    ghost serves = { λ _. any_document };

    fn weight_within(&self, most: u64) -> Option<u64> {
        if most == 0 {
            return None;
        }
        match self.doc.count_within(most - 1) {
            Some(count) => Some(count + 1),
            None => None,
        }
    }

    fn serves(&self, _need: u64) -> bool {
        true
    }

    fn share(&self) -> Result<DocumentValue, AllocError> {
        let doc = Arc::try_clone(&self.doc)?;
        Ok(DocumentValue { doc })
    }
}

impl Counted for DocumentValue {
    ghost use Rattle.searcher_cells.specs.Sights.{values_of, any_count};

    type Numbers = Option<u64>;

    ghost numbers = { λ _. values_of };

    ghost keeps = { any_count };

    fn numbers(&self, _most: u32) -> Option<u64> {
        match self.doc.count_within(u64::MAX) {
            Some(count) => Some(count),
            None => None,
        }
    }

    fn keeps(_of: &Option<u64>) -> bool {
        true
    }
}

impl Numbered for DocumentValue {
    ghost use Rattle.std.specs.Prelude.{None};
    ghost use Rattle.searcher_cells.specs.Sights.{DocumentFits};

    type View = CellView;

    ghost fits = { DocumentFits };

    ghost size = { λ v. v.size };

    ghost greatest = { λ _. None };
}
