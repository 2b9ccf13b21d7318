ghost use Rattle.std.specs.Prelude.{◌≡◌};
ghost use Rattle.std.specs.Arc.{arc_value};
ghost use Rattle.document_cache.specs.Documents.{document_weight, any_document};

use cache_cells::Value;
use doc_model::Doc;
use std::alloc::AllocError;
use std::marker::Model;
use std::sync::Arc;

// A shared document, seen as the document.
#[derive(Drop)]
pub(crate) struct Kept {
    pub(crate) doc: Arc<Doc>,
}

impl Model for Kept {
    ghost use Rattle.std.specs.Arc.{arc_value};
    ghost use Rattle.doc_model.specs.Document.{Document};

    ghost Value = { Document };

    ghost view = { λ k. arc_value k.doc };
}

impl Kept {
    pub(crate) fn into_doc(self) -> Arc<Doc>
        ensures { arc_value result ≡ self }
    {
        self.doc
    }
}

impl Value for Kept {
    ghost weight = { document_weight };

    ghost serves = { λ _. any_document };

    fn weight_within(&self, most: u64) -> Option<u64> {
        if most == 0 {
            return None;
        }
        match self.doc.count_within(most - 1) {
            Some(count) => Some(count + 1),
            None => None,
        }
    }

    fn serves(&self, _need: u64) -> bool {
        true
    }

    fn share(&self) -> Result<Kept, AllocError> {
        let doc = Arc::try_clone(&self.doc)?;
        Ok(Kept { doc })
    }
}
