ghost use Rattle.std.specs.Prelude.{◌≡◌, ◌≤◌, ◌<◌, IfOk, OnOk, OnErr, IsSome, None, option_map};
ghost use Rattle.std.specs.Option.{ForSome};
ghost use Rattle.std.specs.Arc.{arc_value};
ghost use Rattle.cache_machine.specs.Machine.{nothing_kept};
ghost use Rattle.document_cache.specs.Documents.{document_of, document_used, document_stored};

use crate::kept::Kept;
use cache_cells::Store;
use doc_model::Doc;
use doc_sets::DocNo;
use field_schema::NoMemory;
use std::alloc::Global;
use std::marker::Model;
use std::sync::Arc;

/// The document cache. Contracts see what the machine keeps: documents by their numbers, the most recently used first.
///
/// A call costs a step, and one for each document that it drops.
#[derive(Drop)]
pub struct DocCells {
    store: Store<u32, Kept>,
}

impl Model for DocCells {
    ghost use Rattle.std.specs.Prelude.{ℕ};
    ghost use Rattle.doc_model.specs.Document.{Document};
    ghost use Rattle.cache_machine.specs.Machine.{Kept};

    ghost Value = { Kept ℕ Document };

    ghost view = { λ c. c.store };
}

impl DocCells {
    /// A cache of at most `size` documents, which weigh at most `weight` together where it is there. It keeps nothing
    /// yet.
    ///
    /// A document weighs 1, and 1 for each of its values in all fields.
    pub fn new(alloc: Global, size: u32, weight: Option<u64>) -> Result<DocCells, NoMemory>
        requires size { (0 < size) × (size ≤ 4096) }
        requires weight { ForSome weight (λ most. 0 < most) }
        ensures { IfOk result (λ c. c ≡ nothing_kept size weight) }
    {
        let store = Store::new(alloc, size, weight)?;
        Ok(DocCells { store })
    }

    /// The document of the number, if it is kept. It is then the most recently used.
    ///
    /// Memory is wanting only where it was found and could not be handed out, and then nothing changed.
    pub fn look(&mut self, doc: DocNo) -> Result<Option<Arc<Doc>>, NoMemory>
        ensures value { IfOk result (λ v. option_map arc_value v ≡ document_of doc self.old) }
        ensures hit { IfOk result (λ v. IsSome v → self.new ≡ document_used doc self.old) }
        ensures missed { IfOk result (λ v. v ≡ None → self.new ≡ self.old) }
        ensures cause { OnErr result (IsSome (document_of doc self.old)) }
        ensures no_memory { OnErr result (self.new ≡ self.old) }
    {
        let Some(kept) = self.store.get(&doc, 0)? else {
            return Ok(None);
        };
        Ok(Some(kept.into_doc()))
    }

    /// Puts the document of the number first, in place of one with the number, unless it is heavier than the greatest
    /// weight.
    ///
    /// Where memory is wanting, nothing changed.
    pub fn put(&mut self, doc: DocNo, value: Arc<Doc>) -> Result<(), NoMemory>
        ensures after { OnOk result (self.new ≡ document_stored doc (arc_value value) self.old) }
        ensures no_memory { OnErr result (self.new ≡ self.old) }
    {
        self.store.store(doc, Kept { doc: value })?;
        Ok(())
    }
}
