//! What the definitions of documents say of each other. Each function does nothing: its clause is the law.
ghost use Rattle.doc_model.specs.DocLaws.{ShownReadsAgain};

/// Where each field is stored, the JSON that a document shows of all its fields reads to the same document.
pub fn shown_reads_again()
    ensures { ShownReadsAgain }
{}
