//! Laws of printing: the text that a query prints as reads to it. Each function does nothing: its clause is
//! the law.
ghost use Rattle.std.specs.Prelude.{List};
ghost use Rattle.field_schema.specs.declared.field.Field.{Field};
ghost use Rattle.query_text.specs.PrintLaws.{AllPrintsBack, ExistsPrintsBack, PrefixPrintsBack, TermPrintsBack, WordsPrintBack};
ghost use Rattle.query_text.specs.Readable.{PrintedReadsBack, ReadIsReadable, ReadablePrintsBack};

/// `*:*` reads to the query that matches each document.
pub fn all()
    ensures { (fields : List Field) → AllPrintsBack fields }
{}

/// A name, a colon and `*` read to the documents with a value in the field.
pub fn exists()
    ensures { (fields : List Field) → ExistsPrintsBack fields }
{}

/// A quoted text of a field without tokens reads to its key, whatever characters it has.
pub fn term()
    ensures { (fields : List Field) → TermPrintsBack fields }
{}

/// A quoted text of tokens with a space between them reads to these tokens.
pub fn words()
    ensures { (fields : List Field) → WordsPrintBack fields }
{}

/// A text with `\` before each character that could mean something else, and before a word that is an operator,
/// and `*` behind it read to the prefix, whatever characters it has.
pub fn prefix()
    ensures { (fields : List Field) → PrefixPrintsBack fields }
{}

/// The printed text of a readable query reads to it with `Or`, whatever the default field, and under the limit
/// on clauses under which it is readable: terms, words, prefixes, ranges, `*` and Boolean queries of these, nested in
/// at most 64 pairs of parentheses.
pub fn readable()
    ensures { (fields : List Field) → ReadablePrintsBack fields }
{}

/// Each query that a text reads to is readable, whatever the operator, with an indexed default field or none, under
/// the limit on clauses under which it was read.
pub fn what_reads_is_readable()
    ensures { ReadIsReadable }
{}

/// The printed text of each query that a text reads to reads to it with `Or`, whatever the default field, under
/// the limit on clauses under which it was read. The operator and the local parameters of the first reading are free;
/// its default field is none or an indexed one.
pub fn printed_reads_back()
    ensures { PrintedReadsBack }
{}
