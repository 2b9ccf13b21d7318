//! The documents that have a key of some.
ghost use Rattle.std.specs.Prelude.{◌≡◌};
ghost use Rattle.query_tree.specs.Matches.{has_key, has_prefix};
ghost use Rattle.segment_postings.specs.Numbered.{IsNumbered};
ghost use Rattle.segment_postings.specs.Postings.{has_key_at};
ghost use Rattle.segment_postings.specs.Spans.{is_within};
ghost use Rattle.segment_postings.specs.Terms.{raised};
ghost use Rattle.query_eval.specs.Found.{Finds};
ghost use Rattle.query_eval.specs.Kept.{Kept};

use crate::sets::either;
use doc_sets::DocSet;
use field_schema::{FieldNo, Key, NoMemory, Text};
use query_tree::End;
use segment_postings::{Reads, Span};
use std::alloc::Global;

// The documents that have a key in a field. It asks for the key's postings once.
pub(crate) fn term<P: Reads>(
    alloc: Global,
    probe: &mut P,
    field: FieldNo,
    key: &Key,
) -> Result<DocSet, NoMemory>
    requires { IsNumbered (P.view probe.old) }
    ensures found { Finds result (has_key_at field key.now) (P.view probe.old) }
    ensures kept { Kept P.view P.terms P.counted probe.old probe.new }
    ensures asked { (P.counted probe.new).postings ≡ raised (P.counted probe.old).postings }
{
    let found = probe.numbers(alloc, field, key)?;
    Ok(found)
}

// The documents that have a key between two ends.
pub(crate) fn between<P: Reads>(
    alloc: Global,
    probe: &mut P,
    field: FieldNo,
    low: &End,
    high: &End,
) -> Result<DocSet, NoMemory>
    requires { IsNumbered (P.view probe.old) }
    ensures found { Finds result (λ d. has_key d.values field (is_within low.now high.now)) (P.view probe.old) }
    ensures kept { Kept P.view P.terms P.counted probe.old probe.new }
{
    let found = probe.numbers_within(alloc, field, &Span::Between(low, high))?;
    Ok(found)
}

// The documents that have a string or a token that begins with a text.
pub(crate) fn beginning<P: Reads>(
    alloc: Global,
    probe: &mut P,
    field: FieldNo,
    prefix: &Text,
) -> Result<DocSet, NoMemory>
    requires { IsNumbered (P.view probe.old) }
    ensures found { Finds result (λ d. has_key d.values field (has_prefix prefix.now)) (P.view probe.old) }
    ensures kept { Kept P.view P.terms P.counted probe.old probe.new }
{
    let strings = probe.numbers_within(alloc, field, &Span::Strings(prefix))?;
    let tokens = probe.numbers_within(alloc, field, &Span::Tokens(prefix))?;
    either(alloc, &strings, &tokens)
}
