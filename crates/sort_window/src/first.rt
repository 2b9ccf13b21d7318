//! The first documents of a set.
ghost use Rattle.std.specs.Prelude.{◌≡◌, IfOk};
ghost use Rattle.sort_window.specs.First.{AreLive, first_numbers};
ghost use Rattle.sort_window.specs.Marks.{index_first};

use crate::best::best_numbers;
use crate::walk::{highest, lowest};
use doc_sets::{DocList, DocSet};
use field_schema::NoMemory;
use query_tree::{Sort, SortBy, SortKey};
use segment_postings::Reads;
use std::alloc::Global;

/// The numbers of the first `n` of a set's live documents in the order of a sort, or of all if there are fewer.
///
/// Documents are compared by the keys in turn, of a field's values by the first one. A missing value stands below every
/// value, and a descending key turns its own comparison round. Documents that no key tells apart stand in index order.
///
/// Fails only for want of memory. The view and its terms stay as they are; neither postings nor a document is read.
///
/// Index order, rising, costs n, and falling a walk along the set; no value is read. Other sorts read a value for each
/// document and key, and take a step in a heap of n for each document.
pub fn first_n<P: Reads>(
    alloc: Global,
    probe: &mut P,
    set: &DocSet,
    sort: &Sort,
    n: u64,
) -> Result<DocList, NoMemory>
    requires live { AreLive set.now (P.view probe.old) }
    ensures first { IfOk result (λ l. l ≡ first_numbers n sort.now set.now (P.view probe.old)) }
    ensures view { P.view probe.new ≡ P.view probe.old }
    ensures terms { P.terms probe.new ≡ P.terms probe.old }
    ensures postings_count { (P.counted probe.new).postings ≡ (P.counted probe.old).postings }
    ensures stored_count { (P.counted probe.new).stored ≡ (P.counted probe.old).stored }
{
    // What is known of a view is known from here on: its documents' numbers ascend.
    let _live = probe.live();
    let most = n.min(u64::from(set.len())) as usize;
    let keys = sort.get();
    let numbers = match index_first(keys) {
        Some(false) => lowest(alloc, set, most)?,
        Some(true) => highest(alloc, set, most)?,
        None => best_numbers(alloc, probe, set, keys, most)?,
    };
    Ok(DocList::new(numbers))
}

// Whether the index order falls, where it is the first that tells.
fn index_first(keys: &[SortKey]) -> Option<bool>
    ensures { result ≡ index_first keys.now }
{
    match keys {
        [] => Some(false),
        [first, ..] => match first.by {
            SortBy::Field(_) => None,
            SortBy::DocId => Some(first.down),
        },
    }
}
