//! What stays of segments that are merged: their live documents, with numbers one after another.
ghost use Rattle.std.specs.Prelude.{◌≡◌, ℕ, ◌+◌, ◌-◌, ◌<◌, ◌≤◌, ◌∷◌, [], ◌++◌, true, IfOk, OnOk, map, filter, length, if◌then◌else◌};
ghost use Rattle.std.specs.Arc.{arc_value};
ghost use Rattle.std.specs.FinSet as set;
ghost use Rattle.std.specs.List.{range_with_len};
ghost use Rattle.doc_sets.specs.declared.TheConstants.{MAX_DOCS};
ghost use Rattle.segment_postings.specs.Views.{live_from, is_moved, Moves, IsPacking};

use doc_model::Doc;
use doc_sets::{DocNo, DocSet, MAX_DOCS};
use field_schema::NoMemory;
use std::alloc::Global;
use std::sync::Arc;

/// So many documents, all live, in place of those from a number on.
#[derive(Clone, Copy, Debug)]
pub(crate) struct Packing {
    pub start: u32,
    pub count: u32,
    pub kept: u32,
}

/// Adds the live ones of documents of which the first has the number `base`, shared. It costs their number.
pub(crate) fn add_live(
    all: &mut Vec<Arc<Doc>>,
    live: &DocSet,
    base: DocNo,
    docs: &[Arc<Doc>],
) -> Result<(), NoMemory>
    requires { base + length docs.now ≤ MAX_DOCS }
    ensures { OnOk result (map arc_value all.new.items ≡
        map arc_value all.old.items ++ live_from live.now base (map arc_value docs.now)) }
{
    let mut number = base;
    for doc in docs {
        add_where(all, live.has(number), doc)?;
        number += 1;
    }
    Ok(())
}

// Adds a document, shared, where it is wanted.
fn add_where(all: &mut Vec<Arc<Doc>>, wanted: bool, doc: &Arc<Doc>) -> Result<(), NoMemory>
    ensures { OnOk result (map arc_value all.new.items ≡
        map arc_value all.old.items ++ (if wanted then arc_value doc.now ∷ [] else [])) }
{
    if wanted {
        all.push(Arc::clone(doc)?)?;
    }
    Ok(())
}

/// The live numbers below `size` as documents are packed: the same set, shared, where all of them stay.
///
/// It costs a step for each of the numbers where a document goes.
pub(crate) fn moved(
    alloc: Global,
    live: &Arc<DocSet>,
    size: u32,
    packing: Packing,
) -> Result<Arc<DocSet>, NoMemory>
    requires { IsPacking (arc_value live.now) size packing }
    ensures { IfOk result (λ s. Moves (arc_value live.now) packing (arc_value s)) }
{
    if packing.kept == packing.count {
        let same = Arc::clone(live)?;
        return Ok(same);
    }
    let numbers = moved_numbers(alloc, live, size, packing)?;
    let Ok(all) = DocSet::from_sorted(alloc, numbers.as_slice()) else {
        return Err(NoMemory);
    };
    let all = Arc::new(alloc, all)?;
    Ok(all)
}

// The live numbers as documents are packed, ascending.
fn moved_numbers(
    alloc: Global,
    live: &DocSet,
    size: u32,
    packing: Packing,
) -> Result<Vec<u32>, NoMemory>
    requires { IsPacking live.now size packing }
    ensures { IfOk result (λ v. v.items ≡ filter (is_moved live.now packing)
        (range_with_len 0 (size - (packing.count - packing.kept)))) }
{
    let mut numbers = Vec::new(alloc);
    let left = size - (packing.count - packing.kept);
    for number in 0..left {
        let wanted = is_moved(live, packing, number);
        add_number(&mut numbers, wanted, number)?;
    }
    Ok(numbers)
}

// Whether a number is live as documents are packed.
fn is_moved(live: &DocSet, packing: Packing, number: u32) -> bool
    requires most { number + (packing.count - packing.kept) < MAX_DOCS }
    requires start { packing.start + packing.count ≤ MAX_DOCS }
    requires few { packing.kept ≤ packing.count }
    ensures { result ≡ is_moved live.now packing number }
{
    if number < packing.start {
        return live.has(number);
    }
    if number < packing.start + packing.kept {
        return true;
    }
    live.has(number + (packing.count - packing.kept))
}

// Adds a number where it is wanted.
fn add_number(numbers: &mut Vec<u32>, wanted: bool, number: u32) -> Result<(), NoMemory>
    ensures { OnOk result (numbers.new.items ≡
        numbers.old.items ++ (if wanted then number ∷ [] else [])) }
{
    if wanted {
        numbers.push(number)?;
    }
    Ok(())
}
