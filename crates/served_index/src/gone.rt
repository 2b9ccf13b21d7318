//! The documents of a view that are gone since it was opened.
ghost use Rattle.std.specs.Prelude.{◌≡◌, ℕ, ◌||◌, IfOk, OnOk};
ghost use Rattle.std.specs.FinSet as set;
ghost use Rattle.doc_sets.specs.Sets.{IsListing, is_in, members};
ghost use Rattle.segment_postings.specs.Numbered.{docs, IsNumbered};
ghost use Rattle.search_model.specs.Live.{has_id};
ghost use Rattle.served_index.specs.Standing.{AreBelow, HaveIds, is_under, matching, numbers_where};

use doc_sets::{DocNo, DocSet};
use field_schema::{FieldNo, Key, NoMemory, Text};
use query_eval::eval;
use query_tree::Query;
use segment_postings::{Probe, Reads, View};
use std::alloc::Global;

// The numbers of the documents of a view with a unique key, by its postings in the fields where unique keys stand. One may
// come more than once.
pub(crate) fn numbers_with_id(
    alloc: Global,
    view: &View,
    keys: &[FieldNo],
    id: &Text,
) -> Result<Vec<DocNo>, NoMemory>
    requires { HaveIds keys.now (docs view.now.seen) }
    ensures found { IfOk result (λ v. (n : ℕ) → is_in v.items n
        ≡ is_in (numbers_where (has_id id.now) view.now.seen.list) n) }
    ensures numbered { IfOk result (λ _. IsNumbered view.now.seen) }
{
    let mut found = Vec::new(alloc);
    let mut probe = Probe::new(view);
    if probe.live().len() == 0 {
        return Ok(found);
    }
    for key in keys {
        add_with_id(alloc, &mut found, &mut probe, *key, id)?;
    }
    Ok(found)
}

// Adds the numbers of the documents that have a unique key in a field.
fn add_with_id<P: Reads>(
    alloc: Global,
    found: &mut Vec<DocNo>,
    probe: &mut P,
    key: FieldNo,
    id: &Text,
) -> Result<(), NoMemory>
    requires { IsNumbered (P.view probe.old) }
    ensures found { OnOk result ((n : ℕ) → is_in found.new.items n ≡ (is_in found.old.items n
        || is_in (numbers_where (is_under key id.now) (P.view probe.old).list) n)) }
    ensures view { P.view probe.new ≡ P.view probe.old }
{
    let own = id.copy(alloc)?;
    let postings = probe.postings(alloc, key, &Key::Str(own))?;
    for posting in postings.as_slice() {
        let doc = probe.stored(posting.doc)?;
        if id == doc.id() {
            found.push(posting.doc)?;
        }
    }
    Ok(())
}

// The set of numbers that come in any order, and maybe more than once. It costs a sort of them.
pub(crate) fn set_of(alloc: Global, numbers: &[DocNo]) -> Result<DocSet, NoMemory>
    requires { AreBelow numbers.now }
    ensures { IfOk result (λ s. s ≡ set.from_list numbers.now) }
{
    let mut sorted = numbers.to_vec(alloc)?;
    sorted.sort_unstable();
    sorted.dedup();
    let Ok(all) = DocSet::from_sorted(alloc, sorted.as_slice()) else {
        return Err(NoMemory);
    };
    Ok(all)
}

// Numbers that are gone, with those of a set, ascending. It costs a sort of them, and a step for each of both.
pub(crate) fn all_gone(
    alloc: Global,
    gone: &[DocNo],
    found: &DocSet,
) -> Result<Vec<DocNo>, NoMemory>
    requires { AreBelow gone.now }
    ensures same { IfOk result (λ v. (n : ℕ) → is_in v.items n
        ≡ (is_in gone.now n || set.contains found.now n)) }
    ensures below { IfOk result (λ v. AreBelow v.items) }
{
    let before = set_of(alloc, gone)?;
    let Ok(all) = before.or(alloc, found) else {
        return Err(NoMemory);
    };
    let numbers = listed(alloc, &all)?;
    Ok(numbers)
}

// The members of a set, ascending.
fn listed(alloc: Global, all: &DocSet) -> Result<Vec<DocNo>, NoMemory>
    ensures members { IfOk result (λ v. v.items ≡ members all.now) }
    ensures listing { IfOk result (λ v. IsListing all.now v.items) }
{
    let mut numbers = Vec::with_capacity(alloc, all.len() as usize)?;
    for number in all.iter() {
        numbers.push(number)?;
    }
    Ok(numbers)
}

// The numbers of the documents of a view that a query matches.
pub(crate) fn matching_numbers(
    alloc: Global,
    view: &View,
    query: &Query,
) -> Result<DocSet, NoMemory>
    ensures found { IfOk result (λ s. s ≡ set.from_list (matching query.now view.now.seen)) }
    ensures numbered { IfOk result (λ _. IsNumbered view.now.seen) }
{
    let mut probe = Probe::new(view);
    if probe.live().len() == 0 {
        return Ok(DocSet::new(alloc));
    }
    eval(alloc, &mut probe, query)
}
