//! Unions and intersections of many sets.
ghost use Rattle.std.specs.Prelude.{◌≡◌, ◌<◌, IfOk, length};
ghost use Rattle.std.specs.FinSet as set;
ghost use Rattle.query_eval.specs.Many.{IsUnion, IsCommon};

use doc_sets::DocSet;
use field_schema::NoMemory;
use std::alloc::Global;
use std::collections::VecDeque;

// The members that either set has.
pub(crate) fn either(alloc: Global, left: &DocSet, right: &DocSet) -> Result<DocSet, NoMemory>
    ensures { IfOk result (λ s. s ≡ set.union left.now right.now) }
{
    match left.or(alloc, right) {
        Ok(all) => Ok(all),
        Err(_) => Err(NoMemory),
    }
}

// The members that both sets have.
pub(crate) fn both(alloc: Global, left: &DocSet, right: &DocSet) -> Result<DocSet, NoMemory>
    ensures { IfOk result (λ s. s ≡ set.intersection left.now right.now) }
{
    match left.and(alloc, right) {
        Ok(all) => Ok(all),
        Err(_) => Err(NoMemory),
    }
}

// The members that the second set lacks.
pub(crate) fn without(alloc: Global, left: &DocSet, right: &DocSet) -> Result<DocSet, NoMemory>
    ensures { IfOk result (λ s. s ≡ set.difference left.now right.now) }
{
    match left.minus(alloc, right) {
        Ok(all) => Ok(all),
        Err(_) => Err(NoMemory),
    }
}

// The same set.
pub(crate) fn copy_of(alloc: Global, from: &DocSet) -> Result<DocSet, NoMemory>
    ensures { IfOk result (λ s. s ≡ from.now) }
{
    either(alloc, from, &DocSet::new(alloc))
}

// The members that some set has. Two at a time become one behind the others, so each member is copied as often as the
// logarithm of the number of sets.
pub(crate) fn united(alloc: Global, sets: Vec<DocSet>) -> Result<DocSet, NoMemory>
    ensures { IfOk result (λ s. IsUnion sets.items s) }
{
    let mut left = VecDeque::with_capacity(alloc, sets.len())?;
    for one in sets {
        left.push_back(one)?;
    }
    'joining: loop {
        let Some(first) = left.pop_front() else {
            return Ok(DocSet::new(alloc));
        };
        let Some(second) = left.pop_front() else {
            return Ok(first);
        };
        let all = either(alloc, &first, &second)?;
        left.push_back(all)?;
    }
}

// The place of a set with the fewest members.
fn smallest(sets: &[DocSet]) -> usize
    requires { 0 < length sets.now }
    ensures { result < length sets.now }
{
    let mut least = 0;
    for (i, one) in sets.iter().enumerate() {
        if one.len() < sets[least].len() {
            least = i;
        }
    }
    least
}

// The members that all sets have, from the smallest one on. There is at least one set.
pub(crate) fn common(alloc: Global, sets: &[DocSet]) -> Result<DocSet, NoMemory>
    requires { 0 < length sets.now }
    ensures { IfOk result (λ s. IsCommon sets.now s) }
{
    let least = smallest(sets);
    let mut found = copy_of(alloc, &sets[least])?;
    for one in sets {
        found = both(alloc, &found, one)?;
    }
    Ok(found)
}
