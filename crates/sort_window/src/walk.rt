//! The first and the last numbers of a set.
ghost use Rattle.std.specs.Prelude.{◌≡◌, IfOk, take, reverse};
ghost use Rattle.doc_sets.specs.Sets.{members};

use doc_sets::{DocNo, DocSet};
use field_schema::NoMemory;
use std::alloc::Global;

// The first `most` members, ascending.
pub(crate) fn lowest(alloc: Global, set: &DocSet, most: usize) -> Result<Vec<DocNo>, NoMemory>
    ensures { IfOk result (λ v. v.items ≡ take most (members set.now)) }
{
    let mut numbers = Vec::with_capacity(alloc, most)?;
    for number in set.iter() {
        if numbers.len() == most {
            break;
        }
        numbers.push(number)?;
    }
    Ok(numbers)
}

// The last `most` members, descending. It costs a walk along the set.
pub(crate) fn highest(alloc: Global, set: &DocSet, most: usize) -> Result<Vec<DocNo>, NoMemory>
    ensures { IfOk result (λ v. v.items ≡ take most (reverse (members set.now))) }
{
    let mut before = (set.len() as usize).saturating_sub(most);
    let mut numbers = Vec::new(alloc);
    for number in set.iter() {
        if before > 0 {
            before -= 1;
        } else {
            numbers.push(number)?;
        }
    }
    numbers.reverse();
    Ok(numbers)
}
