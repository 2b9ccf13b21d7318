//! Sets as ascending lists.
ghost use Rattle.std.specs.Prelude.{◌≡◌, ℕ, ◌<◌, ◌≤◌, ◌&&◌, ◌||◌, not, IfOk, filter};
ghost use Rattle.doc_sets.specs.Sets.{is_in, Rises, IsAscending};
ghost use Rattle.doc_sets.specs.declared.TheConstants.{MAX_DOCS};

use crate::{DocNo, NoMemory};
use std::alloc::Global;

// Whether the ascending `numbers` have `number`. Takes the logarithm of their count.
pub fn has(numbers: &[DocNo], number: DocNo) -> bool
    requires { IsAscending numbers.now }
    ensures { result ≡ is_in numbers.now number }
{
    numbers.binary_search(&number).is_ok()
}

// What is left of the ascending `numbers` from `least` on.
fn from_number(numbers: &[DocNo], least: DocNo) -> &[DocNo]
    requires { IsAscending numbers.now }
    ensures rises { Rises least MAX_DOCS result.now }
    ensures same { (n : ℕ) → least ≤ n → is_in result.now n ≡ is_in numbers.now n }
{
    let mut rest = numbers;
    while let Some((&first, others)) = rest.split_first() {
        if first >= least {
            break;
        }
        rest = others;
    }
    rest
}

// Whether `number` is the first of `numbers`, none of which is below it.
fn starts_with(numbers: &[DocNo], number: DocNo) -> bool
    requires { Rises number MAX_DOCS numbers.now }
    ensures { result ≡ is_in numbers.now number }
{
    match numbers.first() {
        Some(&first) => first == number,
        None => false,
    }
}

// The numbers of `left` that `right` has too, in one walk along both.
pub fn common(alloc: Global, left: &[DocNo], right: &[DocNo]) -> Result<Vec<DocNo>, NoMemory>
    requires left { IsAscending left.now }
    requires right { IsAscending right.now }
    ensures { IfOk result (λ v. v.items ≡ filter (is_in right.now) left.now) }
{
    let mut kept = Vec::new(alloc);
    let mut rest = right;
    for &number in left {
        rest = from_number(rest, number);
        if starts_with(rest, number) {
            kept.push(number)?;
        }
    }
    Ok(kept)
}

// The numbers of `left` that `right` lacks, in one walk along both.
pub fn without(alloc: Global, left: &[DocNo], right: &[DocNo]) -> Result<Vec<DocNo>, NoMemory>
    requires left { IsAscending left.now }
    requires right { IsAscending right.now }
    ensures { IfOk result (λ v. v.items ≡ filter (λ n. not (is_in right.now n)) left.now) }
{
    let mut kept = Vec::new(alloc);
    let mut rest = right;
    for &number in left {
        rest = from_number(rest, number);
        if !starts_with(rest, number) {
            kept.push(number)?;
        }
    }
    Ok(kept)
}

// The numbers of either list, in one walk along both.
pub fn either(alloc: Global, left: &[DocNo], right: &[DocNo]) -> Result<Vec<DocNo>, NoMemory>
    requires left { IsAscending left.now }
    requires right { IsAscending right.now }
    ensures rises { IfOk result (λ v. IsAscending v.items) }
    ensures members { IfOk result (λ v. (n : ℕ) → is_in v.items n ≡ (is_in left.now n || is_in right.now n)) }
{
    let mut merged = Vec::new(alloc);
    let (mut left_rest, mut right_rest) = (left, right);
    while let (Some(&first), Some(&second)) = (left_rest.first(), right_rest.first()) {
        let least = first.min(second);
        merged.push(least)?;
        left_rest = from_number(left_rest, least + 1);
        right_rest = from_number(right_rest, least + 1);
    }
    merged.extend_from_slice(left_rest)?;
    merged.extend_from_slice(right_rest)?;
    Ok(merged)
}
