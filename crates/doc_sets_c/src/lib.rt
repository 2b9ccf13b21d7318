//! The sets for C: each call makes two sets and runs one operation on them several times, to be timed.
#![tactic(auto)]

ghost use Rattle.std.specs.Prelude.{◌<◌, All};
ghost use Rattle.std.specs.List.Sorted.{IsStrictlyIncreasing};

use doc_sets::{DocSet, NoMemory};
use std::alloc::Global;

/// The lengths of `times` results, summed, or 0 if memory was wanting.
///
/// `what` is 0 for the members of both sets, 1 for those of either and any other for those of the left
/// one that the right one lacks. C gives numbers that ascend strictly and are below 262,144.
#[unsafe(no_mangle)]
pub extern "C" fn doc_sets_repeat(
    alloc: Global,
    left: &[u32],
    right: &[u32],
    what: u32,
    times: u32,
) -> u64
    requires left_rising { IsStrictlyIncreasing left.now }
    requires left_documents { All (λ n. n < 262144) left.now }
    requires right_rising { IsStrictlyIncreasing right.now }
    requires right_documents { All (λ n. n < 262144) right.now }
{
    let first = DocSet::from_sorted(alloc, left);
    let second = DocSet::from_sorted(alloc, right);
    match (first, second) {
        (Ok(first), Ok(second)) => repeated(alloc, &first, &second, what, times),
        _ => 0,
    }
}

fn repeated(alloc: Global, first: &DocSet, second: &DocSet, what: u32, times: u32) -> u64 {
    let mut sum: u64 = 0;
    for _ in 0..times {
        sum = sum.wrapping_add(length(once(alloc, first, second, what)));
    }
    sum
}

fn once(alloc: Global, first: &DocSet, second: &DocSet, what: u32) -> Result<DocSet, NoMemory> {
    match what {
        0 => first.and(alloc, second),
        1 => first.or(alloc, second),
        _ => first.minus(alloc, second),
    }
}

fn length(set: Result<DocSet, NoMemory>) -> u64 {
    match set {
        Ok(set) => u64::from(set.len()),
        Err(_) => 0,
    }
}

/// The members of a set, summed `times` times, or 0 if memory was wanting.
///
/// C gives numbers that ascend strictly and are below 262,144.
#[unsafe(no_mangle)]
pub extern "C" fn doc_sets_walk(alloc: Global, numbers: &[u32], times: u32) -> u64
    requires rising { IsStrictlyIncreasing numbers.now }
    requires documents { All (λ n. n < 262144) numbers.now }
{
    match DocSet::from_sorted(alloc, numbers) {
        Ok(set) => walked(&set, times),
        Err(_) => 0,
    }
}

fn walked(set: &DocSet, times: u32) -> u64 {
    let mut sum: u64 = 0;
    for _ in 0..times {
        for number in set.iter() {
            sum = sum.wrapping_add(u64::from(number));
        }
    }
    sum
}
