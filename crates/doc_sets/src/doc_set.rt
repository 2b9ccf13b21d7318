ghost use Rattle.std.specs.Prelude.{◌≡◌, ◌*◌, ◌<◌, ◌≤◌, nat_lt, IfOk, IsTrue, All, length, vec_len};
ghost use Rattle.std.specs.List.Sorted.{IsStrictlyIncreasing};
ghost use Rattle.std.specs.FinSet as set;
ghost use Rattle.doc_sets.specs.Sets.{AreDocuments, members, IsAscending, IsListing};
ghost use Rattle.doc_sets.specs.declared.TheConstants.{MAX_DOCS};
ghost use Rattle.doc_sets.specs.BitRows.{numbers_of};
ghost use Rattle.doc_sets.specs.Forms.{IsShortList, IsShortRow};

use crate::walk::DocSetIter;
use crate::{DocNo, NoMemory, bit_rows, listed};
use std::alloc::Global;
use std::marker::Model;

/// A set of document numbers, seen as a finite set of numbers below [`crate::MAX_DOCS`].
#[derive(Drop)]
pub struct DocSet {
    form: Form,
    // How many members there are.
    count: u32,
}

#[derive(Drop)]
pub(crate) enum Form {
    /// The members, ascending.
    Listed(Vec<DocNo>),
    /// A bit for each number, of which the lowest of the first word stands for 0.
    Bits(Vec<u64>),
}

impl Model for DocSet {
    ghost use Rattle.std.specs.Prelude.{◌≡◌, length};
    ghost use Rattle.std.specs.Ordering.{nat_cmp};
    ghost use Rattle.std.specs.FinSet as set;
    ghost use Rattle.std.specs.Coded.{coded_ℕ};

    ghost Value = { set.FinSet nat_cmp };

    ghost coded = { set.code coded_ℕ };

    ghost use Rattle.doc_sets.specs.Forms.{set_of, numbers_in, IsForm, IsSmaller};

    ghost view = { λ a. set_of a.form };

    ghost invariant = { λ a. IsForm a.form × (a.count ≡ length (numbers_in a.form)) × IsSmaller a.form };
}

impl DocSet {
    /// The empty set.
    pub fn new(alloc: Global) -> DocSet
        ensures { result ≡ set.empty }
    {
        DocSet {
            form: Form::Listed(Vec::new(alloc)),
            count: 0,
        }
    }

    /// The set of `numbers`, which ascend strictly and are below [`crate::MAX_DOCS`].
    ///
    /// Fails only for want of memory. Takes time in proportion to their count.
    pub fn from_sorted(alloc: Global, numbers: &[DocNo]) -> Result<DocSet, NoMemory>
        requires rising { IsStrictlyIncreasing numbers.now }
        requires documents { All (λ n. n < MAX_DOCS) numbers.now }
        ensures { IfOk result (λ s. s ≡ set.from_list numbers.now) }
    {
        if bits_are_smaller(numbers.len(), bit_rows::words_for(numbers)) {
            let words = bit_rows::row_of(alloc, numbers)?;
            Ok(of_row(words))
        } else {
            let numbers = numbers.to_vec(alloc)?;
            Ok(of_list(numbers))
        }
    }

    /// The members that both sets have.
    ///
    /// Fails only for want of memory. Takes time in proportion to the shorter list where one is a
    /// list and the other bits, to both lists, or to the words of both rows.
    pub fn and(&self, alloc: Global, other: &DocSet) -> Result<DocSet, NoMemory>
        ensures { IfOk result (λ s. s ≡ set.intersection self.now other.now) }
    {
        match (&self.form, &other.form) {
            (Form::Listed(left), Form::Listed(right)) => {
                settled_list(alloc, listed::common(alloc, left, right)?)
            }
            (Form::Listed(numbers), Form::Bits(words)) => {
                settled_list(alloc, bit_rows::common_of_list(alloc, numbers, words)?)
            }
            (Form::Bits(words), Form::Listed(numbers)) => {
                settled_list(alloc, bit_rows::common_of_list(alloc, numbers, words)?)
            }
            (Form::Bits(left), Form::Bits(right)) => {
                settled_row(alloc, bit_rows::common(alloc, left, right)?)
            }
        }
    }

    /// The members that either set has.
    ///
    /// Fails only for want of memory. Takes time in proportion to both lists, or to the words of a
    /// row that reaches the greatest member.
    pub fn or(&self, alloc: Global, other: &DocSet) -> Result<DocSet, NoMemory>
        ensures { IfOk result (λ s. s ≡ set.union self.now other.now) }
    {
        match (&self.form, &other.form) {
            (Form::Listed(left), Form::Listed(right)) => {
                settled_list(alloc, listed::either(alloc, left, right)?)
            }
            (Form::Listed(numbers), Form::Bits(words)) => {
                settled_row(alloc, bit_rows::with(alloc, words, numbers)?)
            }
            (Form::Bits(words), Form::Listed(numbers)) => {
                settled_row(alloc, bit_rows::with(alloc, words, numbers)?)
            }
            (Form::Bits(left), Form::Bits(right)) => {
                settled_row(alloc, bit_rows::either(alloc, left, right)?)
            }
        }
    }

    /// The members of this set that the other lacks.
    ///
    /// Fails only for want of memory. Takes time in proportion to this set's list, and the other's
    /// where it is a list too, or to the words of both rows.
    pub fn minus(&self, alloc: Global, other: &DocSet) -> Result<DocSet, NoMemory>
        ensures { IfOk result (λ s. s ≡ set.difference self.now other.now) }
    {
        match (&self.form, &other.form) {
            (Form::Listed(left), Form::Listed(right)) => {
                settled_list(alloc, listed::without(alloc, left, right)?)
            }
            (Form::Listed(numbers), Form::Bits(words)) => {
                settled_list(alloc, bit_rows::list_without(alloc, numbers, words)?)
            }
            (Form::Bits(words), Form::Listed(numbers)) => {
                settled_row(alloc, bit_rows::without_list(alloc, words, numbers)?)
            }
            (Form::Bits(left), Form::Bits(right)) => {
                settled_row(alloc, bit_rows::without(alloc, left, right)?)
            }
        }
    }

    /// How many members there are. Takes one step and no memory.
    pub fn len(&self) -> u32
        ensures count { result ≡ set.len self.now }
        ensures members { result ≡ length (members self.now) }
        ensures documents { AreDocuments self.now }
    {
        self.count
    }

    /// Whether `number` is a member. Takes one step for bits, the logarithm of the count for a list,
    /// and no memory.
    pub fn has(&self, number: DocNo) -> bool
        ensures member { result ≡ set.contains self.now number }
        ensures document { IsTrue result → number < MAX_DOCS }
    {
        match &self.form {
            Form::Listed(numbers) => listed::has(numbers, number),
            Form::Bits(words) => bit_rows::has(words, number),
        }
    }

    /// Walks along the members, ascending. Takes no memory, and skips empty words in one step each.
    pub fn iter(&self) -> DocSetIter<'_>
        ensures members { result ≡ members self.now }
        ensures listing { IsListing self.now (members self.now) }
    {
        match &self.form {
            Form::Listed(numbers) => DocSetIter::along_list(numbers),
            Form::Bits(words) => DocSetIter::along_row(words),
        }
    }

    /// How many bytes of the heap the members take: four for each in a list, or a bit for each number up to the greatest one.
    pub fn ram_bytes_used(&self) -> usize {
        match &self.form {
            Form::Listed(numbers) => numbers.capacity().saturating_mul(4),
            Form::Bits(words) => words.capacity().saturating_mul(8),
        }
    }
}

// Whether a list of `count` numbers of 32 bits is larger than a row of `words`.
fn bits_are_smaller(count: usize, words: usize) -> bool
    requires { words ≤ 4096 }
    ensures { result ≡ nat_lt (2 * words) count }
{
    count > 2 * words
}

// The set of ascending numbers, as a list.
fn of_list(numbers: Vec<DocNo>) -> DocSet
    requires rises { IsAscending numbers.items }
    requires short { IsShortList numbers.items }
    ensures { result ≡ set.from_list numbers.items }
{
    let count = numbers.len() as u32;
    DocSet {
        form: Form::Listed(numbers),
        count,
    }
}

// The set of a row, as bits.
fn of_row(words: Vec<u64>) -> DocSet
    requires few { vec_len words ≤ 4096 }
    requires short { IsShortRow words.items }
    ensures { result ≡ set.from_list (numbers_of words.items) }
{
    let count = bit_rows::count(&words);
    DocSet {
        form: Form::Bits(words),
        count,
    }
}

// The set of ascending numbers, in the smaller form.
pub(crate) fn settled_list(alloc: Global, numbers: Vec<DocNo>) -> Result<DocSet, NoMemory>
    requires { IsAscending numbers.items }
    ensures { IfOk result (λ s. s ≡ set.from_list numbers.items) }
{
    if bits_are_smaller(numbers.len(), bit_rows::words_for(&numbers)) {
        let words = bit_rows::row_of(alloc, &numbers)?;
        Ok(of_row(words))
    } else {
        Ok(of_list(numbers))
    }
}

// The set of a row, in the smaller form.
pub(crate) fn settled_row(alloc: Global, mut words: Vec<u64>) -> Result<DocSet, NoMemory>
    requires { vec_len words ≤ 4096 }
    ensures { IfOk result (λ s. s ≡ set.from_list (numbers_of words.items)) }
{
    bit_rows::trim(&mut words);
    let count = bit_rows::count(&words);
    if bits_are_smaller(count as usize, words.len()) {
        Ok(DocSet {
            form: Form::Bits(words),
            count,
        })
    } else {
        settled_list(alloc, bit_rows::listing(alloc, &words, count)?)
    }
}
