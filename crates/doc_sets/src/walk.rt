//! Walks along a set's members, ascending.
ghost use Rattle.std.specs.Prelude.{◌≡◌, ◌≤◌, length};
ghost use Rattle.std.specs.Iterator.{YieldsFirst, item_count};
ghost use Rattle.doc_sets.specs.BitRows.{numbers_of};

use crate::DocNo;
use crate::bit_rows::WORD_BITS;
use std::marker::Model;

/// The numbers of a row whose bits are set, seen as the list of those that are left.
#[derive(Drop)]
pub struct RowIter<'a> {
    // What the lowest bit of `word` stands for.
    base: u32,
    // The bits that are left of the current word.
    word: u64,
    // The words after it.
    words: &'a [u64],
}

impl<'a> Model for RowIter<'a> {
    ghost use Rattle.std.specs.Prelude.{List, ℕ, ◌+◌, ◌*◌, ◌≤◌, length};
    ghost use Rattle.doc_sets.specs.Left.{numbers_left};

    ghost Value = { List ℕ };

    ghost view = { λ it. numbers_left it.base it.word it.words.now };

    ghost invariant = { λ it. it.base + 64 * length it.words.now ≤ 262144 };
}

impl<'a> RowIter<'a> {
    /// Walks along the whole row.
    pub fn new(words: &'a [u64]) -> RowIter<'a>
        requires { length words.now ≤ 4096 }
        ensures { result ≡ numbers_of words.now }
    {
        match words.split_first() {
            Some((&word, words)) => RowIter {
                base: 0,
                word,
                words,
            },
            None => RowIter {
                base: 0,
                word: 0,
                words,
            },
        }
    }
}

impl<'a> Iterator for RowIter<'a> {
    type Item = DocNo;

    ghost next_gives = { YieldsFirst (λ left. left) };

    ghost remaining = { item_count (λ left. left) };

    fn next(&mut self) -> Option<DocNo> {
        while self.word == 0 {
            let (&word, words) = self.words.split_first()?;
            self.base += WORD_BITS;
            self.word = word;
            self.words = words;
        }
        let place = self.word.trailing_zeros();
        self.word &= self.word - 1;
        Some(self.base + place)
    }
}

/// The members of a set, ascending, seen as the list of those that are left.
#[derive(Drop)]
pub struct DocSetIter<'a> {
    walk: Walk<'a>,
}

#[derive(Drop)]
pub(crate) enum Walk<'a> {
    Listed(&'a [DocNo]),
    Bits(RowIter<'a>),
}

impl<'a> Model for DocSetIter<'a> {
    ghost use Rattle.std.specs.Prelude.{List, ℕ};

    ghost Value = { List ℕ };

    ghost use Rattle.doc_sets.specs.Walks.{walk_left};

    ghost view = { λ it. walk_left it.walk };
}

impl<'a> DocSetIter<'a> {
    // Walks along an ascending list.
    pub(crate) fn along_list(numbers: &'a [DocNo]) -> DocSetIter<'a>
        ensures { result ≡ numbers.now }
    {
        DocSetIter {
            walk: Walk::Listed(numbers),
        }
    }

    // Walks along a row.
    pub(crate) fn along_row(words: &'a [u64]) -> DocSetIter<'a>
        requires { length words.now ≤ 4096 }
        ensures { result ≡ numbers_of words.now }
    {
        DocSetIter {
            walk: Walk::Bits(RowIter::new(words)),
        }
    }
}

impl<'a> Iterator for DocSetIter<'a> {
    type Item = DocNo;

    ghost next_gives = { YieldsFirst (λ left. left) };

    ghost remaining = { item_count (λ left. left) };

    fn next(&mut self) -> Option<DocNo> {
        match &mut self.walk {
            Walk::Listed(numbers) => {
                let (&first, others) = numbers.split_first()?;
                *numbers = others;
                Some(first)
            }
            Walk::Bits(row) => row.next(),
        }
    }
}
