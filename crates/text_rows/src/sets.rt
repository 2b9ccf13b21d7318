//! Sets of documents, told by runs of numbers.
ghost use Rattle.std.specs.Prelude.{◌<◌, IsTrue, All};
ghost use Rattle.std.specs.List.Sorted.{IsStrictlyIncreasing};
ghost use Rattle.doc_sets.specs.declared.TheConstants.{MAX_DOCS};

use crate::desk::Row;
use doc_sets::{DocList, DocNo, DocSet, MAX_DOCS};
use std::alloc::Global;
use std::test::Fail;

// The set that was told last.
#[derive(Drop)]
pub(crate) struct Sets {
    set: DocSet,
}

impl Sets {
    pub(crate) fn new(alloc: Global) -> Sets {
        Sets {
            set: DocSet::new(alloc),
        }
    }

    // What a row of these kinds is answered: the set that it makes, which then stands, or what the standing one takes.
    pub(crate) fn tell(&mut self, alloc: Global, row: Row<'_>) -> Result<Option<String>, Fail> {
        let next = match row.kind.as_bytes() {
            b"empty" => DocSet::new(alloc),
            b"set" => set_of(alloc, row.words)?,
            b"and" => self.set.and(alloc, &set_of(alloc, row.words)?)?,
            b"or" => self.set.or(alloc, &set_of(alloc, row.words)?)?,
            b"minus" => self.set.minus(alloc, &set_of(alloc, row.words)?)?,
            b"bytes" => return Ok(Some(self.tell_bytes(alloc, row.words)?)),
            b"list" => return Ok(Some(tell_list(alloc, row.words)?)),
            _ => return Ok(None),
        };
        let told = tell_set(alloc, &next)?;
        self.set = next;
        Ok(Some(told))
    }

    // How many bytes the set takes; or, where words give the bounds, whether these are so many.
    fn tell_bytes(&self, alloc: Global, words: &str) -> Result<String, Fail> {
        let bytes = self.set.ram_bytes_used();
        let Some((least, limit)) = words.split_once("..") else {
            return Ok(format!(in alloc; "{bytes}")?);
        };
        let within = least.parse::<usize>()? <= bytes && bytes < limit.parse::<usize>()?;
        Ok(format!(in alloc; "{within}")?)
    }
}

// Whether the numbers ascend strictly and are numbers of documents.
fn ascends(numbers: &[DocNo]) -> bool
    ensures rising { IsTrue result → IsStrictlyIncreasing numbers.now }
    ensures documents { IsTrue result → All (λ n. n < MAX_DOCS) numbers.now }
{
    let mut least = 0;
    for &number in numbers {
        if number < least || number >= MAX_DOCS {
            return false;
        }
        least = number + 1;
    }
    true
}

// The numbers that words stand for: `3` or, from 3 to 9, `3-9`.
fn numbers_of(alloc: Global, words: &str) -> Result<Vec<u32>, Fail> {
    let mut numbers = Vec::new(alloc);
    for word in words.split_whitespace() {
        let (first, last) = word.split_once('-').unwrap_or((word, word));
        for number in first.parse::<u32>()?..=last.parse::<u32>()? {
            numbers.push(number)?;
        }
    }
    Ok(numbers)
}

fn set_of(alloc: Global, words: &str) -> Result<DocSet, Fail> {
    let numbers = numbers_of(alloc, words)?;
    if ascends(numbers.as_slice()) {
        Ok(DocSet::from_sorted(alloc, numbers.as_slice())?)
    } else {
        Err(Fail::new("no ascending numbers"))
    }
}

fn tell_list(alloc: Global, words: &str) -> Result<String, Fail> {
    let list = DocList::new(numbers_of(alloc, words)?);
    Ok(format!(in alloc; "{:?}", list.get())?)
}

// Numbers that ascend, told by runs.
#[derive(Drop)]
struct Runs {
    told: String,
    run: Option<(DocNo, DocNo)>,
}

impl Runs {
    fn new(alloc: Global) -> Runs {
        Runs {
            told: String::new(alloc),
            run: None,
        }
    }

    // The next number.
    fn push(&mut self, alloc: Global, number: DocNo) -> Result<(), Fail> {
        match self.run {
            Some((first, last)) if number.checked_sub(1) == Some(last) => {
                self.run = Some((first, number));
            }
            _ => {
                self.close(alloc)?;
                self.run = Some((number, number));
            }
        }
        Ok(())
    }

    // Tells the run that has not been told.
    fn close(&mut self, alloc: Global) -> Result<(), Fail> {
        match self.run {
            Some((first, last)) if first == last => {
                self.told.push_str(format!(in alloc; " {first}")?.as_str())?;
            }
            Some((first, last)) => {
                self.told
                    .push_str(format!(in alloc; " {first}-{last}")?.as_str())?;
            }
            None => {}
        }
        self.run = None;
        Ok(())
    }
}

// How many members a set has and which; and which numbers it has by its own test, where these are others.
fn tell_set(alloc: Global, set: &DocSet) -> Result<String, Fail> {
    let mut members = Runs::new(alloc);
    for number in set.iter() {
        members.push(alloc, number)?;
    }
    members.close(alloc)?;
    let mut tested = Runs::new(alloc);
    for number in (0..MAX_DOCS + 2).chain([u32::MAX]) {
        if set.has(number) {
            tested.push(alloc, number)?;
        }
    }
    tested.close(alloc)?;
    let (count, members, tested) = (set.len(), members.told, tested.told);
    if members.as_str() == tested.as_str() {
        Ok(format!(in alloc; "{count}:{members}")?)
    } else {
        Ok(format!(in alloc; "{count}:{members}, but it has:{tested}")?)
    }
}
