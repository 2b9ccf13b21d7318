//! The rows, each by its first word.
ghost use Rattle.std.specs.Prelude.{◌≤◌, ◌<◌};
ghost use Rattle.std.specs.Option.{ForSome};

use crate::results::{Results, key_of};
use crate::seats::{Call, Given, SEATS, make_call};
use cache_cells::Cells;
use doc_model::Doc;
use document_cache::DocCells;
use field_schema::Schema;
use filter_cache::FilterCells;
use result_cache::ResultCells;
use serde_json::Value;
use std::alloc::Global;
use std::sync::Arc;
use std::test::Fail;

// The cache that the rows speak of.
#[derive(Drop)]
enum Cache {
    Nothing,
    Numbers(Cells<u32, Given>),
    Filters(FilterCells),
    Results(Results),
    Documents(DocCells),
}

// That cache, and the schema of documents.
#[derive(Drop)]
pub(crate) struct Desk {
    alloc: Global,
    schema: Schema,
    cache: Cache,
}

fn first_word(text: &str) -> (&str, &str) {
    text.split_once(' ').unwrap_or((text, ""))
}

// How many entries a cache keeps, 1 to 4,096, and the greatest weight, if there is one, above 0.
#[derive(Clone, Copy)]
struct Bounds {
    size: u32,
    weight: Option<u64>,
    ghost few: { (0 < size) × (size ≤ 4096) },
    ghost some: { ForSome weight (λ most. 0 < most) },
}

fn read_bounds(text: &str) -> Result<Bounds, Fail> {
    let (size, weight) = first_word(text);
    let size = size.parse::<u32>()?;
    if size == 0 || size > 4096 {
        return Err(Fail::new("no size"));
    }
    if weight == "-" {
        return Ok(Bounds { size, weight: None });
    }
    let weight = weight.parse::<u64>()?;
    if weight == 0 {
        return Err(Fail::new("no weight"));
    }
    Ok(Bounds {
        size,
        weight: Some(weight),
    })
}

// The call of a row, behind the seat.
fn read_call(row: &str) -> Result<Call, Fail> {
    let (verb, rest) = first_word(row);
    let (number, last) = first_word(rest);
    if verb == "look" {
        let (key, need) = (number.parse::<u32>()?, last.parse::<u32>()?);
        Ok(Call::Look { key, need })
    } else if verb == "give" {
        Ok(Call::Give(Given {
            count: number.parse::<u32>()?,
            whole: last.contains("whole"),
            keep: !last.contains("unkept"),
        }))
    } else if verb == "leave" {
        Ok(Call::Leave)
    } else {
        Err(Fail::new("no call"))
    }
}

// The cache that a row makes.
fn new_cache(alloc: Global, verb: &str, row: &str) -> Result<Option<Cache>, Fail> {
    if verb == "numbers" {
        let Bounds { size, weight } = read_bounds(row)?;
        let cells = Cells::new(alloc, size, weight, SEATS)?;
        Ok(Some(Cache::Numbers(cells)))
    } else if verb == "filters" {
        let Bounds { size, weight } = read_bounds(row)?;
        let cells = FilterCells::new(alloc, size, weight, SEATS)?;
        Ok(Some(Cache::Filters(cells)))
    } else if verb == "results" {
        let (most, row) = first_word(row);
        let most = most.parse::<u32>()?;
        let Bounds { size, weight } = read_bounds(row)?;
        let cells = ResultCells::new(alloc, size, weight, SEATS)?;
        Ok(Some(Cache::Results(Results { cells, most })))
    } else if verb == "docs" {
        let Bounds { size, weight } = read_bounds(row)?;
        let cells = DocCells::new(alloc, size, weight)?;
        Ok(Some(Cache::Documents(cells)))
    } else {
        Ok(None)
    }
}

impl Desk {
    pub(crate) fn new(alloc: Global, schema: &str) -> Result<Desk, Fail> {
        let schema = Schema::read(alloc, &Value::from_str(alloc, schema)?)?;
        Ok(Desk {
            alloc,
            schema,
            cache: Cache::Nothing,
        })
    }

    // Does what a row says, and gives what stands behind it.
    pub(crate) fn take(&mut self, row: &str) -> Result<String, Fail> {
        let (verb, rest) = first_word(row);
        let mut told = String::new(self.alloc);
        if verb.is_empty() || verb == "#" || self.make(verb, rest)? {
            return Ok(told);
        }
        if verb == "put" {
            self.put(rest)?;
        } else if verb == "find" {
            self.find(rest.parse::<u32>()?, &mut told)?;
        } else if verb == "keys" {
            self.compare(rest, &mut told)?;
        } else {
            self.call(verb.parse::<u32>()?, read_call(rest)?, &mut told)?;
        }
        Ok(told)
    }

    // Whether a row makes a cache, which then stands.
    fn make(&mut self, verb: &str, row: &str) -> Result<bool, Fail> {
        match new_cache(self.alloc, verb, row)? {
            Some(cache) => {
                self.cache = cache;
                Ok(true)
            }
            None => Ok(false),
        }
    }

    fn call(&mut self, seat: u32, call: Call, told: &mut String) -> Result<(), Fail> {
        let alloc = self.alloc;
        match &mut self.cache {
            Cache::Numbers(cells) => make_call(alloc, cells, seat, call, told),
            Cache::Filters(cells) => make_call(alloc, cells, seat, call, told),
            Cache::Results(results) => make_call(alloc, results, seat, call, told),
            Cache::Nothing | Cache::Documents(_) => Err(Fail::new("no seats")),
        }
    }

    // The row has a number, and a document that is put under it.
    fn put(&mut self, row: &str) -> Result<(), Fail> {
        let (number, body) = first_word(row);
        let doc = Arc::new(self.alloc, Doc::read(self.alloc, &self.schema, body)?)?;
        match &mut self.cache {
            Cache::Documents(cells) => Ok(cells.put(number.parse::<u32>()?, doc)?),
            _ => Err(Fail::new("no documents")),
        }
    }

    // Adds how many values the document of a number has, or that there is none.
    fn find(&mut self, number: u32, told: &mut String) -> Result<(), Fail> {
        let Cache::Documents(cells) = &mut self.cache else {
            return Err(Fail::new("no documents"));
        };
        match cells.look(number)? {
            Some(doc) => {
                let count = doc.count_within(100).unwrap_or(100);
                told.push_str(format!(in self.alloc; " => {count}")?.as_str())?;
            }
            None => told.push_str(" => none")?,
        }
        Ok(())
    }

    // Adds whether a query has one key with filters of these numbers and with those behind a bar.
    fn compare(&self, row: &str, told: &mut String) -> Result<(), Fail> {
        let (left, right) = row.split_once('|').ok_or("no bar")?;
        let key = key_of(self.alloc, 0, numbers(self.alloc, left)?.as_slice())?;
        let other = key_of(self.alloc, 0, numbers(self.alloc, right)?.as_slice())?;
        told.push_str(if key == other {
            " => equal"
        } else {
            " => different"
        })?;
        Ok(())
    }
}

fn numbers(alloc: Global, text: &str) -> Result<Vec<u32>, Fail> {
    let mut numbers = Vec::new(alloc);
    for number in text.split_whitespace() {
        numbers.push(number.parse::<u32>()?)?;
    }
    Ok(numbers)
}
