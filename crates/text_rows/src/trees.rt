//! Queries and sorts as they are built, in their order.
use crate::desk::{Row, first_word};
use field_schema::{Key, NoMemory, Text, Texts};
use query_tree::{End, Queries, Query, Sort, SortBy, SortKey};
use sqlite_items::Items;
use std::alloc::Global;
use std::cmp::Ordering;
use std::hash::{DefaultHasher, Hash, Hasher};
use std::test::Fail;

// The queries and the sorts so far.
#[derive(Drop)]
pub(crate) struct Trees {
    queries: Vec<Query>,
    sorts: Vec<Sort>,
}

impl Trees {
    pub(crate) fn new(alloc: Global) -> Trees {
        Trees {
            queries: Vec::new(alloc),
            sorts: Vec::new(alloc),
        }
    }

    // What a row of these kinds is answered.
    pub(crate) fn tell(&mut self, alloc: Global, row: Row<'_>) -> Result<Option<String>, Fail> {
        Ok(Some(match row.kind.as_bytes() {
            b"tree" => self.tell_query(alloc, read_query(alloc, row.words)?)?,
            b"keyed" => self.tell_sort(alloc, read_sort(alloc, row.words)?)?,
            b"inside" => self.tell_inside(alloc)?,
            _ => return Ok(None),
        }))
    }

    // How a query stands to each so far, and to its copy. It then is one of them.
    fn tell_query(&mut self, alloc: Global, query: Query) -> Result<String, Fail> {
        let mut told = signs(alloc, &query, self.queries.as_slice())?;
        told.push(sign(&query, &query.copy(alloc)?))?;
        self.queries.push(query)?;
        Ok(told)
    }

    // The same for a sort.
    fn tell_sort(&mut self, alloc: Global, sort: Sort) -> Result<String, Fail> {
        let mut told = signs(alloc, &sort, self.sorts.as_slice())?;
        told.push(sign(&sort, &sort.copy(alloc)?))?;
        self.sorts.push(sort)?;
        Ok(told)
    }

    // What stands inside a copy of the last query, and in how many Boolean ones.
    fn tell_inside(&self, alloc: Global) -> Result<String, Fail> {
        let copy = self.queries.last().ok_or("no query")?.copy(alloc)?;
        let mut rest = &copy;
        let mut levels: u32 = 0;
        for _ in 0..100 {
            if let Some(part) = inside(rest) {
                rest = part;
                levels = levels.saturating_add(1);
            }
        }
        Ok(format!(in alloc; "{levels} {rest:?}")?)
    }
}

fn hash_of<T: Hash>(value: &T) -> u64 {
    let mut state = DefaultHasher::new();
    value.hash(&mut state);
    state.finish()
}

// How a value stands to another: its sign, or `?` where comparisons, equality and hashes do not agree.
fn sign<T: Ord + Hash>(value: &T, other: &T) -> char {
    let order = value.cmp(other);
    let equal = order == Ordering::Equal;
    let compared = value.partial_cmp(other) == Some(order) && other.cmp(value) == order.reverse();
    let told_equal = (value == other) == equal && (hash_of(value) == hash_of(other)) == equal;
    match order {
        _ if !compared || !told_equal => '?',
        Ordering::Less => '<',
        Ordering::Equal => '=',
        Ordering::Greater => '>',
    }
}

// How a value stands to each of others.
fn signs<T: Ord + Hash>(alloc: Global, value: &T, others: &[T]) -> Result<String, Fail> {
    let mut told = String::new(alloc);
    for other in others {
        told.push(sign(value, other))?;
    }
    Ok(told)
}

// A query by its kind: all, exists FIELD, term FIELD KEY, words FIELD TOKEN.., prefix FIELD TEXT, range FIELD LOW HIGH,
// bool MUST SHOULD NOT, deep NUMBER.
fn read_query(alloc: Global, words: &str) -> Result<Query, Fail> {
    let (kind, rest) = first_word(words);
    let (first, others) = first_word(rest);
    match kind.as_bytes() {
        b"all" => Ok(Query::All),
        b"bool" => read_bool(alloc, first, others),
        b"deep" => Ok(deep(alloc, first.parse::<i64>()?)?),
        _ => read_of_field(alloc, kind, first.parse::<u32>()?, others),
    }
}

fn read_of_field(alloc: Global, kind: &str, field: u32, rest: &str) -> Result<Query, Fail> {
    match kind.as_bytes() {
        b"exists" => Ok(Query::Exists(field)),
        b"term" => Ok(Query::Term(field, read_key(alloc, rest)?)),
        b"words" => {
            let mut tokens = Vec::new(alloc);
            for token in rest.split_whitespace() {
                tokens.push(Text::from_str(alloc, token)?)?;
            }
            Ok(Query::Words(field, Texts::new(tokens)))
        }
        b"prefix" => Ok(Query::Prefix(field, Text::from_str(alloc, rest)?)),
        b"range" => {
            let (low, high) = first_word(rest);
            Ok(Query::Range(field, read_end(low)?, read_end(high)?))
        }
        _ => Err(Fail::new("no query")),
    }
}

// A key: str TEXT, long NUMBER, bool TRUTH.
fn read_key(alloc: Global, words: &str) -> Result<Key, Fail> {
    let (kind, value) = first_word(words);
    match kind.as_bytes() {
        b"str" => Ok(Key::Str(Text::from_str(alloc, value)?)),
        b"long" => Ok(Key::Long(value.parse::<i64>()?)),
        b"bool" => Ok(Key::Bool(value == "true")),
        _ => Err(Fail::new("no key")),
    }
}

// An end of a range: `*` where it is open, `2` where it is included, and `<2` where it is not.
fn read_end(word: &str) -> Result<End, Fail> {
    if word == "*" {
        return Ok(End::Open);
    }
    let (inclusive, number) = match word.strip_prefix('<') {
        Some(number) => (false, number),
        None => (true, word),
    };
    let key = Key::Long(number.parse::<i64>()?);
    Ok(End::At { key, inclusive })
}

// The parts of a Boolean query: a letter each, `a` for any document and `k` for those with a key in field 0; `-` for none.
fn parts(alloc: Global, letters: &str) -> Result<Queries, NoMemory> {
    let mut items = Items::new(alloc);
    for letter in letters.chars() {
        match letter {
            'a' => items.push(Query::All)?,
            'k' => items.push(Query::Exists(0))?,
            _ => {}
        }
    }
    Ok(items)
}

fn read_bool(alloc: Global, must: &str, rest: &str) -> Result<Query, Fail> {
    let (should, not) = first_word(rest);
    Ok(Query::Bool {
        must: parts(alloc, must)?,
        should: parts(alloc, should)?,
        not: parts(alloc, not)?,
    })
}

// The query inside a Boolean one, as a required, an optional or a prohibited part.
fn around(alloc: Global, query: Query, place: usize) -> Result<Query, NoMemory> {
    let mut inner = Items::new(alloc);
    inner.push(query)?;
    let one = parts(alloc, "a")?;
    let none = Items::new(alloc);
    let (must, should, not) = match place {
        0 => (inner, one, none),
        1 => (none, inner, one),
        _ => (one, none, inner),
    };
    Ok(Query::Bool { must, should, not })
}

// A query of a number inside 65 Boolean ones.
fn deep(alloc: Global, number: i64) -> Result<Query, NoMemory> {
    let mut query = Query::Term(0, Key::Long(number));
    for level in 0..65usize {
        query = around(alloc, query, level % 3)?;
    }
    Ok(query)
}

// The first part of a Boolean query that asks for more than any document.
fn inside(query: &Query) -> Option<&Query> {
    let Query::Bool { must, should, not } = query else {
        return None;
    };
    for parts in [must, should, not] {
        for part in parts.as_slice() {
            if *part != Query::All {
                return Some(part);
            }
        }
    }
    None
}

// A sort: behind each of its fields, or `index`, the way.
fn read_sort(alloc: Global, words: &str) -> Result<Sort, Fail> {
    let mut keys = Vec::new(alloc);
    let mut rest = words;
    for _ in 0..words.len() {
        if rest.is_empty() {
            break;
        }
        let (by, others) = first_word(rest);
        let (way, behind) = first_word(others);
        let by = match by.as_bytes() {
            b"index" => SortBy::DocId,
            _ => SortBy::Field(by.parse::<u32>()?),
        };
        keys.push(SortKey {
            by,
            down: way == "down",
        })?;
        rest = behind;
    }
    Ok(Sort::new(keys))
}
