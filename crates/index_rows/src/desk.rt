//! The rows, each by its first word.
use crate::door::KeptDoor;
use crate::growing::Growing;
use crate::{asking, reading, serving};
use doc_model::Doc;
use doc_sets::DocSet;
use field_schema::{FieldNo, Key, Schema};
use query_text::{Op, read_sort};
use query_tree::Query;
use rt_edge::OpenGate;
use served_index::Index;
use sort_window::window;
use std::alloc::Global;
use std::sync::Wait;
use std::test::Fail;

// What the rows speak of: a schema, a view, an index, and a door to one of its searchers.
#[derive(Drop)]
pub(crate) struct Desk {
    alloc: Global,
    schema: Schema,
    growing: Growing,
    index: Index,
    door: Option<KeptDoor>,
}

impl Desk {
    pub(crate) fn new(alloc: Global, schema: &str) -> Result<Desk, Fail> {
        let schema = reading::schema(alloc, schema)?;
        let index = Index::new(alloc)?;
        Ok(Desk {
            alloc,
            schema,
            growing: Growing::new(alloc)?,
            index,
            door: None,
        })
    }

    // Does what a row says, and gives what stands behind it.
    pub(crate) fn take<R: Wait>(&mut self, rt: &R, row: &str) -> Result<String, Fail> {
        let (verb, rest) = reading::first_word(row);
        let mut told = String::new(self.alloc);
        if verb.is_empty() || verb == "#" || self.grow(verb, rest)? || self.update(verb, rest)? {
            return Ok(told);
        }
        told.push_str(" =>")?;
        match verb.as_bytes() {
            b"serve" => self.serve(rt, rest, false, &mut told)?,
            b"count" => self.serve(rt, rest, true, &mut told)?,
            _ => self.answer(rt, verb, rest, &mut told)?,
        }
        Ok(told)
    }

    // Whether a row is a step of the view, which is made.
    fn grow(&mut self, verb: &str, rest: &str) -> Result<bool, Fail> {
        let alloc = self.alloc;
        match verb.as_bytes() {
            b"view" => self.growing = Growing::new(alloc)?,
            b"doc" => {
                let doc = Doc::read(alloc, &self.schema, rest)?;
                self.growing.put(alloc, doc)?;
            }
            b"gone" => self.growing.drop_number(alloc, reading::doc_number(rest)?)?,
            b"segment" => self.growing.end_segment(alloc)?,
            b"merge" => self.growing.merge(alloc, rest.parse::<u32>()?)?,
            _ => return Ok(false),
        }
        Ok(true)
    }

    // Whether a row is a step of the index, which is made.
    fn update(&mut self, verb: &str, rest: &str) -> Result<bool, Fail> {
        let alloc = self.alloc;
        match verb.as_bytes() {
            b"index" => self.index = Index::new(alloc)?,
            b"add" => serving::add(alloc, &self.schema, &mut self.index, rest)?,
            b"delete" => self.index.delete_id(alloc, rest)?,
            b"delete_query" => {
                serving::delete_query(alloc, &self.schema, &mut self.index, rest)?;
            }
            b"commit" => serving::commit(alloc, &mut self.index)?,
            b"searcher" => self.door = Some(serving::searcher(alloc, &self.index, rest)?),
            _ => return Ok(false),
        }
        Ok(true)
    }

    // Adds the answer of a question.
    fn answer<R: Wait>(
        &self,
        rt: &R,
        verb: &str,
        rest: &str,
        told: &mut String,
    ) -> Result<(), Fail> {
        let (alloc, view) = (self.alloc, self.growing.view());
        match verb.as_bytes() {
            b"size" => asking::tell_view(alloc, view, told),
            b"live" => {
                let field = self.schema.field(rest).ok_or("no field")?;
                asking::tell_live(alloc, view, field, told)
            }
            b"postings" => {
                let (field, key) = self.key(rest)?;
                asking::tell_postings(alloc, view, field, &key, told)
            }
            b"terms" => {
                let (field, key) = self.key(rest)?;
                asking::tell_terms(alloc, view, field, &key, told)
            }
            b"or" => asking::tell_found(alloc, view, &self.query(Op::Or, rest)?, told),
            b"and" => asking::tell_found(alloc, view, &self.query(Op::And, rest)?, told),
            b"asks" => asking::tell_asked(alloc, view, &self.query(Op::Or, rest)?, told),
            b"first" => self.tell_first(rest, told),
            b"window" => tell_window(alloc, rest, told),
            b"page" => serving::tell_page(rt, alloc, &self.schema, &self.index, rest, told),
            _ => Err(Fail::new("no verb")),
        }
    }

    // Adds what the searcher of the kept door serves, and how often its view was read for it where that is wanted.
    fn serve<R: Wait>(
        &mut self,
        rt: &R,
        params: &str,
        counts_too: bool,
        told: &mut String,
    ) -> Result<(), Fail> {
        let request = reading::request(self.alloc, &self.schema, params)?;
        let door = self.door.as_mut().ok_or("no searcher")?;
        let (served, counts) = door.serve(rt, self.alloc, &request, &OpenGate, 1)?;
        serving::tell_served(self.alloc, &served, told)?;
        if counts_too {
            serving::tell_counts(self.alloc, counts, told)?;
        }
        Ok(())
    }

    fn query(&self, op: Op, text: &str) -> Result<Query, Fail> {
        reading::query(self.alloc, &self.schema, op, text)
    }

    // The field and the key that a query of one term or one word looks for.
    fn key(&self, text: &str) -> Result<(FieldNo, Key), Fail> {
        match self.query(Op::Or, text)? {
            Query::Term(field, key) => Ok((field, key)),
            Query::Words(field, words) => match words.into_vec().pop() {
                Some(word) => Ok((field, Key::Token(word))),
                None => Err(Fail::new("no word")),
            },
            _ => Err(Fail::new("no term")),
        }
    }

    // The row has how many are wanted, the number that is left out, and the sort.
    fn tell_first(&self, row: &str, told: &mut String) -> Result<(), Fail> {
        let alloc = self.alloc;
        let (count, rest) = reading::first_word(row);
        let (number, sort) = reading::first_word(rest);
        let left_out = DocSet::from_sorted(alloc, &[reading::doc_number(number)?])?;
        let sort = read_sort(alloc, &self.schema, sort)?;
        let count = u64::from(count.parse::<u32>()?);
        asking::tell_first(alloc, self.growing.view(), &sort, count, &left_out, told)
    }
}

// The row has the start and the rows of a page, and the size of a window.
fn tell_window(alloc: Global, row: &str, told: &mut String) -> Result<(), Fail> {
    let (start, rest) = reading::first_word(row);
    let (rows, size) = reading::first_word(rest);
    let size = size.parse::<u32>()?;
    if size == 0 {
        return Err(Fail::new("no size"));
    }
    let kept = window(start.parse::<u32>()?, rows.parse::<u32>()?, size);
    told.push_str(format!(in alloc; " {kept}")?.as_str())?;
    Ok(())
}
