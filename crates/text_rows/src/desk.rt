//! The rows, each by its first word.
use crate::documents::Documents;
use crate::marks::{marked, text_of};
use crate::sets::Sets;
use crate::trees::Trees;
use crate::{queries, requests, scripts, streams};
use std::alloc::Global;
use std::test::Fail;

// What the rows speak of.
#[derive(Drop)]
pub(crate) struct Desk {
    alloc: Global,
    documents: Documents,
    sets: Sets,
    trees: Trees,
    front: String,
}

// A row's parts: its kind, the words behind it, and the text between `«` and `»`.
#[derive(Clone, Copy)]
pub(crate) struct Row<'a> {
    pub(crate) kind: &'a str,
    pub(crate) words: &'a str,
    pub(crate) text: &'a str,
}

// The first word of a text, and what stands behind the space behind it.
pub(crate) fn first_word(text: &str) -> (&str, &str) {
    text.split_once(' ').unwrap_or((text, ""))
}

fn parts(row: &str) -> Row<'_> {
    let (head, rest) = row.split_once('«').unwrap_or((row, ""));
    let (kind, words) = first_word(head);
    let (text, _) = rest.split_once('»').unwrap_or((rest, ""));
    Row { kind, words, text }
}

impl Desk {
    pub(crate) fn new(alloc: Global) -> Result<Desk, Fail> {
        Ok(Desk {
            alloc,
            documents: Documents::new(alloc)?,
            sets: Sets::new(alloc),
            trees: Trees::new(alloc),
            front: String::new(alloc),
        })
    }

    // Does what a row says, and gives what stands behind it.
    pub(crate) fn take(&mut self, row: &str) -> Result<String, Fail> {
        let alloc = self.alloc;
        let row = parts(row);
        if row.kind.is_empty() || row.kind == "#" {
            return Ok(String::new(alloc));
        }
        if row.kind == "front" {
            self.front = text_of(alloc, row.text)?;
            return Ok(String::new(alloc));
        }
        let told = marked(alloc, self.answer(row)?.as_str())?;
        if told.is_empty() {
            return Ok(String::from_str(alloc, " =>")?);
        }
        Ok(format!(in alloc; " => {told}")?)
    }

    // What a row's call gave.
    fn answer(&mut self, row: Row<'_>) -> Result<String, Fail> {
        let alloc = self.alloc;
        if let Some(told) = streams::tell(alloc, row)? {
            return Ok(told);
        }
        if let Some(told) = self.documents.tell(alloc, row)? {
            return Ok(told);
        }
        if let Some(told) = self.sets.tell(alloc, row)? {
            return Ok(told);
        }
        if let Some(told) = self.trees.tell(alloc, row)? {
            return Ok(told);
        }
        let schema = self.documents.schema();
        if let Some(told) = queries::tell(alloc, schema, row)? {
            return Ok(told);
        }
        if let Some(told) = requests::tell(alloc, schema, row)? {
            return Ok(told);
        }
        match scripts::tell(alloc, self.front.as_str(), row)? {
            Some(told) => Ok(told),
            None => Err(Fail::new("no kind")),
        }
    }
}
