use field_schema::Text;
use search_model::{Note, Notes};
use std::marker::Model;

/// What a request asks for.
#[derive(Clone, Copy, Debug, PartialEq, Eq)]
pub enum Verb {
    Add,
    Delete,
    Query,
    Commit,
}

/// What a request was answered.
#[derive(Debug, Drop)]
pub struct RequestRow {
    pub client: u32,
    /// The line of the script, from 1.
    pub line: u32,
    pub verb: Verb,
    /// Its place in the journal, from 0.
    pub place: Option<u64>,
    /// The generation that it opened, or from which it was served.
    pub generation: Option<u32>,
    /// How often that generation had been acquired before.
    pub ticket: Option<u32>,
    /// The text of the reply, a JSON object.
    pub reply: Text,
    /// The status in the reply.
    pub code: u32,
    /// How many documents the reply says were found.
    pub found: u32,
    /// How many documents the reply has.
    pub docs: u32,
    /// What the cache of results did for a query that was answered.
    pub result: Option<Note>,
    /// What the cache of filters did for each filter of such a query.
    pub filters: Notes,
    /// How many documents of the reply the cache of documents gave.
    pub doc_hits: u32,
}

/// The rows of requests, in the order of the script. Contracts see them as a list of plain rows.
#[derive(Debug, Drop)]
pub struct RequestRows {
    rows: Vec<RequestRow>,
}

impl Model for RequestRows {
    ghost use Rattle.std.specs.Prelude.{List, map};
    ghost use Rattle.run_laws.specs.Rows.{RequestRow as Row};
    ghost use Rattle.client_runner.specs.Views.{request_view};

    ghost Value = { List Row };

    ghost view = { λ r. map request_view r.rows.items };
}

impl RequestRows {
    ghost use Rattle.std.specs.Prelude.{◌≡◌, map};
    ghost use Rattle.client_runner.specs.Views.{request_view};

    /// Wraps a vector, without memory.
    pub fn new(rows: Vec<RequestRow>) -> RequestRows
        ensures { result ≡ map request_view rows.items }
    {
        RequestRows { rows }
    }

    /// The rows, without memory.
    pub fn get(&self) -> &[RequestRow]
        ensures { map request_view result.now ≡ self.now }
    {
        self.rows.as_slice()
    }
}

/// The life of a searcher.
#[derive(Clone, Copy, Debug, PartialEq, Eq)]
pub struct SearcherRow {
    /// Counted from 1.
    pub generation: u32,
    /// The place of its opening.
    pub opened: u64,
    /// The place of its registration, or of its superseding.
    pub ended: u64,
    pub registered: bool,
    /// How often it was acquired.
    pub acquired: u32,
    /// The generation and the ticket from which it was warmed.
    pub from: Option<(u32, u32)>,
}

/// The rows of searchers, by generation. Contracts see them as a list of plain rows.
#[derive(Debug, Drop)]
pub struct SearcherList {
    rows: Vec<SearcherRow>,
}

impl Model for SearcherList {
    ghost use Rattle.std.specs.Prelude.{List, map};
    ghost use Rattle.run_laws.specs.Rows.{SearcherRow as Row};
    ghost use Rattle.client_runner.specs.Views.{searcher_view};

    ghost Value = { List Row };

    ghost view = { λ r. map searcher_view r.rows.items };
}

impl SearcherList {
    ghost use Rattle.std.specs.Prelude.{◌≡◌, map};
    ghost use Rattle.client_runner.specs.Views.{searcher_view};

    /// Wraps a vector, without memory.
    pub fn new(rows: Vec<SearcherRow>) -> SearcherList
        ensures { result ≡ map searcher_view rows.items }
    {
        SearcherList { rows }
    }

    /// The rows, without memory.
    pub fn get(&self) -> &[SearcherRow]
        ensures { map searcher_view result.now ≡ self.now }
    {
        self.rows.as_slice()
    }
}

/// What a run gives: a row a request and a row a searcher.
#[derive(Debug, Drop)]
pub struct Output {
    pub requests: RequestRows,
    pub searchers: SearcherList,
}
