// The clauses of a query, and of the queries that it stands in.
ghost use Rattle.std.specs.Prelude.{◌≡◌, ◌∷◌, ◌++◌, [], IfOk, OnOk, MatchOption, length};
ghost use Rattle.query_text.specs.Levels.{field_for, is_explicit, is_here, begins, is_between, joins, top, inside, put};

use crate::op::Op;
use field_schema::{FieldNo, NoMemory};
use query_tree::Query;
use std::alloc::Global;
use std::marker::Model;

/// What a modifier makes of its clause.
#[derive(Clone, Copy, Debug, PartialEq, Eq)]
pub(crate) enum Sign {
    Required,
    Prohibited,
}

/// What the next value is asked of.
#[derive(Clone, Copy, Debug, PartialEq, Eq)]
pub(crate) enum Target {
    /// The field of the query that it stands in.
    Here,
    /// Any field, behind `*:`.
    Every,
    /// A field that was named, where there is one of the name.
    To(Option<FieldNo>),
}

/// A clause that was read.
#[derive(Debug, Drop)]
pub(crate) struct Clause {
    /// The conjunction before it.
    pub(crate) before: Option<Op>,
    pub(crate) sign: Option<Sign>,
    pub(crate) query: Query,
}

/// Clauses in their order.
#[derive(Debug, Drop)]
pub(crate) struct Clauses {
    items: Vec<Clause>,
}

impl Model for Clauses {
    ghost use Rattle.std.specs.Prelude.{List};
    ghost use Rattle.query_text.specs.declared.level.Clause.{Clause};

    ghost Value = { List Clause };

    ghost use Rattle.query_tree.specs.contracts.query.Query as query_facts;
    ghost use Rattle.std.specs.Coded.{codes};

    ghost view = { λ c. c.items.items };

    ghost coded = { Prim.hlevel (codes, query_facts.the_row.coded) };
}

impl Clauses {
    pub(crate) fn new(alloc: Global) -> Clauses
        ensures { result ≡ [] }
    {
        Clauses {
            items: Vec::new(alloc),
        }
    }

    pub(crate) fn len(&self) -> usize
        ensures { result ≡ length self.now }
    {
        self.items.len()
    }

    pub(crate) fn push(&mut self, clause: Clause) -> Result<(), NoMemory>
        ensures { OnOk result (self.new ≡ self.old ++ clause ∷ []) }
    {
        self.items.push(clause)?;
        Ok(())
    }

    pub(crate) fn pop(&mut self) -> Option<Clause>
        ensures { MatchOption result ((self.old ≡ []) × (self.new ≡ []))
            (λ c. self.old ≡ self.new ++ c ∷ []) }
    {
        self.items.pop()
    }
}

/// A query that is being read: its clauses so far and what stands before the next one.
#[derive(Debug, Drop)]
pub(crate) struct Level {
    /// The field of values without one of their own.
    pub(crate) field: Option<FieldNo>,
    /// Whether a name stands before the query.
    pub(crate) named: bool,
    pub(crate) clauses: Clauses,
    pub(crate) conj: Option<Op>,
    pub(crate) sign: Option<Sign>,
    pub(crate) target: Target,
}

impl Level {
    // The field of the next value.
    pub(crate) fn field_for(&self) -> Option<FieldNo>
        ensures { result ≡ field_for self.now }
    {
        match self.target {
            Target::Here => self.field,
            Target::Every => None,
            Target::To(field) => field,
        }
    }

    // Whether a name stands before the next value, or before a query that it is in.
    pub(crate) fn is_explicit(&self) -> bool
        ensures { result ≡ is_explicit self.now }
    {
        match self.target {
            Target::Here => self.named,
            Target::Every | Target::To(_) => true,
        }
    }

    pub(crate) fn is_here(&self) -> bool
        ensures { result ≡ is_here self.now }
    {
        match self.target {
            Target::Here => true,
            Target::Every | Target::To(_) => false,
        }
    }

    // Whether what comes next is the first of a clause.
    pub(crate) fn begins(&self) -> bool
        ensures { result ≡ begins self.now }
    {
        self.is_here() && self.sign.is_none()
    }

    // Whether nothing stands before the next clause.
    pub(crate) fn is_between(&self) -> bool
        ensures { result ≡ is_between self.now }
    {
        self.begins() && self.conj.is_none()
    }

    // Whether a conjunction or the end can stand behind a clause here.
    pub(crate) fn joins(&self) -> bool
        ensures { result ≡ joins self.now }
    {
        self.is_between() && self.clauses.len() != 0
    }

    // The whole text's, before its first clause.
    pub(crate) fn top(alloc: Global, field: Option<FieldNo>) -> Level
        ensures { result ≡ top field }
    {
        Level {
            field,
            named: false,
            clauses: Clauses::new(alloc),
            conj: None,
            sign: None,
            target: Target::Here,
        }
    }

    // A query in parentheses, before its first clause.
    pub(crate) fn inside(&self, alloc: Global) -> Level
        ensures { result ≡ inside self.now }
    {
        Level {
            field: self.field_for(),
            named: self.is_explicit(),
            clauses: Clauses::new(alloc),
            conj: None,
            sign: None,
            target: Target::Here,
        }
    }

    // With one more clause.
    pub(crate) fn put(self, query: Query) -> Result<Level, NoMemory>
        ensures { IfOk result (λ l. l ≡ put self query) }
    {
        let Level {
            field,
            named,
            mut clauses,
            conj,
            sign,
            target: _,
        } = self;
        clauses.push(Clause {
            before: conj,
            sign,
            query,
        })?;
        Ok(Level {
            field,
            named,
            clauses,
            conj: None,
            sign: None,
            target: Target::Here,
        })
    }
}

/// The queries that one in parentheses stands in, the innermost first.
#[derive(Debug, Drop)]
pub(crate) struct Levels {
    items: Vec<Level>,
}

impl Model for Levels {
    ghost use Rattle.std.specs.Prelude.{List, reverse};
    ghost use Rattle.query_text.specs.declared.level.Level.{Level};

    ghost Value = { List Level };

    ghost use Rattle.query_tree.specs.contracts.query.Query as query_facts;
    ghost use Rattle.std.specs.Coded.{codes};

    ghost view = { λ l. reverse l.items.items };

    ghost coded = { Prim.hlevel (codes, query_facts.the_row.coded) };
}

impl Levels {
    pub(crate) fn new(alloc: Global) -> Levels
        ensures { result ≡ [] }
    {
        Levels {
            items: Vec::new(alloc),
        }
    }

    pub(crate) fn len(&self) -> usize
        ensures { result ≡ length self.now }
    {
        self.items.len()
    }

    pub(crate) fn push(&mut self, level: Level) -> Result<(), NoMemory>
        ensures { OnOk result (self.new ≡ level ∷ self.old) }
    {
        self.items.push(level)?;
        Ok(())
    }

    pub(crate) fn pop(&mut self) -> Option<Level>
        ensures { MatchOption result ((self.old ≡ []) × (self.new ≡ []))
            (λ l. self.old ≡ l ∷ self.new) }
    {
        self.items.pop()
    }
}
