ghost use Rattle.std.specs.Prelude.{◌≡◌, ◌<◌, ◌^◌, IfOk, length};
ghost use Rattle.std.specs.Str.Lines.{lines};
ghost use Rattle.field_schema.specs.Outcome.{Gives};
ghost use Rattle.script_form.specs.ReadScript.{front_of, is_no_memory, most_clients, script_of};

use crate::lines::next_line;
use crate::request::read_line;
use field_schema::{NoMemory, Text};
use std::alloc::{AllocFailed, Global};
use std::marker::Model;

// The clients are numbered from 1 to this.
const CLIENTS: u32 = 12;

/// What a line of the script asks for. A body is the text behind the verb's space; that of a commit may be empty.
#[derive(Debug, Drop)]
pub enum What {
    Add { client: u32, body: Text },
    Delete { client: u32, body: Text },
    Query { client: u32, body: Text },
    Commit { client: u32, body: Text },
    /// The phase ends.
    PhaseEnd,
    /// An empty line or a comment.
    Nothing,
}

/// A line of the script, numbered from 1.
#[derive(Debug, Drop)]
pub struct Line {
    pub number: u32,
    pub what: What,
}

/// The lines of a script. Contracts see them as a list.
#[derive(Debug, Drop)]
pub struct Script {
    lines: Vec<Line>,
}

impl Model for Script {
    ghost use Rattle.std.specs.Prelude.{List};
    ghost use Rattle.script_form.specs.declared.script.Line.{Line};

    ghost Value = { List Line };

    ghost view = { λ s. s.lines.items };
}

/// What is wrong with a line; the first of these counts.
#[derive(Clone, Copy, Debug, PartialEq, Eq)]
pub enum LineName {
    /// It is not UTF-8.
    NotUtf8,
    /// The part before its first space, or the whole line, is not one or more digits.
    NoClient,
    /// That part is not the number of a client, in decimal without a leading zero.
    BadClient,
    /// The part between its first and its second space is not `add`, `delete`, `query` or `commit`.
    BadVerb,
    /// It is an add, a delete or a query, and nothing stands behind its second space, or there is none.
    BadBody,
}

/// The first line that is wrong.
#[derive(Clone, Copy, Debug, PartialEq, Eq)]
pub struct LineFault {
    pub line: u32,
    pub name: LineName,
}

/// The lines of a script before its first fault, and that fault, if there is one.
#[derive(Debug, Drop)]
pub struct Front {
    pub lines: Script,
    pub fault: Option<LineFault>,
}

impl Front {
    // These lines, and that fault.
    fn up_to(lines: Vec<Line>, fault: Option<LineFault>) -> Front
        ensures lines { result.lines ≡ lines.items }
        ensures fault { result.fault ≡ fault }
    {
        Front {
            lines: Script::new(lines),
            fault,
        }
    }
}

/// Why there is no script.
#[derive(Clone, Copy, Debug, PartialEq, Eq)]
pub enum ScriptRefusal {
    /// A line is wrong.
    Fault(LineFault),
    /// Memory was wanting.
    NoMemory,
}

impl From<NoMemory> for ScriptRefusal {
    ghost use Rattle.std.specs.Prelude.{◌≡◌};
    ghost use Rattle.script_form.specs.declared.script.ScriptRefusal.TheVariants as refusal;

    ghost from_gives = { λ _ e. e ≡ refusal.NoMemory };

    fn from(_error: NoMemory) -> ScriptRefusal {
        ScriptRefusal::NoMemory
    }
}

impl<T: Drop> From<AllocFailed<T>> for ScriptRefusal {
    ghost use Rattle.std.specs.Prelude.{◌≡◌};
    ghost use Rattle.script_form.specs.declared.script.ScriptRefusal.TheVariants as refusal;

    ghost from_gives = { λ _ e. e ≡ refusal.NoMemory };

    fn from(_error: AllocFailed<T>) -> ScriptRefusal {
        ScriptRefusal::NoMemory
    }
}

impl Script {
    /// Wraps a vector, without memory.
    pub fn new(lines: Vec<Line>) -> Script
        ensures { result ≡ lines.items }
    {
        Script { lines }
    }

    /// The lines, without memory.
    pub fn get(&self) -> &[Line]
        ensures { result.now ≡ self.now }
    {
        self.lines.as_slice()
    }
}

/// The lines of a script before its first fault, and that fault, if there is one.
///
/// An empty line and one that begins with `#` ask for nothing, and `---` ends the phase. Each other line is a
/// request: a client's number, 1 to 12 in decimal without a leading zero, a space, then `add`, `delete` or `query`,
/// a space and a body, or `commit` and, if it is there, a space and a body. No body is read here, so no fault tells of
/// what stands in one.
///
/// Lines are numbered from 1. The fault is that of the first line with one, by the order of [`LineName`]. An error is
/// want of memory. It costs the script's length up to the fault.
#[tactic(auto, unfolding(crate::specs::ReadScript::front_of))]
pub fn read_front(alloc: Global, bytes: &[u8]) -> Result<Front, NoMemory>
    requires { length bytes.now < 2 ^ 32 }
    ensures { IfOk result (λ f. f ≡ front_of most_clients (lines bytes.now)) }
{
    let mut read = Vec::new(alloc);
    let mut number: u32 = 0;
    let mut rest = bytes;
    while !rest.is_empty() {
        let (line, others) = next_line(rest);
        number += 1;
        match read_line(alloc, CLIENTS, number, line) {
            Ok(what) => read.push(Line { number, what })?,
            Err(ScriptRefusal::Fault(fault)) => return Ok(Front::up_to(read, Some(fault))),
            Err(ScriptRefusal::NoMemory) => return Err(NoMemory),
        }
        rest = others;
    }
    Ok(Front::up_to(read, None))
}

/// The lines of a script, as [`read_front`] reads them, or the first fault.
///
/// `NoMemory` comes only where memory is wanting. It costs the script's length.
pub fn read_script(alloc: Global, bytes: &[u8]) -> Result<Script, ScriptRefusal>
    requires { length bytes.now < 2 ^ 32 }
    ensures { Gives is_no_memory result (script_of most_clients (lines bytes.now)) }
{
    let front = read_front(alloc, bytes)?;
    match front.fault {
        Some(fault) => Err(ScriptRefusal::Fault(fault)),
        None => Ok(front.lines),
    }
}
