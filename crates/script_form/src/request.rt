ghost use Rattle.std.specs.Prelude.{◌≡◌, ◌<◌, ◌^◌, ◌==◌};
ghost use Rattle.std.specs.List.{before_first, after_first};
ghost use Rattle.field_schema.specs.Outcome.{Gives};
ghost use Rattle.script_form.specs.ReadScript.{client_of, is_no_memory, is_space, line_failed, request_of, told, what_in, what_of};

use crate::decimal::{are_digits, decimal_within};
use crate::script::{LineFault, LineName, ScriptRefusal, What};
use field_schema::Text;
use std::alloc::Global;

// What the line of that number asks for, where there are so many clients, or its first fault.
#[tactic(auto, unfolding(crate::specs::ReadScript::what_of))]
pub(crate) fn read_line(
    alloc: Global,
    clients: u32,
    number: u32,
    line: &[u8],
) -> Result<What, ScriptRefusal>
    ensures { Gives is_no_memory result (told number (what_of clients line.now)) }
{
    match str::from_utf8(line) {
        Ok(text) => read_text(alloc, clients, number, text),
        Err(_) => Err(fault(number, LineName::NotUtf8)),
    }
}

// What a line that is a text asks for, or its first fault.
fn read_text(alloc: Global, clients: u32, number: u32, line: &str) -> Result<What, ScriptRefusal>
    ensures { Gives is_no_memory result (told number (what_in clients line.now)) }
{
    if line.is_empty() || line.starts_with('#') {
        return Ok(What::Nothing);
    }
    if line == "---" {
        return Ok(What::PhaseEnd);
    }
    let (client, request) = cut(line);
    let client = read_client(clients, number, client)?;
    let (verb, body) = cut(request);
    read_request(alloc, number, client, verb, body)
}

// The client that a line begins with, or the fault of its number.
fn read_client(clients: u32, number: u32, part: &str) -> Result<u32, ScriptRefusal>
    ensures { result ≡ told number (client_of clients part.now) }
{
    if !are_digits(part) {
        return Err(fault(number, LineName::NoClient));
    }
    match decimal_within(part, 1, clients) {
        Some(client) => Ok(client),
        None => Err(fault(number, LineName::BadClient)),
    }
}

// What a client asks for by a verb and a body, or the fault of these.
fn read_request(
    alloc: Global,
    number: u32,
    client: u32,
    verb: &str,
    body: &str,
) -> Result<What, ScriptRefusal>
    ensures { Gives is_no_memory result (told number (request_of client verb.now body.now)) }
{
    match verb {
        "add" | "delete" | "query" if body.is_empty() => Err(fault(number, LineName::BadBody)),
        "add" => Ok(What::Add {
            client,
            body: Text::from_str(alloc, body)?,
        }),
        "delete" => Ok(What::Delete {
            client,
            body: Text::from_str(alloc, body)?,
        }),
        "query" => Ok(What::Query {
            client,
            body: Text::from_str(alloc, body)?,
        }),
        "commit" => Ok(What::Commit {
            client,
            body: Text::from_str(alloc, body)?,
        }),
        _ => Err(fault(number, LineName::BadVerb)),
    }
}

// The part of a text before its first space, or the whole text, and what stands behind that space.
fn cut(text: &str) -> (&str, &str)
    ensures front { result.0.now ≡ before_first is_space text.now }
    ensures back { result.1.now ≡ after_first is_space text.now }
{
    text.split_once(' ').unwrap_or((text, ""))
}

// The fault of a line.
fn fault(number: u32, name: LineName) -> ScriptRefusal
    ensures { result ≡ line_failed number name }
{
    ScriptRefusal::Fault(LineFault { line: number, name })
}
