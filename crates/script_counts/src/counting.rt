ghost use Rattle.std.specs.Prelude.{◌≡◌, ◌+◌, ◌<◌, ◌^◌, IfOk, count_by};
ghost use Rattle.std.specs.List.{range_with_len};
ghost use Rattle.script_counts.specs.Counts.{asks as asks_of, check_text as text_of_check, client_of as client_of_what, counts_line, counts_of as counts_of_lines, ends_phase as ends_phase_of, is_phase_end, is_request};

use field_schema::{NoMemory, Text};
use script_form::{Line, Script, What};
use std::alloc::Global;

// The clients are numbered from 1 to this.
const CLIENTS: u32 = 12;

/// What a script has in all.
#[derive(Clone, Copy, Debug, PartialEq, Eq)]
pub struct Counts {
    /// The clients that have a request, of those numbered from 1 to 12.
    pub clients: usize,
    /// The lines behind `%%`, empty ones and comments among them.
    pub lines: usize,
    /// One more than the lines that end a phase.
    pub phases: usize,
    pub requests: usize,
}

// The client whose request it is, where it is one.
fn client_of(what: &What) -> Option<u32>
    ensures { result ≡ client_of_what what.now }
{
    match what {
        What::Add { client, .. }
        | What::Delete { client, .. }
        | What::Query { client, .. }
        | What::Commit { client, .. } => Some(*client),
        What::PhaseEnd | What::Nothing => None,
    }
}

// Whether the phase ends.
fn ends_phase(what: &What) -> bool
    ensures { result ≡ ends_phase_of what.now }
{
    matches!(what, What::PhaseEnd)
}

// Whether a client has a request.
fn asks(lines: &[Line], client: u32) -> bool
    ensures { result ≡ asks_of lines.now client }
{
    lines.iter().any(|line| client_of(&line.what).map_or(false, |c| c == client))
}

// How many of so many clients have a request.
fn client_count(lines: &[Line], clients: u32) -> usize
    requires { clients + 1 < 2 ^ 32 }
    ensures { result ≡ count_by (asks_of lines.now) (range_with_len 1 clients) }
{
    (1..clients + 1)
        .filter(|client| asks(lines, *client))
        .count()
}

// How many lines end a phase.
fn phase_ends(lines: &[Line]) -> usize
    ensures { result ≡ count_by is_phase_end lines.now }
{
    lines.iter().filter(|line| ends_phase(&line.what)).count()
}

// How many lines are requests.
fn request_count(lines: &[Line]) -> usize
    ensures { result ≡ count_by is_request lines.now }
{
    lines
        .iter()
        .filter(|line| client_of(&line.what).is_some())
        .count()
}

/// What a script has in all, without memory. It looks at each line at most fourteen times.
pub fn counts_of(script: &Script) -> Counts
    ensures { result ≡ counts_of_lines script.now }
{
    let lines = script.get();
    Counts {
        clients: client_count(lines, CLIENTS),
        lines: lines.len(),
        phases: phase_ends(lines) + 1,
        requests: request_count(lines),
    }
}

// The line that tells these counts.
fn line_of(alloc: Global, counts: Counts) -> Result<Text, NoMemory>
    ensures { IfOk result (λ t. t ≡ counts_line counts) }
{
    let Counts {
        clients,
        lines,
        phases,
        requests,
    } = counts;
    let mut out = String::new(alloc);
    write!(
        out,
        "{{\"clients\":{clients},\"lines\":{lines},\"phases\":{phases},\"requests\":{requests}}}\n"
    )?;
    Ok(Text::new(out))
}

/// The line that tells what a script has in all: a compact JSON object with `clients`, `lines`, `phases` and
/// `requests`, and a line feed. An error is want of memory. It costs what [`counts_of`] does.
pub fn check_text(alloc: Global, script: &Script) -> Result<Text, NoMemory>
    ensures { IfOk result (λ t. t ≡ text_of_check script.now) }
{
    line_of(alloc, counts_of(script))
}
