ghost use Rattle.std.specs.Prelude.{◌≡◌, ◌<◌, ◌∷◌, ◌-◌, ⊤, drop, length, MatchOption};
ghost use Rattle.std.specs.Str.Lines.{lines, strip_carriage_return};
ghost use Rattle.script_form.specs.Lines.{HasMarker, HasNoMarker, HasNoLines, IsScriptOf, IsRestOf, is_marker as is_marker_line, lines_too_large, too_large as is_too_large};

use memchr::memchr;

/// The most bytes of the whole input.
const MOST_INPUT: usize = 16_777_216;

/// The most bytes of a line of the script.
const MOST_LINE: usize = 1_048_576;

/// The most lines of the script.
const MOST_LINES: usize = 100_000;

/// Whether the input passes a limit: its size (16,777,216 bytes), a line of its script (1,048,576 bytes),
/// or the number of lines of its script (100,000).
///
/// The script's lines are those behind the first line that is exactly `%%`; without such a line there are none.
/// It costs the input's length.
#[tactic(auto, unfolding(crate::specs::Lines::too_large))]
pub fn too_large(bytes: &[u8]) -> bool
    ensures { result ≡ is_too_large bytes.now }
{
    bytes.len() > MOST_INPUT || lines_pass_limit(behind_marker(bytes).unwrap_or(&[]))
}

// Whether there are too many lines, or one is too long.
fn lines_pass_limit(script: &[u8]) -> bool
    ensures { result ≡ lines_too_large (lines script.now) }
{
    let mut count = 0;
    let mut rest = script;
    while !rest.is_empty() {
        let (line, others) = next_line(rest);
        count += 1;
        if count > MOST_LINES || line.len() > MOST_LINE {
            return true;
        }
        rest = others;
    }
    false
}

// The bytes behind the first line that is exactly `%%`; None exactly where there is none.
pub(crate) fn behind_marker(bytes: &[u8]) -> Option<&[u8]>
    ensures cases { MatchOption result (HasNoMarker bytes.now) (λ _. HasMarker bytes.now) }
    ensures script { MatchOption result (HasNoLines bytes.now) (λ r. IsScriptOf bytes.now r.now) }
    ensures place { MatchOption result ⊤ (λ r. IsRestOf bytes.now r.now) }
{
    let mut rest = bytes;
    while !rest.is_empty() {
        let (line, others) = next_line(rest);
        if is_marker(line) {
            return Some(others);
        }
        rest = others;
    }
    None
}

// Whether a line divides the configuration from the script.
pub(crate) fn is_marker(line: &[u8]) -> bool
    ensures { result ≡ is_marker_line line.now }
{
    line == b"%%".as_slice()
}

// The first line, without the line feed that ends it and one carriage return before that, and the bytes
// behind it.
pub(crate) fn next_line(bytes: &[u8]) -> (&[u8], &[u8])
    requires { 0 < length bytes.now }
    ensures split { lines bytes.now ≡ result.0.now ∷ lines result.1.now }
    ensures shorter { length result.1.now < length bytes.now }
    ensures place { result.1.now ≡ drop (length bytes.now - length result.1.now) bytes.now }
{
    match memchr(b'\n', bytes) {
        Some(end) => (without_return(&bytes[..end]), &bytes[end + 1..]),
        None => (bytes, &[]),
    }
}

// A line without the carriage return at its end.
fn without_return(line: &[u8]) -> &[u8]
    ensures { result.now ≡ strip_carriage_return line.now }
{
    match line {
        [front @ .., b'\r'] => front,
        _ => line,
    }
}
