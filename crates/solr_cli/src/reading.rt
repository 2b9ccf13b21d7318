ghost use Rattle.std.specs.Prelude.{◌≡◌, ◌≢◌, ◌+◌, ◌≤◌, ◌<◌, Err, IfOk, length, vec_len};
ghost use Rattle.std.specs.Io.KnownBytes.{Consumes, IsAtEnd};
ghost use Rattle.script_form.specs.Lines.{most_input};
ghost use Rattle.solr_cli.specs.Reading.{TellsFaults, HasRead};

use rt_edge::Source;
use std::alloc::Global;

// The greatest number of bytes of an input.
const MOST_INPUT: usize = 16_777_216;

// How many bytes are asked for at a time.
const PIECE: usize = 65_536;

// Why an input was not read.
#[derive(Clone, Copy, Debug, PartialEq, Eq)]
pub(crate) enum ReadRefusal {
    Fault,
    NoMemory,
}

// A piece of memory to read into.
fn make_piece(alloc: Global) -> Result<Vec<u8>, ReadRefusal>
    ensures len { IfOk result (λ v. vec_len v ≡ PIECE) }
    ensures fault { result ≢ Err ReadRefusal.Fault }
{
    match vec![in alloc; 0u8; PIECE] {
        Ok(piece) => Ok(piece),
        Err(_) => Err(ReadRefusal::NoMemory),
    }
}

// Reads the next bytes to the end of `bytes`, and says how many they are; 0 is the end.
fn read_more<S: Source>(
    input: &mut S,
    bytes: &mut Vec<u8>,
    piece: &mut [u8],
) -> Result<usize, ReadRefusal>
    requires { 0 < length piece.old }
    ensures faults { TellsFaults (S.faults input.old) (S.faults input.new) result }
    ensures count { IfOk result (λ n. length bytes.new.items ≡ length bytes.old.items + n) }
    ensures within { IfOk result (λ n. n ≤ length piece.old) }
    ensures bytes { IfOk result (λ n. HasRead (S.left input.old) (S.left input.new) bytes.old.items bytes.new.items n) }
{
    match input.read(piece) {
        Ok(count) => match bytes.extend_from_slice(&piece[..count]) {
            Ok(()) => Ok(count),
            Err(_) => Err(ReadRefusal::NoMemory),
        },
        Err(_) => Err(ReadRefusal::Fault),
    }
}

// Reads an input to its end, or to one byte over the greatest input. Each turn takes a byte or more.
pub(crate) fn read_all<S: Source>(alloc: Global, input: &mut S) -> Result<Vec<u8>, ReadRefusal>
    ensures faults { TellsFaults (S.faults input.old) (S.faults input.new) result }
    ensures taken { IfOk result (λ v. Consumes (S.left input.old) (S.left input.new) v.items) }
    ensures whole { IfOk result (λ v. length v.items ≤ most_input → IsAtEnd (S.left input.new)) }
    ensures within { IfOk result (λ v. length v.items ≤ most_input + 1) }
{
    let mut piece = make_piece(alloc)?;
    let mut bytes = Vec::new(alloc);
    for turn in 0..MOST_INPUT + 1 {
        let _ = turn;
        let room = (MOST_INPUT + 1 - bytes.len()).min(piece.len());
        if room == 0 || read_more(input, &mut bytes, &mut piece[..room])? == 0 {
            return Ok(bytes);
        }
    }
    Ok(bytes)
}
