ghost use Rattle.std.specs.Prelude.{◌≡◌, decimal, OnOk};
ghost use Rattle.std.specs.Io.KnownBytes.{Appends};
ghost use Rattle.rt_edge.specs.Faults.{HasCause, Rose};
ghost use Rattle.solr_cli.specs.Statuses.{code_of, line_of, named_line};

use crate::status::{Status, USAGE, line_name};
use crate::writing::write_all;
use itoa::Buffer;
use rt_edge::{Failed, Sink};

/// What the program does when a command has ended: it tells the status in a line on `error`, the standard error, and
/// gives the exit code. Where the status is Done it writes nothing.
///
/// It takes no memory. After a write that failed, nothing more is written.
pub fn tell_end<E: Sink>(status: &Status, error: &mut E) -> u8
    ensures code { result ≡ code_of status.now }

    // The line was appended, unless a write failed in this call.
    ensures told { (Rose (E.faults error.old) (E.faults error.new) → ⊥)
        → Appends (E.held error.old) (E.held error.new) (line_of status.now) }
{
    let _ = write_line(status, error);
    status.code()
}

// Writes the line of a status.
fn write_line<E: Sink>(status: &Status, error: &mut E) -> Result<(), Failed>
    ensures ok { OnOk result (Appends (E.held error.old) (E.held error.new) (line_of status.now)) }
    ensures cause { HasCause (E.faults error.old) (E.faults error.new) result }
{
    match status {
        Status::Done => Ok(()),
        Status::Usage => write_all(error, USAGE.as_bytes()),
        Status::ReadFault => write_all(error, b"read fault\n"),
        Status::WriteFault => write_all(error, b"write fault\n"),
        Status::BadConfig { at, name } => {
            write_all(error, b"bad configuration: check ")?;
            write_named(error, *at, ", ", name.get())
        }
        Status::BadLine { line, name } => {
            write_all(error, b"bad line ")?;
            write_named(error, *line, ": ", line_name(*name))
        }
        Status::TooLarge => write_all(error, b"input too large\n"),
        Status::NoMemory => write_all(error, b"no memory\n"),
    }
}

// Writes a number, what parts it from a name, the name, and the end of the line.
fn write_named<E: Sink>(error: &mut E, number: u32, between: &str, name: &str) -> Result<(), Failed>
    ensures ok { OnOk result (Appends (E.held error.old) (E.held error.new) (named_line number between.now name.now)) }
    ensures cause { HasCause (E.faults error.old) (E.faults error.new) result }
{
    write_number(error, number)?;
    write_all(error, between.as_bytes())?;
    write_all(error, name.as_bytes())?;
    write_all(error, b"\n")
}

// Writes a number.
fn write_number<E: Sink>(error: &mut E, number: u32) -> Result<(), Failed>
    ensures ok { OnOk result (Appends (E.held error.old) (E.held error.new) (decimal number)) }
    ensures cause { HasCause (E.faults error.old) (E.faults error.new) result }
{
    let mut buffer = Buffer::new();
    write_all(error, buffer.format(number).as_bytes())
}
