ghost use Rattle.std.specs.Prelude.{◌≡◌, IfOk};
ghost use Rattle.solr_cli.specs.Statuses.{code_of, line_of, name_of};

use field_schema::{NoMemory, Text};
use script_form::LineName;
use std::alloc::Global;

// What is told where the words are no command: the commands that there are, or will be.
pub(crate) const USAGE: &str =
    "usage\nsolr_cli run\nsolr_cli run --summary\nsolr_cli check\nsolr_cli make N\nsolr_cli drill N\n";

/// How a command ended.
#[derive(Debug, Drop)]
pub enum Status {
    /// It did its work, and all of its text was written.
    Done,
    /// The words are no command.
    Usage,
    /// A read failed; nothing was written.
    ReadFault,
    /// A write or the flush failed; a front of the text was written.
    WriteFault,
    /// A check of the configuration fails; nothing was written.
    BadConfig { at: u32, name: Text },
    /// A line of the script is wrong; nothing was written.
    BadLine { line: u32, name: LineName },
    /// The input passes a limit; nothing was written.
    TooLarge,
    /// Memory was wanting; nothing was written.
    NoMemory,
}

impl Status {
    /// The exit code of the program.
    pub fn code(&self) -> u8
        ensures { result ≡ code_of self.now }
    {
        match self {
            Status::Done => 0,
            Status::Usage => 2,
            Status::ReadFault => 3,
            Status::WriteFault => 4,
            Status::BadConfig { at: _, name: _ } => 5,
            Status::BadLine { line: _, name: _ } => 6,
            Status::TooLarge => 7,
            Status::NoMemory => 8,
        }
    }
}

// The name of a line's fault.
pub(crate) fn line_name(name: LineName) -> &'static str
    ensures { result.now ≡ name_of name }
{
    match name {
        LineName::NotUtf8 => "NotUtf8",
        LineName::NoClient => "NoClient",
        LineName::BadClient => "BadClient",
        LineName::BadVerb => "BadVerb",
        LineName::BadBody => "BadBody",
    }
}

/// What the program prints on standard error, with its line feed; nothing where it is done.
pub fn status_line(alloc: Global, status: &Status) -> Result<Text, NoMemory>
    ensures { IfOk result (λ t. t ≡ line_of status.now) }
{
    let text = match status {
        Status::Done => String::new(alloc),
        Status::Usage => String::from_str(alloc, USAGE)?,
        Status::ReadFault => String::from_str(alloc, "read fault\n")?,
        Status::WriteFault => String::from_str(alloc, "write fault\n")?,
        Status::BadConfig { at, name } => {
            let name = name.get();
            format!(in alloc; "bad configuration: check {at}, {name}\n")?
        }
        Status::BadLine { line, name } => {
            let name = line_name(*name);
            format!(in alloc; "bad line {line}: {name}\n")?
        }
        Status::TooLarge => String::from_str(alloc, "input too large\n")?,
        Status::NoMemory => String::from_str(alloc, "no memory\n")?,
    };
    Ok(Text::new(text))
}
