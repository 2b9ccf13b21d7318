ghost use Rattle.std.specs.Prelude.{◌≡◌, map, string_bytes};
ghost use Rattle.solr_cli.specs.Commands.{command_of, lone_command, paired_command};

use script_form::decimal_within;

/// What the words of a command line ask for.
#[derive(Clone, Copy, Debug, PartialEq, Eq)]
pub enum Command {
    /// Reads the input to its end, runs it and writes its output, or its summary.
    Run { summary: bool },
    /// Reads the input to its end and writes the counts of its script.
    Check,
    /// Writes the generator's script of so many documents, 1 to 20,000.
    Make(u32),
    /// Runs the generator's script of so many documents, 1 to 20,000, and writes its summary.
    Drill(u32),
}

// The greatest number of documents of a generated script.
const MOST_MADE: u32 = 20_000;

/// What words ask for, compared as they stand: `run`, `run --summary`, `check`, or `make` or `drill` and a number from 1 to 20,000
/// in decimal, without a sign or a leading zero. None for all other words. It takes no memory.
pub fn read_words(words: &[String]) -> Option<Command>
    ensures { result ≡ command_of (map string_bytes words.now) }
{
    match words {
        [word] => lone(word.as_str()),
        [word, other] => paired(word.as_str(), other.as_str()),
        _ => None,
    }
}

// The command of one word.
fn lone(word: &str) -> Option<Command>
    ensures { result ≡ lone_command word.now }
{
    if word == "run" {
        Some(Command::Run { summary: false })
    } else if word == "check" {
        Some(Command::Check)
    } else {
        None
    }
}

// The command of two words.
fn paired(word: &str, other: &str) -> Option<Command>
    ensures { result ≡ paired_command word.now other.now }
{
    match word {
        "run" if other == "--summary" => Some(Command::Run { summary: true }),
        "make" => Some(Command::Make(decimal_within(other, 1, MOST_MADE)?)),
        "drill" => Some(Command::Drill(decimal_within(other, 1, MOST_MADE)?)),
        _ => None,
    }
}
