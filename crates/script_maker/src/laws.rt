//! What holds of scripts that are written, and of those that are made. Each function does nothing: its clauses are the
//! laws.
ghost use Rattle.script_maker.specs.Laws.{MadeConfigReads, MadeIsWithinLimits, MadeScriptReads, PlainLinesReadBack};

/// A script whose bodies are printable ASCII, and whose clients are those that there are, is read back from its text.
pub fn plain_lines_read_back()
    ensures { PlainLinesReadBack }
{}

/// Each made text reads: to the generator's configuration and, without a fault, to the lines that the turns ask for. It
/// is within the limits of an input.
pub fn made_scripts_read()
    ensures config { MadeConfigReads }
    ensures script { MadeScriptReads }
    ensures limits { MadeIsWithinLimits }
{}
