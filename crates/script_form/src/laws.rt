//! What the definitions of a configuration and a script say. Each function does nothing: its clause is the law.
ghost use Rattle.script_form.specs.Ranges.{ReadConfigIsWithinRanges, ReadFrontIsScript, ReadScriptIsScript};

/// A configuration that some input begins with keeps the ranges that its checks look at.
pub fn configuration_is_within_ranges()
    ensures { ReadConfigIsWithinRanges }
{}

/// The lines of a script are numbered from 1 and its clients are those that there are: the lines before a fault, of
/// which there are no more than lines in all, and all lines, where there is no fault.
pub fn script_is_numbered_lines_of_clients()
    ensures front { ReadFrontIsScript }
    ensures whole { ReadScriptIsScript }
{}
