//! The lines of an output against the words of `serde_json` for the text of JSON. Each function does
//! nothing: its clause is the law.
ghost use Rattle.run_laws.specs.OutputText.{MembersLineIsObject, RequestLineIsObject, SearcherLineIsObject};

/// A line is the compact text of the object of its members, and a line feed.
pub fn lines_are_objects()
    ensures members { MembersLineIsObject }
    ensures requests { RequestLineIsObject }
    ensures searchers { SearcherLineIsObject }
{}
