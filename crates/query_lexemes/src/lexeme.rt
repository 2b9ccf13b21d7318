use crate::fault::QueryFault;
use field_schema::Text;

/// A part of a query text, as far as it can be told from the letters that it begins with.
#[derive(Debug, Drop)]
pub struct Lexeme {
    /// The place of its first byte in the text.
    pub at: usize,
    /// What it is.
    pub what: What,
    /// What is wrong with it, wherever it stands.
    pub wrong: Option<QueryFault>,
}

/// What a lexeme is.
#[derive(Debug, Drop)]
pub enum What {
    /// A word.
    Word(Text),
    /// A word that `*` follows.
    Prefix(Text),
    /// A text in quotes.
    Quoted(Text),
    /// `*`.
    Star,
    /// A range, and which of its ends it includes.
    Range {
        low: bool,
        from: Bound,
        to: Bound,
        high: bool,
    },
    /// A word and the place of the colon behind it.
    Name {
        text: Text,
        colon: usize,
    },
    /// `*` and the place of the colon behind it, and whether a value other than `*` stands behind the colon.
    Any {
        colon: usize,
        other: bool,
    },
    /// An operator, and the place of the first byte that does not go on it as a word; none where that byte has a
    /// fault of its own.
    Operator {
        operator: Operator,
        behind: Option<usize>,
    },
    /// `+`, or `-` and `!`, which prohibit.
    Sign {
        prohibits: bool,
    },
    /// `(`.
    Opening,
    /// `)`.
    Closing,
    /// The end of the text.
    Finish,
    /// A quoted text or a range that goes wrong, and those of its ends that are whole.
    Begun {
        from: Option<Bound>,
        to: Option<Bound>,
    },
    /// A word that goes wrong.
    Half,
    /// A character that begins no part.
    Flaw,
}

/// A word that joins clauses or stands before one.
#[derive(Clone, Copy, Debug, PartialEq, Eq)]
pub enum Operator {
    /// `AND` or `&&`.
    And,
    /// `OR` or `||`.
    Or,
    /// `NOT`.
    Not,
}

/// An end of a range.
#[derive(Debug, Drop)]
pub struct Bound {
    /// The place of its first byte in the text.
    pub at: usize,
    /// Its text; none where the range is open there.
    pub text: Option<Text>,
}
