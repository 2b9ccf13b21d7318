use field_schema::NoMemory;

/// What is wrong with a query text, and where: `at` is a byte's place in the text, from 0.
///
/// Of the faults of a text the one with the least place counts, and at one place the first of these.
#[derive(Clone, Copy, Debug, PartialEq, Eq)]
pub enum QueryFault {
    /// The text fits no form from here on, or ends unfinished.
    Syntax { at: usize },
    /// No indexed field has the name, or a value needs a field and there is none.
    UnknownField { at: usize },
    /// A value of a field of whole numbers is no number of 64 signed bits.
    BadNumber { at: usize },
    /// The text asks for what is not supported.
    Unsupported { at: usize },
    /// The local parameters are wrong or unfinished.
    BadLocal { at: usize },
    /// It is nested too deep.
    TooDeep { at: usize },
    /// One query has too many clauses.
    TooManyClauses { at: usize },
    /// Memory was wanting.
    NoMemory,
}

impl From<NoMemory> for QueryFault {
    ghost use Rattle.std.specs.Prelude.{◌≡◌};
    ghost use Rattle.query_lexemes.specs.declared.fault.QueryFault.TheVariants as fault;

    ghost from_gives = { λ _ e. e ≡ fault.NoMemory };

    fn from(_error: NoMemory) -> QueryFault {
        QueryFault::NoMemory
    }
}
