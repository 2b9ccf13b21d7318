//! What queries mean, as a user's guide says it. Each function does nothing: its clauses are laws of the meaning of trees.
ghost use Rattle.query_grammar.specs.Guide.{AndJoins, AndRequires, FieldGoesIn, MinusProhibits, NotIsMinus, OrAllows, OrJoins, ParenthesesMeanWhatTheyHold, PlusRequires};

/// Of `a AND b` both are required, and of `a OR b` both are optional, whatever the operator.
pub fn conjunctions_say_what_is_required()
    ensures and { AndRequires }
    ensures or { OrAllows }
{}

/// Of `a b` both are optional with the operator `OR`, and required with `AND`.
pub fn the_operator_joins_what_no_conjunction_does()
    ensures or { OrJoins }
    ensures and { AndJoins }
{}

/// `+a` requires, `-a` prohibits, and `NOT` is `-`.
pub fn modifiers_require_and_prohibit()
    ensures plus { PlusRequires }
    ensures minus { MinusProhibits }
    ensures not { NotIsMinus }
{}

/// `(a)` is `a`.
pub fn parentheses_mean_what_they_hold()
    ensures { ParenthesesMeanWhatTheyHold }
{}

/// `field:(a b)` is `(field:a field:b)`.
pub fn a_field_goes_into_parentheses()
    ensures { FieldGoesIn }
{}
