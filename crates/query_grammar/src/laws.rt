//! Laws of the grammar. Each function does nothing: its clause is the law.
ghost use Rattle.std.specs.Prelude.{ℕ, Option};
ghost use Rattle.query_text.specs.Reads.{Setting};
ghost use Rattle.query_grammar.specs.Laws.{FormsOrFault, LettersRead, LettersReadTo, LettersRefused, LexemesEnd, NothingGoesOn, OneTree, StandingGoesOn, StandingIsForms, TextsRead, TextsReadTo};

/// Lexemes can stand one behind another from the beginning of a text to its end exactly where they are the leaves of
/// a tree of the forms, whatever the schema, the operator and the default field.
pub fn what_stands_is_of_the_forms()
    ensures { (s : Setting) (df : Option ℕ) → StandingIsForms s df }
{}

/// No two trees of the forms have the same leaves.
pub fn no_leaves_have_two_trees()
    ensures { OneTree }
{}

/// Lexemes that can stand one behind another from the beginning of a text can be gone on with to the leaves of a
/// tree of the forms.
pub fn each_state_can_be_finished()
    ensures { (s : Setting) (df : Option ℕ) → StandingGoesOn s df }
{}

/// Lexemes with one behind them that can't stand there begin the leaves of no tree of the forms.
pub fn nothing_goes_on_behind_a_fault()
    ensures { (s : Setting) (df : Option ℕ) → NothingGoesOn s df }
{}

/// The lexemes of a text come to its end, once. They are the leaves of a tree of the forms, or one of them is the
/// first that can't stand: those before it can be gone on with to the leaves of a tree, and with it nothing can.
pub fn each_text_is_of_the_forms_or_has_a_first_fault()
    ensures end { LexemesEnd }
    ensures either { (s : Setting) (df : Option ℕ) → FormsOrFault s df }
{}

/// A text reads to a query exactly where its lexemes, behind its local parameters, are the leaves of a tree of the
/// forms and none of them tells another fault: nothing is wrong with it by itself, its field is known, numbers are
/// numbers, its type has prefixes, and the limits on parentheses and clauses are kept.
pub fn texts_of_the_forms_read()
    ensures letters { (s : Setting) (most : ℕ) (df : Option ℕ) → LettersRead s most df }
    ensures texts { (s : Setting) (most : ℕ) (df : Option ℕ) → TextsRead s most df }
{}

/// A text reads to a query exactly where its lexemes, behind its local parameters, are the leaves of a right tree of
/// the forms that means this query, and nothing is wrong with one of them by itself. A tree is right where its fields
/// are known, its values fit their fields, and the limits on parentheses and clauses are kept.
pub fn texts_read_to_what_right_trees_mean()
    ensures letters { (s : Setting) (most : ℕ) (df : Option ℕ) → LettersReadTo s most df }
    ensures texts { (s : Setting) (most : ℕ) (df : Option ℕ) → TextsReadTo s most df }
{}

/// Where letters don't read, a lexeme tells the fault that they read to, and those before it can stand, so that they can be
/// gone on with to the leaves of a tree of the forms; but an operator directly before a byte with a fault of its own
/// need not stand.
pub fn a_fault_is_told_where_those_before_can_be_finished()
    ensures { (s : Setting) (most : ℕ) (df : Option ℕ) → LettersRefused s most df }
{}
