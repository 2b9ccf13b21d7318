//! The forms are tried on short lists of lexemes. Each function does nothing: its clauses are what the trial shows.
ghost use Rattle.std.specs.Prelude.{◌≡◌, ◌∷◌, [], None, false, true};
ghost use Rattle.query_grammar.specs.Forms.{AreOfForms, leaves};
ghost use Rattle.query_grammar.specs.Meaning.{meaning};
ghost use Rattle.query_grammar.specs.Right.{text_right};
ghost use Rattle.query_grammar.specs.Trials.{AreOfNoForms, a, and_, any_value, b, cat, closing, ended, every, minus, not_, opening, or_, plus, setting, worked, worked_query};

/// `+cat:(a b) AND NOT *:*` is of a tree, which is right under a limit of two clauses and not of one, and means the
/// documents that have `a` or `b` in the field and are not among all.
pub fn worked_query_has_a_tree()
    ensures forms { leaves worked ≡ ended (plus ∷ cat ∷ opening ∷ a ∷ b ∷ closing
        ∷ and_ ∷ not_ ∷ every ∷ any_value ∷ []) }
    ensures right { text_right setting.fields 2 None worked ≡ true }
    ensures limit { text_right setting.fields 1 None worked ≡ false }
    ensures means { meaning setting None worked ≡ worked_query }
{}

/// A blank text is of a tree.
pub fn blank_text_has_a_tree()
    ensures { AreOfForms (ended []) }
{}

/// `a OR OR b` is of none.
pub fn two_conjunctions_have_none()
    ensures { AreOfNoForms (a ∷ or_ ∷ or_ ∷ b ∷ []) }
{}

/// `( )` is of none.
pub fn empty_parentheses_have_none()
    ensures { AreOfNoForms (opening ∷ closing ∷ []) }
{}

/// `+ - a` is of none.
pub fn two_modifiers_have_none()
    ensures { AreOfNoForms (plus ∷ minus ∷ a ∷ []) }
{}

/// `cat:cat:a` is of none.
pub fn two_fields_have_none()
    ensures { AreOfNoForms (cat ∷ cat ∷ a ∷ []) }
{}

/// `cat:(a))` is of none.
pub fn a_parenthesis_too_many_has_none()
    ensures { AreOfNoForms (cat ∷ opening ∷ a ∷ closing ∷ closing ∷ []) }
{}

/// `(a AND` is of none.
pub fn an_open_parenthesis_has_none()
    ensures { AreOfNoForms (opening ∷ a ∷ and_ ∷ []) }
{}
