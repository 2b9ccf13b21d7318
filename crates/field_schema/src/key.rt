ghost use Rattle.std.specs.Prelude.{◌≡◌, IfOk, refl};
ghost use Rattle.std.specs.Cmp.{partial_equiv_from_equiv};
ghost use Rattle.field_schema.specs.Keys.{kind_place, key_eq, key_cmp, key_partial_cmp};
ghost use Rattle.field_schema.specs.Laws.{key_eq_equiv, key_cmp_total, key_cmp_po, key_cmp_ties};

use crate::memory::NoMemory;
use crate::text::Text;
use std::alloc::Global;
use std::cmp::Ordering;

/// A value of a document in a field, as queries and sorts see it.
///
/// Keys are ordered by kind as the kinds stand here; within a kind texts by bytes, numbers by value, and
/// false before true.
#[derive(Debug, Drop, Hash)]
pub enum Key {
    /// The whole text of a string field.
    Str(Text),
    /// A whole number of 64 signed bits.
    Long(i64),
    /// A truth value.
    Bool(bool),
    /// A token of a text field, or in a document the whole text of such a field.
    Token(Text),
}

impl Key {
    /// An equal key. It costs the text's length.
    pub fn copy(&self, alloc: Global) -> Result<Key, NoMemory>
        ensures { IfOk result (λ k. k ≡ self.now) }
    {
        match self {
            Key::Str(text) => Ok(Key::Str(text.copy(alloc)?)),
            Key::Long(number) => Ok(Key::Long(*number)),
            Key::Bool(truth) => Ok(Key::Bool(*truth)),
            Key::Token(text) => Ok(Key::Token(text.copy(alloc)?)),
        }
    }

    // The place of its kind among the kinds.
    fn kind_place(&self) -> u8
        ensures { result ≡ kind_place self.now }
    {
        match self {
            Key::Str(_) => 0,
            Key::Long(_) => 1,
            Key::Bool(_) => 2,
            Key::Token(_) => 3,
        }
    }
}

impl PartialEq for Key {
    ghost eq = { key_eq };

    ghost laws = { partial_equiv_from_equiv key_eq_equiv };

    fn eq(&self, other: &Key) -> bool {
        match (self, other) {
            (Key::Str(text), Key::Str(others)) => text == others,
            (Key::Long(number), Key::Long(others)) => number == others,
            (Key::Bool(truth), Key::Bool(others)) => truth == others,
            (Key::Token(text), Key::Token(others)) => text == others,
            _ => false,
        }
    }
}

impl Eq for Key {
    ghost laws = { key_eq_equiv };
}

impl PartialOrd for Key {
    ghost partial_cmp = { key_partial_cmp };

    ghost laws = { key_cmp_po };

    fn partial_cmp(&self, other: &Key) -> Option<Ordering> {
        Some(self.cmp(other))
    }
}

impl Ord for Key {
    ghost cmp = { key_cmp };

    ghost total = { key_cmp_total };

    ghost matches_partial_cmp = { λ x y. refl };

    ghost matches_eq = { key_cmp_ties };

    fn cmp(&self, other: &Key) -> Ordering {
        match (self, other) {
            (Key::Str(text), Key::Str(others)) => text.cmp(others),
            (Key::Long(number), Key::Long(others)) => number.cmp(others),
            (Key::Bool(truth), Key::Bool(others)) => truth.cmp(others),
            (Key::Token(text), Key::Token(others)) => text.cmp(others),
            _ => self.kind_place().cmp(&other.kind_place()),
        }
    }
}
