ghost use Rattle.std.specs.Prelude.{◌≡◌, false, Some, IfOk, string_bytes, nat_eq, refl};
ghost use Rattle.std.specs.Ordering.{nat_cmp};
ghost use Rattle.std.specs.Hash as fed;
ghost use Rattle.std.specs.Cmp.Lexicographic.{pointwise, slice_cmp, nat_list_eq_equiv, nat_list_cmp_total, texts_ties, texts_po};
ghost use Rattle.std.specs.Cmp.{partial_equiv_from_equiv};
ghost use Rattle.std.specs.Cmp.Rules.{hashing};
ghost use Rattle.std.proofs.Common.{rules, ap};
ghost use Rattle.field_schema.specs.Bytes.{bytes_eq, bytes_cmp, texts_eq, texts_cmp};
ghost use Rattle.field_schema.specs.Laws.{texts_eq_equiv, texts_cmp_total, texts_cmp_ties, texts_cmp_po, texts_eq-same};

use crate::memory::NoMemory;
use std::alloc::Global;
use std::cmp::Ordering;
use std::convert::AsStr;
use std::fmt;
use std::hash::{Hash, Hasher};
use std::marker::Model;

/// A text. Contracts see it as its bytes, which are UTF-8.
#[derive(Drop)]
pub struct Text {
    inner: String,
}

impl Model for Text {
    ghost use Rattle.std.specs.Prelude.{List, ℕ, string_bytes};

    ghost Value = { List ℕ };

    ghost view = { λ t. string_bytes t.inner };
}

impl Text {
    /// Wraps a string, without memory.
    pub fn new(inner: String) -> Text
        ensures { result ≡ string_bytes inner }
    {
        Text { inner }
    }

    /// The string, without memory.
    pub fn get(&self) -> &str
        ensures { result.now ≡ self.now }
    {
        self.inner.as_str()
    }

    /// An owned copy of a text. It costs the text's length.
    pub fn from_str(alloc: Global, text: &str) -> Result<Text, NoMemory>
        ensures { IfOk result (λ t. t ≡ text.now) }
    {
        let inner = String::from_str(alloc, text)?;
        Ok(Text { inner })
    }

    /// An equal text. It costs the text's length.
    pub fn copy(&self, alloc: Global) -> Result<Text, NoMemory>
        ensures { IfOk result (λ t. t ≡ self.now) }
    {
        Text::from_str(alloc, self.get())
    }
}

impl AsStr for Text {
    ghost text = { λ t. t };

    fn as_str(&self) -> &str {
        self.get()
    }
}

impl PartialEq for Text {
    ghost eq = { pointwise nat_eq };

    ghost laws = { partial_equiv_from_equiv nat_list_eq_equiv };

    fn eq(&self, other: &Text) -> bool {
        self.get() == other.get()
    }
}

impl Eq for Text {
    ghost laws = { nat_list_eq_equiv };
}

impl PartialOrd for Text {
    ghost partial_cmp = { λ x y. Some (slice_cmp nat_cmp x y) };

    ghost laws = { texts_po };

    fn partial_cmp(&self, other: &Text) -> Option<Ordering> {
        Some(self.cmp(other))
    }
}

impl Ord for Text {
    ghost cmp = { slice_cmp nat_cmp };

    ghost total = { nat_list_cmp_total };

    ghost matches_partial_cmp = { λ x y. refl };

    ghost matches_eq = { texts_ties };

    fn cmp(&self, other: &Text) -> Ordering {
        self.get().cmp(other.get())
    }
}

impl Hash for Text {
    ghost hash_input = { fed.str };

    ghost respects_eq = { Prim.search (hashing, rules) };

    fn hash<H: Hasher>(&self, state: &mut H) {
        self.get().hash(state);
    }
}

impl fmt::Debug for Text {
    fn fmt<W: fmt::Write>(&self, f: &mut fmt::Formatter<W>) -> fmt::Result {
        f.write_str(self.get())
    }
}

/// A list of texts. Contracts see it as the list of their bytes.
#[derive(Debug, Drop)]
pub struct Texts {
    items: Vec<Text>,
}

impl Model for Texts {
    ghost use Rattle.std.specs.Prelude.{List, ℕ};

    ghost Value = { List (List ℕ) };

    ghost view = { λ t. t.items.items };
}

impl Texts {
    /// Wraps a vector, without memory.
    pub fn new(items: Vec<Text>) -> Texts
        ensures { result ≡ items.items }
    {
        Texts { items }
    }

    /// The texts, without memory.
    pub fn get(&self) -> &[Text]
        ensures { result.now ≡ self.now }
    {
        self.items.as_slice()
    }

    /// The vector, without memory.
    pub fn into_vec(self) -> Vec<Text>
        ensures { result.items ≡ self }
    {
        self.items
    }

    /// An equal list. It costs the length of the texts in all.
    pub fn copy(&self, alloc: Global) -> Result<Texts, NoMemory>
        ensures { IfOk result (λ t. t ≡ self.now) }
    {
        let mut items = Vec::with_capacity(alloc, self.items.len())?;
        for text in self.get() {
            items.push(text.copy(alloc)?)?;
        }
        Ok(Texts { items })
    }
}

impl PartialEq for Texts {
    ghost eq = { texts_eq };

    ghost laws = { partial_equiv_from_equiv texts_eq_equiv };

    fn eq(&self, other: &Texts) -> bool {
        self.get() == other.get()
    }
}

impl Eq for Texts {
    ghost laws = { texts_eq_equiv };
}

impl PartialOrd for Texts {
    ghost partial_cmp = { λ x y. Some (texts_cmp x y) };

    ghost laws = { texts_cmp_po };

    fn partial_cmp(&self, other: &Texts) -> Option<Ordering> {
        Some(self.cmp(other))
    }
}

impl Ord for Texts {
    ghost cmp = { texts_cmp };

    ghost total = { texts_cmp_total };

    ghost matches_partial_cmp = { λ x y. refl };

    ghost matches_eq = { texts_cmp_ties };

    fn cmp(&self, other: &Texts) -> Ordering {
        self.get().cmp(other.get())
    }
}

impl Hash for Texts {
    ghost hash_input = { fed.slice fed.str };

    ghost respects_eq = { λ x y e. ap (fed.slice fed.str) (texts_eq-same x y e) };

    fn hash<H: Hasher>(&self, state: &mut H) {
        self.get().hash(state);
    }
}
