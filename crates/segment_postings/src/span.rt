//! Keys that stand side by side in the order of keys.
ghost use Rattle.std.specs.Prelude.{◌≡◌, nat_eq};
ghost use Rattle.std.specs.List.{starts_with};
ghost use Rattle.query_tree.specs.Matches.{is_above, is_below};
ghost use Rattle.segment_postings.specs.Spans.{takes, begins_behind};

use field_schema::{Key, Text};
use query_tree::End;

/// Keys that stand side by side in the order of keys.
#[derive(Debug, Drop)]
pub enum Span<'a> {
    /// Those between two ends.
    Between(&'a End, &'a End),
    /// Strings that begin with a text.
    Strings(&'a Text),
    /// Tokens that begin with a text.
    Tokens(&'a Text),
}

impl<'a> Span<'a> {
    /// Whether it takes a key. It costs a comparison of the key with each end, or with the text.
    pub fn takes(&self, key: &Key) -> bool
        ensures { result ≡ takes self.now key.now }
    {
        match (self, key) {
            (Span::Between(low, high), _) => is_above(low, key) && is_below(high, key),
            (Span::Strings(prefix), Key::Str(text)) => begins_with(text, prefix),
            (Span::Tokens(prefix), Key::Token(text)) => begins_with(text, prefix),
            _ => false,
        }
    }

    // Whether a key stands before all that it takes.
    pub(crate) fn begins_behind(&self, key: &Key) -> bool
        ensures { result ≡ begins_behind self.now key.now }
    {
        match (self, key) {
            (Span::Between(low, _), _) => !is_above(low, key),
            (Span::Strings(prefix), Key::Str(text)) => text.cmp(prefix).is_lt(),
            (Span::Strings(_), _) => false,
            (Span::Tokens(prefix), Key::Token(text)) => text.cmp(prefix).is_lt(),
            (Span::Tokens(_), _) => true,
        }
    }
}

// Whether a key lies above the lower end.
fn is_above(low: &End, key: &Key) -> bool
    ensures { result ≡ is_above low.now key.now }
{
    match low {
        End::Open => true,
        End::At {
            key: first,
            inclusive,
        } => {
            let order = first.cmp(key);
            order.is_lt() || (*inclusive && order.is_eq())
        }
    }
}

// Whether a key lies below the upper end.
fn is_below(high: &End, key: &Key) -> bool
    ensures { result ≡ is_below high.now key.now }
{
    match high {
        End::Open => true,
        End::At {
            key: last,
            inclusive,
        } => {
            let place = key.cmp(last);
            place.is_lt() || (*inclusive && place.is_eq())
        }
    }
}

// Whether a text begins with another.
fn begins_with(text: &Text, prefix: &Text) -> bool
    ensures { result ≡ starts_with nat_eq text.now prefix.now }
{
    let bytes = text.get().as_bytes();
    bytes.starts_with(prefix.get().as_bytes())
}
