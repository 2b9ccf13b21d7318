ghost use Rattle.std.specs.Prelude.{◌≡◌};
ghost use Rattle.field_schema.specs.ValueTexts.{long_text as long_of_text, begins_true as is_true_text, truth_text as text_of_truth};

/// The number that a text writes: an optional sign and at least one digit, within 64 signed bits; None exactly
/// where it writes none. It costs the text's length.
pub fn long_text(text: &str) -> Option<i64>
    ensures { result ≡ long_of_text text.now }
{
    text.parse::<i64>().ok()
}

/// Whether a truth value's text begins with `1`, `t` or `T`. It costs nothing.
pub fn begins_true(text: &str) -> bool
    ensures { result ≡ is_true_text text.now }
{
    matches!(text.as_bytes().first(), Some(b'1' | b't' | b'T'))
}

/// `true` or `false`. It costs nothing.
pub fn truth_text(truth: bool) -> &'static str
    ensures { result.now ≡ text_of_truth truth }
{
    if truth { "true" } else { "false" }
}
