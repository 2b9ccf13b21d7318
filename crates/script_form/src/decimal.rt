ghost use Rattle.std.specs.Prelude.{◌≡◌};
ghost use Rattle.script_form.specs.Decimals.{are_digits as are_decimal_digits, decimal_within as number_within, is_decimal as is_decimal_text};

/// The number that a text writes in decimal, without a sign or a leading zero, where it is one from `low` to `high`. It takes
/// no memory.
pub fn decimal_within(text: &str, low: u32, high: u32) -> Option<u32>
    ensures { result ≡ number_within low high text.now }
{
    if !is_decimal(text) {
        return None;
    }
    let number = text.parse::<u32>().ok()?;
    if low <= number && number <= high {
        Some(number)
    } else {
        None
    }
}

// Whether a text is digits, of which the first is a zero only where it stands alone.
fn is_decimal(text: &str) -> bool
    ensures { result ≡ is_decimal_text text.now }
{
    are_digits(text) && (text.len() == 1 || !text.starts_with('0'))
}

// Whether a text is one or more ASCII digits.
pub(crate) fn are_digits(text: &str) -> bool
    ensures { result ≡ are_decimal_digits text.now }
{
    !text.is_empty() && text.bytes().all(|byte| byte.is_ascii_digit())
}
