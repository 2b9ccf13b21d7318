ghost use Rattle.std.specs.Prelude.{◌≡◌, ◌∷◌, ◌++◌, [], IfOk, OnOk, filter, string_bytes};
ghost use Rattle.field_schema.specs.Tokens.{tokens as tokens_of, is_token_byte, is_filled};

use crate::memory::NoMemory;
use crate::text::{Text, Texts};
use std::alloc::Global;
use std::mem;

/// The tokens of a text, in their order.
///
/// A token is as long a run as can be of ASCII's letters and digits and of characters beyond ASCII. `A` to `Z`
/// become `a` to `z`, and every other character stays as it is. It costs the text's length.
#[tactic(auto, using(crate::proofs::TokenRuns::after_is_tokens, crate::proofs::TokenRuns::after_goes_on, crate::proofs::TokenRuns::after_ends))]
pub fn tokens(alloc: Global, text: &str) -> Result<Texts, NoMemory>
    ensures { IfOk result (λ t. t ≡ tokens_of text.now) }
{
    let mut found = Vec::new(alloc);
    let mut token = String::new(alloc);
    for c in text.chars() {
        if is_in_token(c) {
            token.push(c.to_ascii_lowercase())?;
        } else {
            let ended = mem::replace(&mut token, String::new(alloc));
            keep(&mut found, ended)?;
        }
    }
    keep(&mut found, token)?;
    Ok(Texts::new(found))
}

// A character that stands in tokens.
fn is_in_token(c: char) -> bool
    ensures { result ≡ is_token_byte c }
{
    c.is_ascii_alphanumeric() || !c.is_ascii()
}

// Adds a token that is not empty.
fn keep(found: &mut Vec<Text>, token: String) -> Result<(), NoMemory>
    ensures { OnOk result (found.new.items ≡ found.old.items ++ filter is_filled (string_bytes token ∷ [])) }
{
    if !token.is_empty() {
        found.push(Text::new(token))?;
    }
    Ok(())
}
