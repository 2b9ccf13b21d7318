//! Marks of bytes in the texts of rows.
use std::alloc::Global;
use std::test::Fail;

// The bytes that a row's text stands for: `‹0a›` is a byte by its two hexadecimal digits, `‹x*9›` nine times the letter.
pub(crate) fn bytes_of(alloc: Global, text: &str) -> Result<Vec<u8>, Fail> {
    let mut bytes = Vec::new(alloc);
    let mut parts = text.split('‹');
    bytes.extend_from_slice(parts.next().unwrap_or("").as_bytes())?;
    for part in parts {
        let (mark, plain) = part.split_once('›').ok_or("no end of a mark")?;
        let (what, count) = mark.split_once('*').unwrap_or((mark, "1"));
        let run = vec![in alloc; byte_of(what)?; count.parse::<usize>()?]?;
        bytes.extend_from_slice(&run)?;
        bytes.extend_from_slice(plain.as_bytes())?;
    }
    Ok(bytes)
}

// A byte by its digits or by its letter.
fn byte_of(what: &str) -> Result<u8, Fail> {
    match what.as_bytes() {
        [letter] => Ok(*letter),
        _ => Ok(u8::from_str_radix(what, 16)?),
    }
}

// The text that a row's text stands for.
pub(crate) fn text_of(alloc: Global, text: &str) -> Result<String, Fail> {
    Ok(String::from_utf8(bytes_of(alloc, text)?)?)
}

// A text as it stands in a row.
pub(crate) fn marked(alloc: Global, text: &str) -> Result<String, Fail> {
    let text = text.replace(alloc, "\n", "‹0a›")?;
    Ok(text.replace(alloc, "\r", "‹0d›")?)
}
