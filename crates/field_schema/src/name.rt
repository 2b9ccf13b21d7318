ghost use Rattle.std.specs.Prelude.{◌≡◌};
ghost use Rattle.std.specs.List.{list_all, list_any};
ghost use Rattle.field_schema.specs.Bytes.{bytes_eq};
ghost use Rattle.field_schema.specs.Names.{is_field_name, is_name_byte, begins_name, reserved_names};

// 1 to 64 ASCII letters, digits and `_`, not beginning with a digit, and not reserved.
pub(crate) fn is_field_name(name: &str) -> bool
    ensures { result ≡ is_field_name name.now }
{
    let bytes = name.as_bytes();
    begins_name(bytes) && bytes.len() <= 64 && are_name_bytes(bytes) && !is_reserved(name)
}

// Whether a letter or `_` stands first.
fn begins_name(bytes: &[u8]) -> bool
    ensures { result ≡ begins_name bytes.now }
{
    match bytes.first() {
        Some(c) => c.is_ascii_alphabetic() || *c == b'_',
        None => false,
    }
}

// Whether all are letters, digits or `_`.
fn are_name_bytes(bytes: &[u8]) -> bool
    ensures { result ≡ list_all is_name_byte bytes.now }
{
    bytes.iter().all(|c| is_name_byte(*c))
}

// A letter, a digit or `_`.
fn is_name_byte(c: u8) -> bool
    ensures { result ≡ is_name_byte c }
{
    c.is_ascii_alphanumeric() || c == b'_'
}

// A name that means something else in a query or a sort.
fn is_reserved(name: &str) -> bool
    ensures { result ≡ list_any (bytes_eq name.now) reserved_names }
{
    matches!(name, "score" | "_docid_" | "AND" | "OR" | "NOT" | "TO")
}
