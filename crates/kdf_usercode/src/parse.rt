//! Reading a text from its front.

ghost use Rattle.std.specs.Prelude.{◌≡◌, map};
ghost use Rattle.std.specs.Option.{option_copied};
ghost use Rattle.kdf_usercode.specs.Parse.{row_in, strip, text_behind};

/// What the first row with this name means.
pub fn row_in<T: Copy>(rows: &[(&str, T)], text: &[u8]) -> Option<T>
    ensures { result ≡ row_in (map (λ row. (row.0.now, row.1)) rows.now) text.now }
{
    for row in rows {
        if row.0.as_bytes() == text {
            return Some(row.1);
        }
    }
    None
}

/// What stands after the prefix, where the text begins with it.
pub fn strip<'a>(text: &'a [u8], prefix: &[u8]) -> Option<&'a [u8]>
    ensures { option_copied result ≡ strip prefix.now text.now }
{
    if prefix.len() <= text.len() && &text[..prefix.len()] == prefix {
        Some(&text[prefix.len()..])
    } else {
        None
    }
}

/// What stands after the first such byte, or nothing.
pub fn text_behind(text: &[u8], byte: u8) -> &[u8]
    ensures { result.now ≡ text_behind byte text.now }
{
    for (i, b) in text.iter().enumerate() {
        if *b == byte {
            return &text[i + 1..];
        }
    }
    &[]
}
