//! The bytes of a deck.

ghost use Rattle.std.specs.Prelude.{◌≡◌, not, position};
ghost use Rattle.std.specs.List.{list_all};
ghost use Rattle.kdf_usercode.specs.Grammar.{is_deck_byte};

/// A byte of a deck with its offset.
#[derive(Clone, Copy)]
pub struct ByteAt {
    pub at: u32,
    pub byte: u8,
}

/// Whether a deck may have the byte.
fn is_deck_byte(byte: u8) -> bool
    ensures { result ≡ is_deck_byte byte }
{
    byte == b'\n' || (byte >= 0x20 && byte <= 0x7e)
}

/// Whether a deck may have each of these bytes. That it goes on at one that a deck may not have lets it test
/// many at a time.
fn are_deck_bytes(text: &[u8]) -> bool
    ensures { result ≡ list_all is_deck_byte text.now }
{
    let mut are_good = true;
    for byte in text {
        are_good &= is_deck_byte(*byte);
    }
    are_good
}

/// Where the first byte stands that no deck may have.
pub fn first_bad(text: &[u8]) -> Option<usize>
    ensures { result ≡ position (λ byte. not (is_deck_byte byte)) text.now }
{
    if are_deck_bytes(text) {
        None
    } else {
        text.iter().position(|byte| !is_deck_byte(*byte))
    }
}
