//! End Message, which ends what PREQ reads and what PWEQ and LPEQ write.
ghost use Rattle.std.specs.Prelude.{◌≡◌, ◌==◌, ◌≤◌, length, position};
ghost use Rattle.kdf_media.specs.Media.{has_end, through_end};

/// The code of End Message.
const END_MESSAGE: u8 = 0o75;

/// The characters up to and with the first End Message, or all.
pub fn through_end(codes: &[u8]) -> &[u8]
    ensures through { result.now ≡ through_end codes.now }
    ensures within { length result.now ≤ length codes.now }
{
    match first_end(codes) {
        Some(place) => &codes[..place + 1],
        None => codes,
    }
}

/// The place of the first End Message.
fn first_end(codes: &[u8]) -> Option<usize>
    ensures { result ≡ position (λ code. code == 61) codes.now }
{
    codes.iter().position(|code| *code == END_MESSAGE)
}

/// Whether an End Message is among the characters.
pub(crate) fn has_end(codes: &[u8]) -> bool
    ensures { result ≡ has_end codes.now }
{
    codes.contains(&END_MESSAGE)
}
