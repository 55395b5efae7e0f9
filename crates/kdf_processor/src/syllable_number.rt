//! Syllable numbers: six for each of 8,192 words, counted around.
ghost use Rattle.std.specs.Prelude.{◌≡◌, ◌%◌};
ghost use Rattle.kdf_processor.specs.Table.{syllable_after};

/// How many syllable numbers there are.
const SYLLABLES: u32 = 49_152;

/// The syllable number that is `count` syllables on.
#[inline(always)]
pub fn syllable_after(at: u16, count: u16) -> u16
    ensures { result ≡ syllable_after at count }
{
    let number = u32::from(at) + u32::from(count);
    if number < SYLLABLES {
        number as u16
    } else {
        around(number)
    }
}

/// The syllable number of one that has come to the end. It is a call, since it is seldom made.
#[inline(never)]
fn around(number: u32) -> u16
    ensures { result ≡ number % 49152 }
{
    (number % SYLLABLES) as u16
}
