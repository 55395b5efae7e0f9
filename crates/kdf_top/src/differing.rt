//! Where two texts differ.
ghost use Rattle.std.specs.Prelude.{◌≡◌, ◌≢◌, ◌≤◌, ◌<◌, ◌^◌, ◌∷◌, ◌++◌, ◌==◌, false, true, length, IfNone, IfSome};
ghost use Rattle.std.specs.List.{list_any};
ghost use Rattle.kdf_text.specs.Lines.{lines};
ghost use Rattle.kdf_snapshot.specs.Differs.{IsDifference};

use kdf_text::LINE_END;

/// The place of the first line, counted from 0, at which two texts differ; where one has no more lines, they differ after its last.
/// `None` exactly where they have the same lines. The first text has fewer than 2^32 bytes.
pub fn first_other_line(these: &[u8], those: &[u8]) -> Option<u32>
    requires { length these.now < 2 ^ 32 }
    ensures some { IfSome result (λ n. IsDifference (lines these.now) (lines those.now) n) }
    ensures within { IfSome result (λ n. n ≤ length these.now) }
    ensures none { IfNone result (lines these.now ≡ lines those.now) }
{
    let mut rest = these;
    let mut other_rest = those;
    let mut place = 0;
    while !rest.is_empty() {
        if other_rest.is_empty() {
            return Some(place);
        }
        let (line, after) = first_line(rest);
        let (other_line, other_after) = first_line(other_rest);
        if !is_same(line, other_line) {
            return Some(place);
        }
        rest = after;
        other_rest = other_after;
        place += 1;
    }
    if other_rest.is_empty() {
        None
    } else {
        Some(place)
    }
}

fn is_same(line: &[u8], other_line: &[u8]) -> bool
    ensures same { result ≡ true → line.now ≡ other_line.now }
    ensures apart { result ≡ false → line.now ≢ other_line.now }
{
    line == other_line
}

/// The first line of a text that isn't empty, and what stands after it.
fn first_line(text: &[u8]) -> (&[u8], &[u8])
    requires { 0 < length text.now }
    ensures lines { lines text.now ≡ result.0.now ∷ lines result.1.now }
    ensures shorter { length result.1.now < length text.now }
{
    match cut(text) {
        Some(cut) => cut,
        None => (text, &[]),
    }
}

/// What stands before and after the first end of a line; `None` exactly where there is none.
fn cut(text: &[u8]) -> Option<(&[u8], &[u8])>
    ensures joined { IfSome result (λ x. text.now ≡ x.0.now ++ 10 ∷ x.1.now) }
    ensures first { IfSome result (λ x. list_any (λ byte. byte == 10) x.0.now ≡ false) }
    ensures none { IfNone result (list_any (λ byte. byte == 10) text.now ≡ false) }
{
    for (i, byte) in text.iter().enumerate() {
        if *byte == LINE_END {
            return Some((&text[..i], &text[i + 1..]));
        }
    }
    None
}
