//! The words of a command, as a caller hands them in.
ghost use Rattle.std.specs.Prelude.{◌≡◌, IfOk, map, string_bytes};
ghost use Rattle.std.specs.Str.Lines.{lines};
ghost use Rattle.kdf_engine.specs.Words.{words_in};

use std::alloc::{AllocError, Global};

/// The words that stand one to a line; a text that isn't UTF-8 has none.
pub fn words_of(alloc: Global, words: &[u8]) -> Result<Vec<String>, AllocError>
    ensures { IfOk result (λ all. map string_bytes all.items ≡ words_in words.now) }
{
    let Ok(words) = str::from_utf8(words) else {
        return Ok(Vec::new(alloc));
    };
    words_of_text(alloc, words)
}

/// The words that stand one to a line.
fn words_of_text(alloc: Global, words: &str) -> Result<Vec<String>, AllocError>
    ensures { IfOk result (λ all. map string_bytes all.items ≡ lines words.now) }
{
    let lines = lines_of(alloc, words)?;
    own_words(alloc, &lines)
}

/// The lines of a text.
fn lines_of(alloc: Global, text: &str) -> Result<Vec<&str>, AllocError>
    ensures { IfOk result (λ all. map (λ x. x.now) all.items ≡ lines text.now) }
{
    text.lines().collect(alloc)
}

/// Words with memory of their own.
fn own_words(alloc: Global, words: &[&str]) -> Result<Vec<String>, AllocError>
    ensures { IfOk result (λ all. map string_bytes all.items ≡ map (λ x. x.now) words.now) }
{
    let mut all = Vec::new(alloc);
    for word in words {
        all.push(String::from_str(alloc, word)?)?;
    }
    Ok(all)
}
