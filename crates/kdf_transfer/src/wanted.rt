//! What a claim looks for.
use kdf_journal::Kind;
use kdf_word::Word;

/// What a claim looks for.
#[derive(Drop)]
pub enum Wanted {
    /// A device of this kind.
    Kinded(Kind),
    /// A tape with this label.
    Labelled(Word),
}
