//! What a program spools.
use kdf_media::Block;

/// A text that a program sent to one of eight streams.
#[derive(Drop)]
pub struct Spooled {
    /// The stream, 0 to 7.
    pub stream: u8,
    /// Its characters.
    pub text: Block,
}
