//! Slots as they were loaded.
use kdf_journal::Kind;
use kdf_transfer::Device;
use kdf_word::Word;

/// A slot as it was loaded.
#[derive(Drop)]
pub struct Loaded {
    /// Its number, 0 to 3.
    pub p: u8,
    /// The size of its store, in words.
    pub size: u16,
    /// The words of its image, at the front of its store.
    pub words: Vec<Word>,
    /// Its devices with their numbers, 0 to 15.
    pub devices: Vec<(u8, Device)>,
    /// The devices of the pool, with their numbers, 0 to 15, and their kinds.
    pub pool: Vec<(u8, Kind)>,
    /// The installation's service answers its program.
    pub served: bool,
}
