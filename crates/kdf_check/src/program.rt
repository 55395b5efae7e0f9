//! A program that is followed.

use kdf_alone::LonePort;
use kdf_processor::{Need, Registers};

/// A program that is followed by itself.
#[derive(Drop)]
pub struct Program {
    pub p: u8,
    pub registers: Registers,
    pub bench: LonePort,
    /// What held it, where it was held when it was last its turn.
    pub hold: Option<Need>,
}
