//! Programs.
use crate::Stint;
use kdf_processor::{Need, Registers, Spooled};

/// A program of the machine. Its words are in the store and in the leases of its transfers; its devices, and those that
/// the pool lent to it, are in their places.
#[derive(Drop)]
pub struct Program {
    /// The number of its slot.
    pub p: u8,
    pub registers: Registers,
    /// The devices that it claimed, by number.
    pub claimed: [bool; 16],
    /// What it spooled, the oldest first.
    pub spooled: Vec<Spooled>,
    /// Its stints, in the order in which the devices were taken.
    pub stints: Vec<Stint>,
    /// The need of its last entry, where that entry is a hold.
    pub hold: Option<Need>,
}
