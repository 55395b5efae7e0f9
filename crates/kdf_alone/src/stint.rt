//! Stints with the devices of the pool.
use kdf_transfer::Device;

/// A stint: a device of the pool was taken, and may have been given back.
#[derive(Drop)]
pub struct Stint {
    /// The number of the device.
    pub d: u8,
    /// The device, once it was given back. Until then it stands at the place of its number.
    pub left: Option<Device>,
}
