//! What is noted of an order.

/// What is noted of an order beside how it ended.
#[derive(Clone, Copy)]
pub enum Remark {
    /// Nothing.
    Quiet,
    /// It began a transfer on this device.
    Began(u8),
    /// It asked, and was told this.
    Told(u64),
    /// It took this device from the pool.
    Took(u8),
    /// It gave this device of the pool back.
    Gave(u8),
}
