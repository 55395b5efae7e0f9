//! How a try to obey an order goes.
use crate::{Failure, Need};

/// How a try to obey an order went.
#[derive(Clone, Copy, PartialEq, Eq)]
pub enum Step {
    /// The order was obeyed, and the program goes on.
    Done,
    /// The order waits for this, and nothing was changed.
    Held(Need),
    /// The order failed, and so the program has.
    Fails(Failure),
    /// The order ended the program.
    Ends,
}
