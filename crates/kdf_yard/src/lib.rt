//! The yard: programs that share a store and devices, and have their turns there. It has no journal: what a turn needs to
//! know of one, it is told. Loading, ports, turns, and the search for the program that is next.
#![tactic(auto)]

mod devices;
mod dispatch;
mod fill;
mod hearing;
mod load;
mod machine_port;
mod moment;
mod moves;
mod next;
mod program;
mod remark;
mod shown;
mod site;
mod slot;
mod stint;
mod tries;
mod yard;

pub use dispatch::{Batch, window_of};
use kdf_places::Place;
pub use load::load_yard;
use moment::Moment;
pub use moves::word_of;
pub use next::is_any_on;
pub use program::Program;
pub use remark::Remark;
pub use shown::{
    device_in, is_claimed_in, registers_of, stint_in, stints_of, texts_of, window_given,
};
use site::Stand;
pub use slot::Loaded;
pub use stint::Stint;
pub use yard::Yard;
