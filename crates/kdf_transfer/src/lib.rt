//! Devices, and the transfers that move words between a device and the store, word by word through a ring or in one step. What an order
//! moves and what it leaves is one table, in `specs/AtOnce`; a transfer that is cut anywhere has moved the first words of it.
#![tactic(auto)]

mod area;
mod device;
mod end_word;
pub mod examples;
mod finished;
mod flight;
pub mod laws;
mod one_step;
mod order;
mod ring;
mod run;
mod test;
mod text;
mod transfer;
mod wanted;

pub use area::Area;
pub use device::Device;
pub use end_word::push_codes;
pub use one_step::at_once;
pub use order::TransferOrder;
pub use ring::Ring;
pub use test::Test;
pub use text::{characters_in, up_to_end};
pub use transfer::Transfer;
pub use wanted::Wanted;
