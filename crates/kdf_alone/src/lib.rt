//! A program run alone: no groups, no lockout, and transfers that finish at once.
#![tactic(auto)]

mod alone;
mod loading;
mod lone_place;
mod lone_port;
mod obeying;
mod stint;
mod text;
pub mod worked;

pub use alone::Alone;
pub use loading::load_bench;
pub use lone_port::LonePort;
