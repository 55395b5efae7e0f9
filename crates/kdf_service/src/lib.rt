//! An installation's service: a rule from words to words, which programs ask by OUT 64.
//!
//! The rule is a closure. What is known of it, `IsService`, is asked by each call that is lent a service, because a type can't keep it.
#![tactic(auto)]

mod service;

pub use service::Service;
