//! The type of orders.
use crate::amount::Amount;

/// An order. Its codes and conditions are hexadecimal here, and the numbers `k` and `q` of Q-stores are below 16.
#[derive(Clone, Copy, PartialEq, Eq)]
pub enum Order {
    /// One syllable, its code: 01 to 21, but not 13.
    Plain { code: u8 },
    /// A fetch or a store at the sum of the modifiers of two Q-stores, codes 40 to 4F.
    Indirect { code: u8, k: u8, q: u8 },
    /// An order on one Q-store, codes 50 to 62, or the short loop, code 6F.
    Single { code: u8, q: u8 },
    /// Parts of Q-store `q` are copied to Q-store `k`, codes 63 to 69.
    Copies { code: u8, q: u8, k: u8 },
    /// A shift, codes 6A to 6E.
    Shift { code: u8, by: Amount },
    /// A transfer, a skip or a rewinding on the device that Q-store `q` names, codes 70 to 7D.
    Device { code: u8, q: u8 },
    /// A test of the device that Q-store `q` names, by the number `b` of the test, 0 to 5.
    Query { b: u8, q: u8 },
    /// A jump on the condition `c`, 00 to 31. The target is 8192 times a syllable, 0 to 5, and a
    /// word below 8192.
    Jump { c: u8, target: u16 },
    /// The return from a subroutine, `n` half words after the order that called it.
    Exit { n: u8 },
    /// A fetch, or a store where `t` is true, at the sum of the address `a`, below 32768, and the
    /// modifier of Q-store `q`, which is stepped where `u` is true.
    Direct { t: bool, u: bool, q: u8, a: u16 },
    /// A constant of 16 bits, brought to the nest with its sign extended.
    Set { constant: u16 },
}
