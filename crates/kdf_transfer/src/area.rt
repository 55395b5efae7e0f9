//! Areas.
ghost use Rattle.std.specs.Prelude.{◌≡◌, ◌+◌, ◌-◌, ◌<◌, ◌≤◌, true};
ghost use Rattle.kdf_transfer.specs.AtOnce.{area_len, has_area, place_of};

use crate::TransferOrder;

/// An area of the store, by its first and its last place.
#[derive(Clone, Copy)]
pub struct Area {
    pub first: usize,
    pub last: usize,
}

/// How many words the area of an order has.
pub(crate) fn words_in(order: TransferOrder, area: Area) -> u16
    requires { has_area order ≡ true → (area.first ≤ area.last) × (area.last ≤ area.first + 4095) }
    ensures value { result ≡ area_len order area.first area.last }
    ensures few { result ≤ 4096 }
{
    if order.has_area() {
        (area.last - area.first + 1) as u16
    } else {
        0
    }
}

/// The place of a word.
pub(crate) fn place_at(order: TransferOrder, area: Area, i: u16) -> usize
    requires rising { area.first ≤ area.last }
    requires inside { i < area.last + 1 - area.first }
    ensures value { result ≡ place_of order area.first area.last i }
    ensures within { (area.first ≤ result) × (result ≤ area.last) }
{
    if order.is_backward() {
        area.last - usize::from(i)
    } else {
        area.first + usize::from(i)
    }
}
