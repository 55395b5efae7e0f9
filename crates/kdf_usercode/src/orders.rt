//! Orders that name no store and no reference: the ranges of their numbers, and what they say.

ghost use Rattle.std.specs.Prelude.{◌≡◌, ◌-◌, ◌%◌, ◌<◌, [], pos, ◌≤ℤ◌};
ghost use Rattle.kdf_usercode.specs.Faults.{lesser, least, founds};
ghost use Rattle.kdf_usercode.specs.Range.{range_faults};
ghost use Rattle.kdf_usercode.specs.Orders.{order_form, octal_order, formless, order_ranges, octal_order_faults, order_of};

use crate::fault::DeckFault;
use crate::octal::{all_octal, octal};
use crate::order_names::{ORDERS, OrderForm, REFUSED};
use crate::parse::{row_in, text_behind};
use crate::range::{Q, Range, number, q_at, short, with_range};
use kdf_fault::Found;
use kdf_syllable::{Amount, Order};

/// The amount of a shift to the left.
pub const LEFT: Range = Range {
    low: 0,
    high: 63,
    fault: DeckFault::BadNumber,
};

/// The amount of a shift to the right.
pub const RIGHT: Range = Range {
    low: 0,
    high: 64,
    fault: DeckFault::BadNumber,
};

/// How many half words an exit goes on.
pub const EXIT: Range = Range {
    low: 0,
    high: 255,
    fault: DeckFault::BadNumber,
};

/// What `SET` takes with a sign or without.
pub const UP: Range = Range {
    low: 0,
    high: 32767,
    fault: DeckFault::BadNumber,
};

pub const DOWN: Range = Range {
    low: 0,
    high: 32768,
    fault: DeckFault::BadNumber,
};

/// What `SETB` takes.
pub const OCTAL_SET: Range = Range {
    low: 0,
    high: 65535,
    fault: DeckFault::BadNumber,
};

/// `SETB` and octal digits.
#[tactic(auto, unfolding(crate::specs::Orders::octal_order))]
fn octal_order(shape: &[u8], text: &[u8]) -> Option<OrderForm>
    ensures { result ≡ octal_order shape.now text.now }
{
    if shape == b"SETB0".as_slice() && all_octal(text_behind(text, b'B')) {
        Some(OrderForm::SetOctal)
    } else {
        None
    }
}

/// The order of a statement, by its shape and its bytes.
#[tactic(auto, unfolding(crate::specs::Orders::order_form))]
pub fn order_form(shape: &[u8], text: &[u8]) -> Option<OrderForm>
    ensures { result ≡ order_form shape.now text.now }
{
    if let Some(form) = row_in(&ORDERS, shape) {
        return Some(form);
    }
    octal_order(shape, text)
}

/// The fault of a statement that has no form.
#[tactic(auto, unfolding(crate::specs::Orders::formless))]
pub fn formless(shape: &[u8]) -> DeckFault
    ensures { result ≡ formless shape.now }
{
    row_in(&REFUSED, shape).unwrap_or(DeckFault::UnknownOrder)
}

/// The range of each number, in the order in which they stand.
pub fn order_ranges(form: OrderForm) -> &'static [Range]
    ensures { result.now ≡ order_ranges form }
{
    match form {
        OrderForm::Plain { .. } | OrderForm::ExitNone | OrderForm::SetOctal => &[],
        OrderForm::Indirect { .. } | OrderForm::Copies { .. } => &[Q, Q],
        OrderForm::Single { .. }
        | OrderForm::ShiftCount { .. }
        | OrderForm::Device { .. }
        | OrderForm::Query { .. } => &[Q],
        OrderForm::ShiftUp { .. } => &[LEFT],
        OrderForm::ShiftDown { .. } => &[RIGHT],
        OrderForm::Exit => &[EXIT],
        OrderForm::SetUp => &[UP],
        OrderForm::SetDown => &[DOWN],
    }
}

/// The fault of the octal digits, after those before.
pub fn with_octal_order(
    best: Option<Found<DeckFault>>,
    place: u32,
    form: OrderForm,
    text: &[u8],
) -> Option<Found<DeckFault>>
    ensures { result ≡ lesser best (least (founds place (octal_order_faults form text.now))) }
{
    match form {
        OrderForm::SetOctal => with_range(best, place, OCTAL_SET, octal(text_behind(text, b'B'))),
        _ => best,
    }
}

fn amount(n: u64) -> i8
    ensures fits { n < 128 → result ≡ pos n }
    ensures positive { pos 0 ≤ℤ result }
{
    (n % 128) as i8
}

fn fixed(code: u8, n: i8) -> Order
    ensures { result ≡ Order.Shift code (Amount.Fixed n) }
{
    Order::Shift {
        code,
        by: Amount::Fixed { n },
    }
}

fn set(constant: u16) -> Order
    ensures { result ≡ Order.Set constant }
{
    Order::Set { constant }
}

fn negative(n: u64) -> u16
    ensures { n < 65536 → result ≡ (65536 - n) % 65536 }
{
    0u16.wrapping_sub(short(n))
}

fn counted(code: u8, q: u8) -> Order
    ensures { result ≡ Order.Shift code (Amount.Count q) }
{
    Order::Shift {
        code,
        by: Amount::Count { q },
    }
}

fn exit(n: u64) -> Order
    ensures { n < 256 → result ≡ Order.Exit n }
{
    Order::Exit { n: (n % 256) as u8 }
}

/// The order, where each number is in its range.
pub fn order_of(form: OrderForm, numbers: &[u64], text: &[u8]) -> Order
    requires numbers { range_faults (order_ranges form) numbers.now ≡ [] }
    requires digits { octal_order_faults form text.now ≡ [] }
    ensures { result ≡ order_of form numbers.now text.now }
{
    let n = number(numbers, 0);
    let q = q_at(numbers, 0);
    let second = q_at(numbers, 1);
    match form {
        OrderForm::Plain { code } => Order::Plain { code },
        OrderForm::Indirect { code } => {
            let (k, q) = (q, second);
            Order::Indirect { code, k, q }
        }
        OrderForm::Single { code } => Order::Single { code, q },
        OrderForm::Copies { code } => {
            let k = second;
            Order::Copies { code, q, k }
        }
        OrderForm::ShiftUp { code } => fixed(code, amount(n)),
        OrderForm::ShiftDown { code } => fixed(code, 0 - amount(n)),
        OrderForm::ShiftCount { code } => counted(code, q),
        OrderForm::Device { code } => Order::Device { code, q },
        OrderForm::Query { b } => Order::Query { b, q },
        OrderForm::ExitNone => exit(0),
        OrderForm::Exit => exit(n),
        OrderForm::SetUp => set(short(n)),
        OrderForm::SetDown => set(negative(n)),
        OrderForm::SetOctal => set(short(octal(text_behind(text, b'B')))),
    }
}
