//! The forms of statements, the faults of their numbers, and what they say.

ghost use Rattle.std.specs.Prelude.{false, ◌≡◌, []};
ghost use Rattle.kdf_usercode.specs.Faults.{lesser, least, founds};
ghost use Rattle.kdf_usercode.specs.Range.{range_faults};
ghost use Rattle.kdf_usercode.specs.Stores.{store_ranges, access_ranges, named_of};
ghost use Rattle.kdf_usercode.specs.Forms.{form_in, is_constant, ranges_of, text_faults, store_of, what_of};

use crate::constants::{ValueForm, constant_form, value_of, with_value, with_value_text};
use crate::fault::DeckFault;
use crate::jumps::{TargetForm, Test, go_of, jump_form, jump_ranges};
use crate::order_names::OrderForm;
use crate::orders::{order_form, order_of, order_ranges, with_octal_order};
use crate::parse::row_in;
use crate::phase::Stage;
use crate::range::{
    OPENED, Q, REFERENCE, Range, STORE, behind_first, number, q_at, short_at, with_range,
    with_ranges,
};
use crate::statement::What;
use crate::stores::{
    Direction, StoreName, Suffix, access_form, access_of, access_ranges, address_form, named_of,
    store_ranges,
};
use kdf_fault::Found;

/// What a statement is, without its numbers.
#[derive(Clone, Copy)]
pub enum Form {
    Program,
    ProgramStores,
    Part,
    PartStores,
    Finish,
    Star,
    Reference,
    Short,
    Plain {
        order: OrderForm,
    },
    Constant {
        value: ValueForm,
    },
    Go {
        test: Test,
        target: TargetForm,
    },
    Access {
        direction: Direction,
        name: StoreName,
        suffix: Suffix,
    },
    SetAddress {
        name: StoreName,
    },
}

/// The statements that aren't orders, and the short loop, with `0` where a number stands.
pub const STATEMENTS: [(&str, Form); 8] = [
    ("PROGRAM", Form::Program),
    ("PROGRAMV0", Form::ProgramStores),
    ("P0", Form::Part),
    ("P0V0", Form::PartStores),
    ("FINISH", Form::Finish),
    ("*", Form::Star),
    ("0", Form::Reference),
    ("J0C0NZS", Form::Short),
];

/// The form of a statement, by its shape and its bytes.
#[tactic(auto, unfolding(crate::specs::Forms::form_in))]
pub fn form_in(shape: &[u8], text: &[u8]) -> Option<Form>
    ensures { result ≡ form_in shape.now text.now }
{
    if let Some(form) = row_in(&STATEMENTS, shape) {
        return Some(form);
    }
    if let Some(order) = order_form(shape, text) {
        return Some(Form::Plain { order });
    }
    if let Some(value) = constant_form(shape, text) {
        return Some(Form::Constant { value });
    }
    if let Some((test, target)) = jump_form(shape) {
        return Some(Form::Go { test, target });
    }
    if let Some(name) = address_form(shape) {
        return Some(Form::SetAddress { name });
    }
    let (direction, name, suffix) = access_form(shape)?;
    Some(Form::Access {
        direction,
        name,
        suffix,
    })
}

/// Whether this is a constant.
pub fn is_constant(form: Form) -> bool
    ensures { result ≡ is_constant form }
{
    matches!(form, Form::Constant { .. })
}

/// The range of each number, in the order in which they stand.
fn ranges_of(form: Form) -> &'static [Range]
    requires { is_constant form ≡ false }
    ensures { result.now ≡ ranges_of form }
{
    match form {
        Form::Program | Form::Finish | Form::Star => &[],
        Form::ProgramStores => &[STORE],
        Form::Part => &[OPENED],
        Form::PartStores => &[OPENED, STORE],
        Form::Reference => &[REFERENCE],
        Form::Short => &[REFERENCE, Q],
        Form::Plain { order } => order_ranges(order),
        Form::Constant { .. } => unreachable!(),
        Form::Go { test, target } => jump_ranges(test, target),
        Form::Access { name, suffix, .. } => access_ranges(name, suffix),
        Form::SetAddress { name } => store_ranges(name),
    }
}

/// The faults of the numbers of a statement, after those before.
pub fn with_numbers(
    best: Option<Found<DeckFault>>,
    place: u32,
    form: Form,
    numbers: &[u64],
) -> Option<Found<DeckFault>>
    ensures { result ≡ lesser best (least (founds place
        (range_faults (ranges_of form) numbers.now))) }
{
    match form {
        Form::Constant { value } => {
            let first = with_range(best, place, STORE, number(numbers, 0));
            with_value(first, place, value, behind_first(numbers, 1))
        }
        _ => with_ranges(best, place, ranges_of(form), numbers),
    }
}

/// The fault of octal digits or characters, after those before.
pub fn with_text(
    best: Option<Found<DeckFault>>,
    place: u32,
    form: Form,
    text: &[u8],
) -> Option<Found<DeckFault>>
    ensures { result ≡ lesser best (least (founds place (text_faults form text.now))) }
{
    match form {
        Form::Plain { order } => with_octal_order(best, place, order, text),
        Form::Constant { value } => with_value_text(best, place, value, text),
        _ => best,
    }
}

/// A store that is declared before `PROGRAM`, and fetched or kept after it.
fn store_of(
    stage: Stage,
    direction: Direction,
    name: StoreName,
    suffix: Suffix,
    numbers: &[u64],
) -> What
    requires { range_faults (access_ranges name suffix) numbers.now ≡ [] }
    ensures { result ≡ store_of stage direction name suffix numbers.now }
{
    if let (Stage::Heading, Direction::Fetch, StoreName::Y { group }, Suffix::Nothing) = (
        stage, direction, name, suffix,
    ) {
        return What::Declare {
            group,
            n: short_at(numbers, 0),
        };
    }
    access_of(direction, name, suffix, numbers)
}

fn set_address(name: StoreName, numbers: &[u64]) -> What
    requires { range_faults (store_ranges name) numbers.now ≡ [] }
    ensures { result ≡ What.SetAddress (named_of name numbers.now) }
{
    What::SetAddress {
        place: named_of(name, numbers),
    }
}

/// What a statement says, where each number is in its range.
pub fn what_of(stage: Stage, form: Form, numbers: &[u64], text: &[u8]) -> What
    requires numbers { range_faults (ranges_of form) numbers.now ≡ [] }
    requires text { text_faults form text.now ≡ [] }
    ensures { result ≡ what_of stage form numbers.now text.now }
{
    let n = short_at(numbers, 0);
    match form {
        Form::Program => What::Program { v: None },
        Form::ProgramStores => What::Program { v: Some(n) },
        Form::Part => What::Part { p: n, v: None },
        Form::PartStores => {
            let v = Some(short_at(numbers, 1));
            What::Part { p: n, v }
        }
        Form::Finish => What::Finish,
        Form::Star => What::Star,
        Form::Reference => What::Reference { r: n },
        Form::Short => {
            let q = q_at(numbers, 1);
            What::Short { r: n, q }
        }
        Form::Plain { order } => {
            let order = order_of(order, numbers, text);
            What::Plain { order }
        }
        Form::Constant { value } => {
            let value = value_of(value, behind_first(numbers, 1), text);
            What::Constant { n, value }
        }
        Form::Go { test, target } => go_of(test, target, numbers),
        Form::Access {
            direction,
            name,
            suffix,
        } => store_of(stage, direction, name, suffix, numbers),
        Form::SetAddress { name } => set_address(name, numbers),
    }
}
