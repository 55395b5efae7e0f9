//! Constants: how each is written, the ranges of its numbers, and its value.

ghost use Rattle.std.specs.Prelude.{false, ◌≡◌, ◌++◌, ◌-◌, ◌%◌, ◌<◌, ◌^◌, []};
ghost use Rattle.kdf_usercode.specs.Faults.{lesser, least, founds};
ghost use Rattle.kdf_usercode.specs.Parse.{opt_map};
ghost use Rattle.kdf_usercode.specs.Range.{range_faults};
ghost use Rattle.kdf_usercode.specs.Constants.{address_item, number_item, item_form, triple_form, octal_value, characters_value, value_form, constant_form, item_ranges, value_ranges, text_value_faults, is_triple, item_of, behind_item, triple_of, value_of};

use crate::characters::{are_characters, characters_word};
use crate::fault::DeckFault;
use crate::octal::{all_octal, octal};
use crate::parse::{row_in, strip, text_behind};
use crate::range::{Range, behind_first, number, short_at, with_range, with_ranges};
use crate::shape::MANY;
use crate::statement::{Item, Value};
use crate::stores::{StoreName, addressed, named_of, store_ranges};
use kdf_fault::Found;
use kdf_word::Word;

/// A part of a constant for a Q-store, without its numbers.
#[derive(Clone, Copy)]
pub enum ItemForm {
    /// A number without a sign or with `+`.
    Up,
    /// A number with `-`.
    Down,
    Address { name: StoreName },
}

/// A constant, without its numbers.
#[derive(Clone, Copy)]
pub enum ValueForm {
    /// A number without a sign or with `+`.
    Up,
    /// A number with `-`.
    Down,
    Octal,
    Characters,
    Triple {
        c: ItemForm,
        i: ItemForm,
        m: ItemForm,
    },
}

/// Constants that are one number.
pub const VALUES: [(&str, ValueForm); 3] = [
    ("0", ValueForm::Up),
    ("+0", ValueForm::Up),
    ("-0", ValueForm::Down),
];

/// What a number takes without a sign or with `+`, and with `-`.
pub const WORD_UP: Range = Range {
    low: 0,
    high: 140_737_488_355_327,
    fault: DeckFault::ConstantRange,
};

pub const WORD_DOWN: Range = Range {
    low: 0,
    high: 140_737_488_355_328,
    fault: DeckFault::ConstantRange,
};

/// What octal digits take.
pub const OCTAL_WORD: Range = Range {
    low: 0,
    high: 281_474_976_710_655,
    fault: DeckFault::ConstantRange,
};

/// How many characters a constant has.
pub const CHARACTERS: Range = Range {
    low: 1,
    high: 8,
    fault: DeckFault::ConstantRange,
};

/// What a part of a constant for a Q-store takes without a sign or with `+`, and with `-`.
pub const BITS_UP: Range = Range {
    low: 0,
    high: 65535,
    fault: DeckFault::ConstantRange,
};

pub const BITS_DOWN: Range = Range {
    low: 0,
    high: 32768,
    fault: DeckFault::ConstantRange,
};

#[tactic(auto, unfolding(crate::specs::Constants::address_item))]
fn address_item(shape: &[u8]) -> Option<(ItemForm, &[u8])>
    ensures { opt_map (λ x. (x.0, x.1.now)) result ≡ address_item shape.now }
{
    let (name, rest) = addressed(shape)?;
    Some((ItemForm::Address { name }, rest))
}

#[tactic(auto, unfolding(crate::specs::Constants::number_item))]
fn number_item(shape: &[u8]) -> Option<(ItemForm, &[u8])>
    ensures { opt_map (λ x. (x.0, x.1.now)) result ≡ number_item shape.now }
{
    if let Some(rest) = strip(shape, b"-0") {
        return Some((ItemForm::Down, rest));
    }
    if let Some(rest) = strip(shape, b"+0") {
        return Some((ItemForm::Up, rest));
    }
    let rest = strip(shape, b"0")?;
    Some((ItemForm::Up, rest))
}

/// A part of a constant for a Q-store in front, and what stands after it.
#[tactic(auto, unfolding(crate::specs::Constants::item_form))]
fn item_form(shape: &[u8]) -> Option<(ItemForm, &[u8])>
    ensures { opt_map (λ x. (x.0, x.1.now)) result ≡ item_form shape.now }
{
    match strip(shape, b"A") {
        Some(rest) => address_item(rest),
        None => number_item(shape),
    }
}

#[tactic(auto, unfolding(crate::specs::Constants::triple_form))]
fn triple_form(shape: &[u8]) -> Option<ValueForm>
    ensures { result ≡ triple_form shape.now }
{
    let rest = strip(shape, b"Q")?;
    let (c, rest) = item_form(rest)?;
    let rest = strip(rest, b"/")?;
    let (i, rest) = item_form(rest)?;
    let rest = strip(rest, b"/")?;
    let (m, rest) = item_form(rest)?;
    if rest.is_empty() {
        Some(ValueForm::Triple { c, i, m })
    } else {
        None
    }
}

#[tactic(auto, unfolding(crate::specs::Constants::octal_value))]
fn octal_value(shape: &[u8], text: &[u8]) -> Option<ValueForm>
    ensures { result ≡ octal_value shape.now text.now }
{
    if shape == b"B0".as_slice() && all_octal(text_behind(text, b'B')) {
        Some(ValueForm::Octal)
    } else {
        None
    }
}

#[tactic(auto, unfolding(crate::specs::Constants::characters_value))]
fn characters_value(shape: &[u8], text: &[u8]) -> Option<ValueForm>
    ensures { result ≡ characters_value shape.now text.now }
{
    let _characters = strip(shape, b"P")?;
    if are_characters(text_behind(text, b'P')) {
        Some(ValueForm::Characters)
    } else {
        None
    }
}

/// The value of a constant, by the shape of what stands after `=` and the bytes of the statement.
#[tactic(auto, unfolding(crate::specs::Constants::value_form))]
fn value_form(shape: &[u8], text: &[u8]) -> Option<ValueForm>
    ensures { result ≡ value_form shape.now text.now }
{
    if let Some(form) = row_in(&VALUES, shape) {
        return Some(form);
    }
    if let Some(form) = triple_form(shape) {
        return Some(form);
    }
    if let Some(form) = octal_value(shape, text) {
        return Some(form);
    }
    characters_value(shape, text)
}

/// `Vn=` and a value.
#[tactic(auto, unfolding(crate::specs::Constants::constant_form))]
pub fn constant_form(shape: &[u8], text: &[u8]) -> Option<ValueForm>
    ensures { result ≡ constant_form shape.now text.now }
{
    let rest = strip(shape, b"V0=")?;
    value_form(rest, text)
}

fn item_ranges(item: ItemForm) -> &'static [Range]
    ensures { result.now ≡ item_ranges item }
{
    match item {
        ItemForm::Up => &[BITS_UP],
        ItemForm::Down => &[BITS_DOWN],
        ItemForm::Address { name } => store_ranges(name),
    }
}

/// The range of each number, where the constant isn't for a Q-store.
fn value_ranges(form: ValueForm) -> &'static [Range]
    requires { is_triple form ≡ false }
    ensures { result.now ≡ value_ranges form }
{
    match form {
        ValueForm::Up => &[WORD_UP],
        ValueForm::Down => &[WORD_DOWN],
        ValueForm::Octal | ValueForm::Characters => &[],
        ValueForm::Triple { .. } => unreachable!(),
    }
}

fn behind_item(form: ItemForm, numbers: &[u64]) -> &[u64]
    ensures { result.now ≡ behind_item form numbers.now }
{
    behind_first(numbers, item_ranges(form).len())
}

fn with_item(
    best: Option<Found<DeckFault>>,
    place: u32,
    item: ItemForm,
    numbers: &[u64],
) -> Option<Found<DeckFault>>
    ensures { result ≡ lesser best (least (founds place
        (range_faults (item_ranges item) numbers.now))) }
{
    with_ranges(best, place, item_ranges(item), numbers)
}

fn with_triple(
    best: Option<Found<DeckFault>>,
    place: u32,
    c: ItemForm,
    i: ItemForm,
    m: ItemForm,
    numbers: &[u64],
) -> Option<Found<DeckFault>>
    ensures { result ≡ lesser best (least (founds place
        (range_faults (item_ranges c ++ (item_ranges i ++ item_ranges m)) numbers.now))) }
{
    let behind_c = behind_item(c, numbers);
    let behind_i = behind_item(i, behind_c);
    let first = with_item(best, place, c, numbers);
    let second = with_item(first, place, i, behind_c);
    with_item(second, place, m, behind_i)
}

/// The faults of the numbers of a constant, after those before.
pub fn with_value(
    best: Option<Found<DeckFault>>,
    place: u32,
    form: ValueForm,
    numbers: &[u64],
) -> Option<Found<DeckFault>>
    ensures { result ≡ lesser best (least (founds place
        (range_faults (value_ranges form) numbers.now))) }
{
    match form {
        ValueForm::Triple { c, i, m } => with_triple(best, place, c, i, m, numbers),
        _ => with_ranges(best, place, value_ranges(form), numbers),
    }
}

/// The fault of octal digits or of characters, after those before.
pub fn with_value_text(
    best: Option<Found<DeckFault>>,
    place: u32,
    form: ValueForm,
    text: &[u8],
) -> Option<Found<DeckFault>>
    ensures { result ≡ lesser best (least (founds place (text_value_faults form text.now))) }
{
    match form {
        ValueForm::Octal => with_range(best, place, OCTAL_WORD, octal(text_behind(text, b'B'))),
        ValueForm::Characters => with_range(
            best,
            place,
            CHARACTERS,
            text_behind(text, b'P').len() as u64,
        ),
        _ => best,
    }
}

fn item_of(form: ItemForm, numbers: &[u64]) -> Item
    requires { range_faults (item_ranges form) numbers.now ≡ [] }
    ensures { result ≡ item_of form numbers.now }
{
    match form {
        ItemForm::Up => Item::Bits {
            bits: short_at(numbers, 0),
        },
        ItemForm::Down => Item::Bits {
            bits: 0u16.wrapping_sub(short_at(numbers, 0)),
        },
        ItemForm::Address { name } => Item::Address {
            place: named_of(name, numbers),
        },
    }
}

fn triple_of(c: ItemForm, i: ItemForm, m: ItemForm, numbers: &[u64]) -> Value
    requires { range_faults (item_ranges c ++ (item_ranges i ++ item_ranges m)) numbers.now ≡ [] }
    ensures { result ≡ triple_of c i m numbers.now }
{
    let behind_c = behind_item(c, numbers);
    let behind_i = behind_item(i, behind_c);
    Value::Triple {
        c: item_of(c, numbers),
        i: item_of(i, behind_c),
        m: item_of(m, behind_i),
    }
}

fn word(n: u64) -> Word
    ensures { n < 2 ^ 48 → result ≡ n }
{
    Word::new(n % MANY)
}

/// The word of a number below 2^48 with a `-`.
fn negative(n: u64) -> Word
    ensures { result ≡ (2 ^ 48 - n) % 2 ^ 48 }
{
    Word::new((MANY - n.min(MANY)) % MANY)
}

/// The value of a constant, where each number is in its range.
pub fn value_of(form: ValueForm, numbers: &[u64], text: &[u8]) -> Value
    requires numbers { range_faults (value_ranges form) numbers.now ≡ [] }
    requires text { text_value_faults form text.now ≡ [] }
    ensures { result ≡ value_of form numbers.now text.now }
{
    match form {
        ValueForm::Up => Value::Number {
            word: word(number(numbers, 0)),
        },
        ValueForm::Down => Value::Number {
            word: negative(number(numbers, 0)),
        },
        ValueForm::Octal => Value::Number {
            word: word(octal(text_behind(text, b'B'))),
        },
        ValueForm::Characters => Value::Number {
            word: characters_word(text_behind(text, b'P')),
        },
        ValueForm::Triple { c, i, m } => triple_of(c, i, m, numbers),
    }
}
