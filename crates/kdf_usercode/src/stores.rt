//! Stores: how each is named, the ranges of its numbers, and what is done with it.

ghost use Rattle.std.specs.Prelude.{◌≡◌, ◌++◌, []};
ghost use Rattle.kdf_usercode.specs.Parse.{opt_map};
ghost use Rattle.kdf_usercode.specs.Range.{range_faults};
ghost use Rattle.kdf_usercode.specs.Stores.{letter_after, lettered, store_name, addressed, suffix_of, access_form, address_form, store_ranges, access_ranges, named_of, q_of, access_of, declared_group};

use crate::parse::strip;
use crate::range::{PART, Q, Range, STORE, q_at, short_at};
use crate::statement::{Named, What};

/// The name of a store, without its numbers.
#[derive(Clone, Copy)]
pub enum StoreName {
    Y { group: u8 },
    /// A V-store of this part.
    V,
    VOfPart,
    E,
}

/// Whether a store is fetched, or kept.
#[derive(Clone, Copy)]
pub enum Direction {
    Fetch,
    Keep,
}

/// What stands after a store.
#[derive(Clone, Copy)]
pub enum Suffix {
    Nothing,
    M,
    MQ,
}

/// The number of the letter in front, A being 1, and what stands after it.
fn letter_after(shape: &[u8]) -> Option<(u8, &[u8])>
    ensures { opt_map (λ x. (x.0, x.1.now)) result ≡ letter_after shape.now }
{
    match shape {
        [letter @ b'A'..=b'Z', rest @ ..] => Some((*letter - b'A' + 1, rest)),
        _ => None,
    }
}

#[tactic(auto, unfolding(crate::specs::Stores::lettered))]
fn lettered(shape: &[u8]) -> Option<(StoreName, &[u8])>
    ensures { opt_map (λ x. (x.0, x.1.now)) result ≡ lettered shape.now }
{
    let rest = strip(shape, b"Y")?;
    let (group, rest) = letter_after(rest)?;
    let rest = strip(rest, b"0")?;
    Some((StoreName::Y { group }, rest))
}

/// The store in front, and what stands after it.
#[tactic(auto, unfolding(crate::specs::Stores::store_name))]
fn store_name(shape: &[u8]) -> Option<(StoreName, &[u8])>
    ensures { opt_map (λ x. (x.0, x.1.now)) result ≡ store_name shape.now }
{
    if let Some(rest) = strip(shape, b"E0") {
        return Some((StoreName::E, rest));
    }
    if let Some(rest) = strip(shape, b"V0P0") {
        return Some((StoreName::VOfPart, rest));
    }
    if let Some(rest) = strip(shape, b"V0") {
        return Some((StoreName::V, rest));
    }
    if let Some(rest) = strip(shape, b"Y0") {
        return Some((StoreName::Y { group: 0 }, rest));
    }
    lettered(shape)
}

/// A store whose address may be taken: any but an E.
#[tactic(auto, unfolding(crate::specs::Stores::addressed))]
pub fn addressed(shape: &[u8]) -> Option<(StoreName, &[u8])>
    ensures { opt_map (λ x. (x.0, x.1.now)) result ≡ addressed shape.now }
{
    let (name, rest) = store_name(shape)?;
    match name {
        StoreName::E => None,
        _ => Some((name, rest)),
    }
}

#[tactic(auto, unfolding(crate::specs::Stores::suffix_of))]
fn suffix_of(shape: &[u8]) -> Option<Suffix>
    ensures { result ≡ suffix_of shape.now }
{
    if shape.is_empty() {
        Some(Suffix::Nothing)
    } else if shape == b"M0".as_slice() {
        Some(Suffix::M)
    } else if shape == b"M0Q".as_slice() {
        Some(Suffix::MQ)
    } else {
        None
    }
}

/// A store that is fetched, or kept where `=` stands before it.
#[tactic(auto, unfolding(crate::specs::Stores::access_form))]
pub fn access_form(shape: &[u8]) -> Option<(Direction, StoreName, Suffix)>
    ensures { result ≡ access_form shape.now }
{
    let (direction, rest) = match strip(shape, b"=") {
        Some(rest) => (Direction::Keep, rest),
        None => (Direction::Fetch, shape),
    };
    let (name, rest) = store_name(rest)?;
    let suffix = suffix_of(rest)?;
    Some((direction, name, suffix))
}

/// `SETA` and a store.
#[tactic(auto, unfolding(crate::specs::Stores::address_form))]
pub fn address_form(shape: &[u8]) -> Option<StoreName>
    ensures { result ≡ address_form shape.now }
{
    let rest = strip(shape, b"SETA")?;
    let (name, rest) = addressed(rest)?;
    if rest.is_empty() { Some(name) } else { None }
}

/// The range of each number of a store's name.
pub fn store_ranges(name: StoreName) -> &'static [Range]
    ensures { result.now ≡ store_ranges name }
{
    match name {
        StoreName::VOfPart => &[STORE, PART],
        _ => &[STORE],
    }
}

/// The range of each number of a store with what stands after it.
pub fn access_ranges(name: StoreName, suffix: Suffix) -> &'static [Range]
    ensures { result.now ≡ access_ranges name suffix }
{
    match (name, suffix) {
        (StoreName::VOfPart, Suffix::Nothing) => &[STORE, PART],
        (StoreName::VOfPart, _) => &[STORE, PART, Q],
        (_, Suffix::Nothing) => &[STORE],
        (_, _) => &[STORE, Q],
    }
}

/// The store with its numbers, where each is in its range.
pub fn named_of(name: StoreName, numbers: &[u64]) -> Named
    requires { range_faults (store_ranges name) numbers.now ≡ [] }
    ensures { result ≡ named_of name numbers.now }
{
    let n = short_at(numbers, 0);
    match name {
        StoreName::Y { group } => Named::Y { group, n },
        StoreName::V => Named::V { n, p: None },
        StoreName::VOfPart => Named::V {
            n,
            p: Some(short_at(numbers, 1)),
        },
        StoreName::E => Named::E { n },
    }
}

fn q_of(name: StoreName, suffix: Suffix, numbers: &[u64]) -> u8
    requires { range_faults (access_ranges name suffix) numbers.now ≡ [] }
    ensures { result ≡ q_of name suffix numbers.now }
{
    let i = match name {
        StoreName::VOfPart => 2,
        _ => 1,
    };
    match suffix {
        Suffix::Nothing => 0,
        _ => q_at(numbers, i),
    }
}

/// What is done with the store, where each number is in its range.
pub fn access_of(direction: Direction, name: StoreName, suffix: Suffix, numbers: &[u64]) -> What
    requires { range_faults (access_ranges name suffix) numbers.now ≡ [] }
    ensures { result ≡ access_of direction name suffix numbers.now }
{
    let q = q_of(name, suffix, numbers);
    let place = named_of(name, numbers);
    let u = matches!(suffix, Suffix::MQ);
    match direction {
        Direction::Fetch => What::Fetch { place, q, u },
        Direction::Keep => What::Keep { place, q, u },
    }
}

/// The group that is declared where this stands before `PROGRAM`.
pub fn declared_group(direction: Direction, name: StoreName, suffix: Suffix) -> Option<u8>
    ensures { result ≡ declared_group direction name suffix }
{
    match (direction, name, suffix) {
        (Direction::Fetch, StoreName::Y { group }, Suffix::Nothing) => Some(group),
        _ => None,
    }
}
