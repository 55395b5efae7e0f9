//! The orders of statements, with the numbers that their names mean, and the syllables of a deck.
ghost use Rattle.std.specs.Prelude.{◌≡◌, ◌≤◌, ◌<◌, ◌+◌, ◌*◌, ◌%◌, ◌^◌, [], ◌∷◌, ◌++◌, length, replicate, OnOk, IfOk, IfSome};
ghost use Rattle.kdf_syllable.specs.Spelling.{IsOrder, spelling};
ghost use Rattle.kdf_usercode.specs.WellFormed.{IsWhat, AreInRange};
ghost use Rattle.kdf_place.specs.Layout.{stores, front};
ghost use Rattle.kdf_place.specs.Names.{store_address, syllable_of};
ghost use Rattle.kdf_place.specs.Placement.{number, syllable_number, jump_target, order_of, spelt, filling, syllables_of, syllables, start_of, first_word};
ghost use Rattle.kdf_place.specs.Tables.{meaning, kept};

use crate::here::{Here, Section, round_up, stores};
use crate::names::Meanings;
use kdf_syllable::{Order, encode};
use kdf_usercode::{DeckFault, Named, Statement, Target, What};
use std::alloc::{AllocError, Global};

/// The syllable of the order that does nothing.
const DUMMY: u8 = 0x01;

/// The code of the short loop.
const SHORT: u8 = 0x6f;

/// The condition of the jump that is always made.
const ALWAYS: u8 = 0x20;

/// A number that was found.
fn number(found: Result<u64, DeckFault>) -> u64
    ensures { result ≡ number found }
{
    found.unwrap_or(0)
}

/// The syllable number of a place: 6 times the word, and the syllable. After word 8191 it is 0.
pub fn syllable_number(at: u64) -> u16
    ensures value { result ≡ syllable_number at }
    ensures small { result < 6 * 8192 }
{
    if at / 6 < 8192 { at as u16 } else { 0 }
}

/// A syllable number as a jump has it: 8192 times the syllable, and the word.
fn jump_target(at: u16) -> u16
    requires { at < 6 * 8192 }
    ensures value { result ≡ jump_target at }
    ensures small { result < 6 * 8192 }
{
    8192 * (at % 6) + at / 6
}

/// The address that a store has in this part, in its last 16 bits.
pub fn address_of(meanings: &Meanings, section: Section, place: Named) -> u16
    ensures { result ≡ number (store_address (meaning meanings.now) section place) % 2 ^ 16 }
{
    (number(meanings.address(section, place)) % 65536) as u16
}

/// A target in this part, as a jump has it.
fn target_of(meanings: &Meanings, section: Section, target: Target) -> u16
    ensures value { let found = syllable_of (meaning meanings.now) section target in
        result ≡ jump_target (syllable_number (number found)) }
    ensures small { result < 6 * 8192 }
{
    jump_target(syllable_number(number(meanings.syllable_of(section, target))))
}

/// The address of a store as a fetch or a keep has it: its last 15 bits.
fn store_of(meanings: &Meanings, section: Section, place: Named) -> u16
    ensures value { result ≡ number (store_address (meaning meanings.now) section place) % 2 ^ 15 }
    ensures small { result < 2 ^ 15 }
{
    address_of(meanings, section, place) % 0x8000
}

/// The order of a statement, with the numbers that its names mean.
fn order_of(meanings: &Meanings, section: Section, what: &What) -> Option<Order>
    requires { IsWhat what.now }
    ensures value { result ≡ order_of (meaning meanings.now) section what.now }
    ensures order { IfSome result (λ order. IsOrder order) }
{
    match *what {
        What::Plain { order } => Some(order),
        What::Fetch { place, q, u } => Some(Order::Direct {
            t: false,
            u,
            q,
            a: store_of(meanings, section, place),
        }),
        What::Keep { place, q, u } => Some(Order::Direct {
            t: true,
            u,
            q,
            a: store_of(meanings, section, place),
        }),
        What::SetAddress { place } => Some(Order::Set {
            constant: address_of(meanings, section, place),
        }),
        What::Go { c, target } => Some(Order::Jump {
            c,
            target: target_of(meanings, section, target),
        }),
        What::Short { q, .. } => Some(Order::Single { code: SHORT, q }),
        _ => None,
    }
}

/// Puts the syllables of an order after the others.
fn push_order(syllables: &mut Vec<u8>, order: &Order) -> Result<(), AllocError>
    requires { IsOrder order.now }
    ensures { OnOk result (syllables.new.items ≡ syllables.old.items ++ spelling order.now) }
{
    let spelt = encode(order);
    syllables.extend_from_slice(&spelt.bytes[..usize::from(spelt.size)])
}

/// Puts one syllable so many times after the others.
fn push_copies(syllables: &mut Vec<u8>, count: u64, syllable: u8) -> Result<(), AllocError>
    ensures { OnOk result (syllables.new.items ≡ syllables.old.items ++ replicate count syllable) }
{
    for _copy in 0..count {
        syllables.push(syllable)?;
    }
    Ok(())
}

/// Puts DUMMY after the others, up to the next begin of a word.
fn push_filling(syllables: &mut Vec<u8>, at: u64) -> Result<(), AllocError>
    requires { at < 2 ^ 62 }
    ensures { OnOk result (syllables.new.items ≡ syllables.old.items ++ filling at) }
{
    push_copies(syllables, round_up(at) - at, DUMMY)
}

/// Puts the opening of a part after the others: it begins on a new word, with its V-stores, zero.
fn push_opening(syllables: &mut Vec<u8>, at: u64, last: Option<u16>) -> Result<(), AllocError>
    requires { at < 2 ^ 62 }
    ensures { OnOk result (syllables.new.items
        ≡ syllables.old.items ++ (filling at ++ replicate (6 * stores last) 0)) }
{
    push_filling(syllables, at)?;
    push_copies(syllables, 6 * stores(last), 0)
}

/// Puts the syllables of the order that a statement has, if it has one, after the others.
fn push_spelt(
    syllables: &mut Vec<u8>,
    meanings: &Meanings,
    section: Section,
    what: &What,
) -> Result<(), AllocError>
    requires { IsWhat what.now }
    ensures { OnOk result (syllables.new.items
        ≡ syllables.old.items ++ spelt (order_of (meaning meanings.now) section what.now)) }
{
    match order_of(meanings, section, what) {
        Some(order) => push_order(syllables, &order),
        None => Ok(()),
    }
}

/// Puts the syllables of a statement that stands here after the others.
fn push_statement(
    syllables: &mut Vec<u8>,
    meanings: &Meanings,
    here: Here,
    what: &What,
) -> Result<(), AllocError>
    requires within { here.at < 2 ^ 62 }
    requires what { IsWhat what.now }
    ensures { OnOk result (syllables.new.items
        ≡ syllables.old.items ++ syllables_of (meaning meanings.now) here what.now) }
{
    match what {
        What::Star => push_filling(syllables, here.at),
        What::Program { v } | What::Part { v, .. } => push_opening(syllables, here.at, *v),
        _ => push_spelt(syllables, meanings, here.section, what),
    }
}

/// The syllable number of the first order of the main part.
pub fn start_of(meanings: &Meanings) -> u16
    ensures value { result ≡ start_of (meaning meanings.now) }
    ensures small { result < 6 * 8192 }
{
    syllable_number(number(meanings.first_order(0)))
}

/// Puts word 0 after the others: a jump to the first order, and three DUMMY.
fn push_first_word(syllables: &mut Vec<u8>, meanings: &Meanings) -> Result<(), AllocError>
    ensures { OnOk result (syllables.new.items
        ≡ syllables.old.items ++ first_word (meaning meanings.now)) }
{
    let jump = Order::Jump {
        c: ALWAYS,
        target: jump_target(start_of(meanings)),
    };
    push_order(syllables, &jump)?;
    push_copies(syllables, 3, DUMMY)
}

/// Puts the syllables of all statements after the others, up to a full word.
fn push_statements(
    bytes: &mut Vec<u8>,
    meanings: &Meanings,
    statements: &[Statement],
) -> Result<(), AllocError>
    requires few { length statements.now < 2 ^ 40 }
    requires in_range { AreInRange statements.now }
    ensures { OnOk result (bytes.new.items
        ≡ bytes.old.items ++ syllables (meaning meanings.now) front statements.now) }
{
    let mut here = Here::front();
    for statement in statements {
        push_statement(bytes, meanings, here, &statement.what)?;
        here = here.after(statement);
    }
    push_filling(bytes, here.at)
}

/// The syllables of a deck, up to a full word.
pub fn syllables(
    alloc: Global,
    meanings: &Meanings,
    statements: &[Statement],
) -> Result<Vec<u8>, AllocError>
    requires few { length statements.now < 2 ^ 40 }
    requires in_range { AreInRange statements.now }
    ensures { let names = meaning meanings.now in
        IfOk result (λ v. v.items ≡ first_word names ++ syllables names front statements.now) }
{
    let mut syllables = Vec::new(alloc);
    push_first_word(&mut syllables, meanings)?;
    push_statements(&mut syllables, meanings, statements)?;
    Ok(syllables)
}
