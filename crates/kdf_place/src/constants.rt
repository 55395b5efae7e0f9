//! What stands in the V-stores at the start.
ghost use Rattle.std.specs.Prelude.{◌≡◌, ◌<◌, ◌+◌, ◌^◌, length, set};
ghost use Rattle.kdf_place.specs.Layout.{front};
ghost use Rattle.kdf_place.specs.Placement.{item, value, with_constant, with_constants};
ghost use Rattle.kdf_place.specs.Tables.{meaning};

use crate::here::{Here, Section};
use crate::names::Meanings;
use crate::spell::address_of;
use kdf_usercode::{Item, Statement, Value, What};
use kdf_word::Word;

/// A part of a constant for a Q-store.
fn item(meanings: &Meanings, section: Section, part: Item) -> u16
    ensures { result ≡ item (meaning meanings.now) section part }
{
    match part {
        Item::Bits { bits } => bits,
        Item::Address { place } => address_of(meanings, section, place),
    }
}

/// The word of a constant.
fn value(meanings: &Meanings, section: Section, constant: Value) -> Word
    ensures { result ≡ value (meaning meanings.now) section constant }
{
    match constant {
        Value::Number { word } => word,
        Value::Triple { c, i, m } => {
            let c = u64::from(item(meanings, section, c));
            let i = u64::from(item(meanings, section, i));
            let m = u64::from(item(meanings, section, m));
            Word::new((c << 32) + (i << 16) + m)
        }
    }
}

/// Puts a word at an address. Past the end there is none.
fn put(words: &mut [Word], address: u64, word: Word)
    ensures { words.new ≡ set words.old address word }
{
    let address = address as usize;
    if address < words.len() {
        words[address] = word;
    }
}

/// Puts the constant of a statement, if it is one, into its V-store.
fn put_constant(words: &mut [Word], meanings: &Meanings, section: Section, what: &What)
    ensures { words.new ≡ with_constant (meaning meanings.now) section what.now words.old }
{
    if let What::Constant { n, value: constant } = *what {
        let address = section.base.saturating_add(u64::from(n));
        put(words, address, value(meanings, section, constant));
    }
}

/// Puts the constants of a deck into their V-stores.
pub fn put_constants(words: &mut [Word], meanings: &Meanings, statements: &[Statement])
    requires few { length statements.now < 2 ^ 40 }
    ensures { words.new ≡ with_constants (meaning meanings.now) front statements.now words.old }
{
    let mut here = Here::front();
    for statement in statements {
        put_constant(words, meanings, here.section, &statement.what);
        here = here.after(statement);
    }
}
