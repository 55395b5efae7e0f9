//! Reading a line of a journal.
ghost use Rattle.std.specs.Prelude.{◌≡◌, ◌≤◌, ◌^◌, ℕ, IfSome, List, Some};
ghost use Rattle.kdf_text.specs.Lines.{is_text};
ghost use Rattle.kdf_text.specs.Numbers.{number_in};
ghost use Rattle.kdf_journal.specs.Printed.{entry_in, failure_named, kind_named, number_8, number_16, number_32, number_64, of_event, of_hold, of_one, of_three, of_two, IsEntry};

use crate::{Entry, Failure, Kind};
use kdf_text::{cut_word, number_in};

/// The entry that is printed so; `None` exactly where none is.
#[tactic(auto, unfolding(crate::specs::Printed::entry_in))]
pub fn read_entry(line: &[u8]) -> Option<Entry>
    ensures { result ≡ entry_in line.now }
{
    let (name, numbers) = cut_word(line)?;
    let Some((first, others)) = cut_word(numbers) else {
        return of_one(name, numbers);
    };
    let Some((second, third)) = cut_word(others) else {
        return of_two(name, first, others);
    };
    match cut_word(third) {
        None => of_three(name, first, second, third),
        Some(_) => None,
    }
}

/// The entry of a name and one word.
fn of_one(name: &[u8], a: &[u8]) -> Option<Entry>
    ensures { result ≡ of_one name.now a.now }
{
    if is(name, b"ENDED") {
        Some(Entry::Ended { p: number_8(a)? })
    } else if is(name, b"IDLE") {
        Some(Entry::Idle { n: number_32(a)? })
    } else if is(name, b"END") {
        Some(Entry::End { d: number_8(a)? })
    } else if is(name, b"CLOCK") {
        Some(Entry::Clock { t: number_64(a)? })
    } else {
        None
    }
}

/// The entry of a name and two words.
fn of_two(name: &[u8], a: &[u8], b: &[u8]) -> Option<Entry>
    ensures { result ≡ of_two name.now a.now b.now }
{
    let first = number_8(a)?;
    after_number(name, first, b)
}

/// The entry of a name, a number that was read, and a word.
fn after_number(name: &[u8], p: u8, b: &[u8]) -> Option<Entry>
    ensures { (a : List ℕ) → number_8 a ≡ Some p → result ≡ of_two name.now a b.now }
{
    if is(name, b"RAN") {
        Some(Entry::Ran {
            p,
            n: number_32(b)?,
        })
    } else if is(name, b"ANSWER") {
        Some(Entry::Answer {
            p,
            v: number_64(b)?,
        })
    } else if is(name, b"TAKE") {
        Some(Entry::Take { p, d: number_8(b)? })
    } else if is(name, b"GIVE") {
        Some(Entry::Give { p, d: number_8(b)? })
    } else if is(name, b"FAIL") {
        Some(Entry::Fail {
            p,
            kind: failure_named(b)?,
        })
    } else {
        of_hold(name, p, b)
    }
}

/// The entry of a name that tells what holds a program.
fn of_hold(name: &[u8], p: u8, b: &[u8]) -> Option<Entry>
    ensures { (a : List ℕ) → number_8 a ≡ Some p → result ≡ of_hold name.now a b.now }
{
    if is(name, b"LOV") {
        Some(Entry::Lov {
            p,
            group: number_16(b)?,
        })
    } else if is(name, b"BUSY") {
        Some(Entry::Busy { p, d: number_8(b)? })
    } else if is(name, b"WAIT") {
        Some(Entry::Wait {
            p,
            kind: kind_named(b)?,
        })
    } else {
        of_event(name, p, b)
    }
}

/// The entry of a name that tells what the schedule did.
fn of_event(name: &[u8], first: u8, b: &[u8]) -> Option<Entry>
    ensures { (a : List ℕ) → number_8 a ≡ Some first → result ≡ of_event name.now a b.now }
{
    if is(name, b"MOVE") {
        Some(Entry::Move {
            d: first,
            n: number_16(b)?,
        })
    } else if is(name, b"SWAP") {
        Some(Entry::Swap {
            p: first,
            q: number_8(b)?,
        })
    } else {
        None
    }
}

/// The entry of a name and three words.
fn of_three(name: &[u8], a: &[u8], b: &[u8], c: &[u8]) -> Option<Entry>
    ensures { result ≡ of_three name.now a.now b.now c.now }
{
    if is(name, b"START") {
        let (p, d, k) = (number_8(a)?, number_8(b)?, number_32(c)?);
        Some(Entry::Start { p, d, k })
    } else {
        None
    }
}

/// Whether a word is this name.
fn is(word: &[u8], name: &[u8]) -> bool
    ensures { result ≡ is_text name.now word.now }
{
    word == name
}

/// The kind of failure of a name.
fn failure_named(word: &[u8]) -> Option<Failure>
    ensures { result ≡ failure_named word.now }
{
    if is(word, b"LIV") {
        Some(Failure::Liv)
    } else if is(word, b"NOUV") {
        Some(Failure::Nouv)
    } else if is(word, b"OUT") {
        Some(Failure::Out)
    } else if is(word, b"RESET") {
        Some(Failure::Reset)
    } else if is(word, b"CLAIM") {
        Some(Failure::Claim)
    } else {
        None
    }
}

/// The kind of device of a name.
fn kind_named(word: &[u8]) -> Option<Kind>
    ensures { result ≡ kind_named word.now }
{
    if is(word, b"TR") {
        Some(Kind::Tr)
    } else if is(word, b"TP") {
        Some(Kind::Tp)
    } else if is(word, b"CR") {
        Some(Kind::Cr)
    } else if is(word, b"LP") {
        Some(Kind::Lp)
    } else if is(word, b"MT") {
        Some(Kind::Mt)
    } else {
        None
    }
}

fn number_8(word: &[u8]) -> Option<u8>
    ensures { result ≡ number_8 word.now }
{
    number_in(0, u64::from(u8::MAX), word).map(|n| n as u8)
}

fn number_16(word: &[u8]) -> Option<u16>
    ensures { result ≡ number_16 word.now }
{
    number_in(0, u64::from(u16::MAX), word).map(|n| n as u16)
}

fn number_32(word: &[u8]) -> Option<u32>
    ensures { result ≡ number_32 word.now }
{
    number_in(0, u64::from(u32::MAX), word).map(|n| n as u32)
}

fn number_64(word: &[u8]) -> Option<u64>
    ensures { result ≡ number_64 word.now }
{
    number_in(0, u64::MAX, word)
}
