//! A program at the end of a run, with its slot and its deck.

use crate::cause::Cause;
use crate::endings::Ending;
use kdf_decode::decode;
use kdf_director::Machine;
use kdf_job::SlotJob;
use kdf_json::without_comments;
use kdf_listing::Layout;
use kdf_place::Image;
use kdf_processor::Registers;
use kdf_qstore::Triple;
use kdf_syllable::{Order, size};
use kdf_word::Word;
use std::alloc::{AllocError, Global};
use std::fmt::Write;

/// How many syllables a word has.
const WORD: u32 = 6;

/// A program at the end of a run, with its slot and its deck.
#[derive(Clone, Copy)]
pub struct Case<'a, 'b> {
    pub alloc: Global,
    pub slot: &'a SlotJob,
    pub image: &'a Image,
    pub layout: &'a Layout<'b>,
    pub registers: &'a Registers,
    pub machine: &'a Machine,
    pub ending: Ending<'a>,
}

impl Case<'_, '_> {
    /// The parts of a Q-store.
    pub fn triple(&self, q: u8) -> Triple {
        if q < 16 {
            self.registers.q.triple(q)
        } else {
            Triple { c: 0, i: 0, m: 0 }
        }
    }

    /// The modifier of a Q-store.
    pub fn modifier(&self, q: u8) -> u16 {
        self.triple(q).m
    }

    /// How many words the nest has.
    pub fn depth(&self) -> usize {
        self.registers.nest.depth()
    }

    /// The word of the nest below so many.
    pub fn nested(&self, i: usize) -> Option<Word> {
        if i < self.registers.nest.depth() {
            Some(self.registers.nest.peek(i))
        } else {
            None
        }
    }

    /// A word of the nest as a number with its sign; 0 where there is none.
    pub fn number(&self, i: usize) -> i64 {
        match self.nested(i) {
            Some(word) => word.signed(),
            None => 0,
        }
    }

    /// A word of the nest without its sign; 0 where there is none.
    pub fn bits(&self, i: usize) -> u64 {
        match self.nested(i) {
            Some(word) => word.bits(),
            None => 0,
        }
    }

    /// Whether a statement wrote the next order.
    pub fn is_written(&self) -> bool {
        self.layout.order_at(self.registers.at).is_some()
    }

    /// The statement of the next order without comments and spaces, if there is one.
    pub fn text(&self) -> Result<String, AllocError> {
        match self.layout.order_at(self.registers.at) {
            Some(row) => without_comments(self.alloc, self.layout.written(&row), ""),
            None => Ok(String::new(self.alloc)),
        }
    }

    /// The order whose first syllable has this number in the image of the deck.
    pub fn order_at(&self, at: u32) -> Option<Order> {
        let first = syllable(self.image, at);
        let second = syllable(self.image, at.saturating_add(1));
        let third = syllable(self.image, at.saturating_add(2));
        decode(&[first, second, third]).ok()
    }

    /// The next order, if a statement wrote it.
    pub fn order(&self) -> Option<Order> {
        if self.is_written() {
            self.order_at(u32::from(self.registers.at))
        } else {
            None
        }
    }

    /// Whether an order that is the next one goes on behind the store.
    pub fn is_cut(&self, order: Order) -> bool {
        let end = u32::from(self.registers.at) + u32::from(size(&order));
        end > u32::from(self.slot.size).saturating_mul(WORD)
    }

    /// A failure of this program.
    pub fn failure(&self, what: &str, step: u8) -> Result<Cause, AllocError> {
        Cause::of_step(self.alloc, what, step)
    }

    /// Adds which words the store has.
    pub fn say_store(&self, cause: &mut Cause) -> Result<(), AllocError> {
        let last = self.slot.size.saturating_sub(1);
        cause.number("store", self.slot.size.into())?;
        write!(cause.sentence, "the store has words 0 to {last}")
    }

    /// Adds a Q-store with its parts.
    pub fn say_q_store(&self, cause: &mut Cause, q: u8) -> Result<(), AllocError> {
        let Triple { c, i, m } = self.triple(q);
        write!(cause.members, ",\"q\":{q},\"parts\":[{c},{i},{m}]")?;
        write!(cause.sentence, "Q{q} is {c}/{i}/{m}")
    }
}

/// The syllable of this number in an image; what is behind it is zero.
fn syllable(image: &Image, at: u32) -> u8 {
    match image.words.get((at / WORD) as usize) {
        Some(word) => syllable_of(*word, at % WORD),
        None => 0,
    }
}

/// A syllable of a word, whose eight bytes begin with two that are zero.
fn syllable_of(word: Word, syllable: u32) -> u8 {
    let bytes = word.bits().to_be_bytes();
    match bytes.get((syllable.saturating_add(2)) as usize) {
        Some(byte) => *byte,
        None => 0,
    }
}
