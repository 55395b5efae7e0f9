//! A program that runs by itself.
ghost use Rattle.std.specs.Prelude.{◌≡◌, ◌+◌, ◌<◌, ◌≤◌, length, slice_get, slice_index, true, IfOk, IfSome, OnOk, OnErr};
ghost use Rattle.std.specs.Option.{option_copied};
ghost use Rattle.kdf_job.specs.Shows.{shown_slot};
ghost use Rattle.kdf_job.specs.Slots.{slot_of};
ghost use Rattle.kdf_processor.specs.Buffered.{Agrees};
ghost use Rattle.kdf_processor.specs.Claims.{is_claimed};
ghost use Rattle.kdf_processor.specs.Lone.{is_live, lone};
ghost use Rattle.kdf_processor.specs.Row.{next_of, row};
ghost use Rattle.kdf_processor.specs.State.{begin, lendings, word_at};
ghost use Rattle.kdf_processor.specs.Stints.{IsStint};
ghost use Rattle.kdf_alone.specs.LonePort.{words_of};
ghost use Rattle.kdf_alone.specs.Program.{given_by, IsApart, IsDeviceAt};

use crate::loading::load_bench;
use crate::lone_port::LonePort;
use crate::obeying::obey_next;
use kdf_job::SlotJob;
use kdf_place::Image;
use kdf_processor::{Buffer, Life, Port, Registers, Spooled, Step, no_word};
use kdf_transfer::Device;
use kdf_word::Word;
use std::alloc::{AllocError, Global};
use std::marker::Model;

/// A program with its registers, store and devices. Contracts see its state.
#[derive(Drop)]
pub struct Alone {
    registers: Registers,
    bench: LonePort,
}

impl Model for Alone {
    ghost use Rattle.std.specs.Prelude.{◌≤◌};
    ghost use Rattle.kdf_processor.specs.State.{State};
    ghost use Rattle.kdf_alone.specs.LonePort.{state_with};

    ghost Value = { State };

    ghost view = { λ a. state_with a.registers a.bench };

    ghost invariant = { λ a. a.bench.asked ≤ a.registers.ran };
}

impl Alone {
    /// A program before its first order: the words of the image at the front of its store, and the
    /// devices of the slot and of the pool, none of them claimed. No number is both a device's of the slot and of the pool.
    pub fn load(alloc: Global, slot: &SlotJob, image: &Image) -> Result<Alone, AllocError>
        requires fits { length image.now.words.items ≤ slot.now.size }
        requires apart { IsApart (shown_slot slot.now) }
        ensures { IfOk result (λ a. a ≡ begin (slot_of (shown_slot slot.now) image.now.words.items)) }
    {
        Ok(Alone {
            registers: Registers::new(),
            bench: load_bench(alloc, slot, image)?,
        })
    }

    /// Obeys the next order; one that asks takes the answer whose place is the number of earlier asks,
    /// or 0 past the end. Without memory nothing has changed; it is never held.
    #[inline(always)]
    pub fn order(&mut self, answers: &[u64]) -> Result<Step, AllocError>
        requires live { is_live self.old.registers.state ≡ true }
        requires ran { self.old.registers.ran < u32.MAX }
        ensures state { OnOk result (self.new ≡ row self.old (given_by answers.now self.old)) }
        ensures step { IfOk result (λ s. s ≡ (next_of self.old (given_by answers.now self.old)).step) }
        ensures err { OnErr result (self.new ≡ self.old) }
    {
        let mut held = no_word();
        self.order_buffered(answers, &mut held)
    }

    /// The same, where the word that syllables were fetched from last is at hand.
    #[inline(always)]
    fn order_buffered(&mut self, answers: &[u64], held: &mut Buffer) -> Result<Step, AllocError>
        requires live { is_live self.old.registers.state ≡ true }
        requires ran { self.old.registers.ran < u32.MAX }
        requires agrees { Agrees (words_of self.old) held.old }
        ensures state { OnOk result (self.new ≡ row self.old (given_by answers.now self.old)) }
        ensures step { IfOk result (λ s. s ≡ (next_of self.old (given_by answers.now self.old)).step) }
        ensures err { OnErr result (self.new ≡ self.old) }
        ensures agrees { Agrees (words_of self.new) held.new }
    {
        let answer = answer_at(answers, self.bench.asked());
        obey_next(&mut self.registers, &mut self.bench, held, answer)
    }

    /// Obeys `n` orders, or fewer where the program stops.
    pub fn orders(&mut self, answers: &[u64], n: u32) -> Result<(), AllocError>
        requires ran { self.old.registers.ran + n ≤ u32.MAX }
        ensures { OnOk result (self.new ≡ lone self.old answers.now n) }
    {
        if !self.is_live() {
            return Ok(());
        }
        let mut held = no_word();
        for _i in 0..n {
            if let Step::Fails(_) | Step::Ends = self.order_buffered(answers, &mut held)? {
                return Ok(());
            }
        }
        Ok(())
    }

    /// Whether the program runs.
    fn is_live(&self) -> bool
        ensures { result ≡ is_live self.now.registers.state }
    {
        matches!(self.registers.state, Life::Live)
    }

    /// The registers.
    pub fn registers(&self) -> &Registers
        ensures { result.now ≡ self.now.registers }
    {
        &self.registers
    }

    /// The size of the store, in words.
    pub fn size(&self) -> u16
        ensures { result ≡ self.now.stock.claims.size }
    {
        self.bench.size()
    }

    /// The word at an address.
    pub fn word(&self, address: u16) -> Word
        requires { address < self.now.stock.claims.size }
        ensures { result ≡ word_at self.now address }
    {
        self.bench.word(address)
    }

    /// The device of this number, if the program has one of its own.
    pub fn device(&self, d: u8) -> Option<&Device>
        ensures { IsDeviceAt self.now d (option_copied result) }
    {
        self.bench.device(d)
    }

    /// Whether the program has claimed the device of this number, its own or one of the pool.
    pub fn claimed(&self, d: u8) -> bool
        ensures { result ≡ is_claimed self.now.stock.claims d }
    {
        self.bench.held(u16::from(d)).is_some()
    }

    /// How many stints it has: how often it took a device from the pool.
    pub fn stints(&self) -> usize
        ensures { result ≡ length (lendings self.now.stock) }
    {
        self.bench.stints()
    }

    /// The stint that began after `i` others: the number of its device, whether that was given back, and the device.
    pub fn stint(&self, i: usize) -> (u8, bool, &Device)
        requires { i < length (lendings self.now.stock) }
        ensures { IfSome (slice_get (lendings self.now.stock) i) (λ x. IsStint x result.0 result.1 result.2.now) }
    {
        self.bench.stint(i)
    }

    /// What it spooled, the oldest first.
    pub fn spooled(&self) -> &[Spooled]
        ensures { result.now ≡ self.now.stock.spooled }
    {
        self.bench.spooled()
    }
}

/// The answer at a place, or 0 past the end.
fn answer_at(answers: &[u64], place: u32) -> u64
    ensures { result ≡ slice_index answers.now place }
{
    answers.get(place as usize).copied().unwrap_or(0)
}
