//! Where calls of a machine stop before all are made.
ghost use Rattle.std.specs.Prelude.{◌≡◌, ◌==◌, ◌<◌, ◌≤◌, None, false, find, true};
ghost use Rattle.std.specs.Option.{option_map};
ghost use Rattle.kdf_director.specs.declared.halt.Halt.TheVariants.{Each};
ghost use Rattle.kdf_director.specs.Fields.Halted.{stops_in};
ghost use Rattle.kdf_director.specs.Halts.{halt_inside, halts, place_for};

use crate::Progress;
use kdf_yard::{Program, Yard, registers_of};

/// Where calls stop before all are made.
#[derive(Clone, Copy, Debug, PartialEq, Eq)]
pub enum Halt {
    /// Nowhere.
    Never,
    /// Wherever a program has obeyed an order.
    Each,
    /// Where the program of this slot has obeyed an order, and its next one is at this place: `at` is the number of its
    /// first syllable.
    At { p: u8, at: u16 },
}

impl Halt {
    /// How many of so many calls one run of calls may be: one, where they stop wherever an order is obeyed.
    pub(crate) fn batch(self, left: u32) -> u32
        requires { 0 < left }
        ensures some { 0 < result }
        ensures few { result ≤ left }
        ensures singly { self ≡ Each → result ≡ 1 }
    {
        match self {
            Halt::Each => 1,
            Halt::Never | Halt::At { .. } => left,
        }
    }

    /// Where calls of one run stop before its end: nowhere, where each run is one call.
    pub(crate) fn inside(self) -> Halt
        ensures { result ≡ halt_inside self }
    {
        match self {
            Halt::Each | Halt::Never => Halt::Never,
            Halt::At { .. } => self,
        }
    }

    /// The place at which they stop where program `p` comes to it, if there is one.
    pub(crate) fn place(self, p: u8) -> Option<u16>
        ensures { result ≡ place_for self p }
    {
        match self {
            Halt::Never | Halt::Each => None,
            Halt::At { p: k, at } => { if p == k { Some(at) } else { None } }
        }
    }
}

/// Whether calls stop where program `p` has obeyed an order.
#[inline(always)]
fn halts(halt: Halt, p: u8, programs: &[Program]) -> bool
    ensures { result ≡ halts halt p (option_map (λ (x : Program). x.registers)
        (find (λ (x : Program). x.p == p) programs.now)) }
{
    match halt {
        Halt::Never => false,
        Halt::Each => true,
        Halt::At { p: k, at } => match registers_of(programs, p) {
            Some(registers) => p == k && registers.at == at,
            None => false,
        },
    }
}

/// Whether calls stop after one that answered so.
#[inline(always)]
pub(crate) fn stops(yard: &Yard, halt: Halt, progress: Progress) -> bool
    ensures { result ≡ stops_in halt yard.now progress }
{
    match progress {
        Progress::Ran(p) => halts(halt, p, &yard.programs),
        Progress::Held(_, _) | Progress::Idle | Progress::AllEnded => false,
    }
}
