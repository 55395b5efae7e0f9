//! The orders of one program, as long as nothing is noted of them.
ghost use Rattle.std.specs.Prelude.{◌≡◌, ◌+◌, ◌<◌, ◌≤◌, length, IfNone, IfOk, IfSome, OnErr};
ghost use Rattle.kdf_lockout.specs.Groups.{Cells};
ghost use Rattle.kdf_processor.specs.Buffered.{Agrees};
ghost use Rattle.kdf_yard.specs.declared.remark.Remark.TheVariants.{Quiet};
ghost use Rattle.kdf_yard.specs.Fields.Batches.{of_seat, is_at, AreQuiet, HasBatch, Passes};
ghost use Rattle.kdf_yard.specs.Fields.CanTurn.{CanTurn};
ghost use Rattle.kdf_yard.specs.Fields.Parts.{reach_of, seat_of, window_at};
ghost use Rattle.kdf_places.specs.Shared.{shared_in};
ghost use Rattle.kdf_yard.specs.Fields.Settled.{both_of, retired, settled};
ghost use Rattle.kdf_yard.specs.Fields.Shared.{moment};
ghost use Rattle.kdf_yard.specs.Fields.Standing.{IsSameYard};
ghost use Rattle.kdf_places.specs.Spots.{AreDry};
ghost use Rattle.kdf_yard.specs.Fields.MachinePort.{held_in, reach_in, seat_in, shared, shown, SameProgram};
ghost use Rattle.kdf_theory.specs.Holders.{held_by};
ghost use Rattle.kdf_yard.specs.Fields.Turned.{HasRun, HasTried};
ghost use Rattle.kdf_yard.specs.Fields.Yards.{registers_in, AreLentIn, HasTurnedIn, HasTurnedQuietly};

use crate::machine_port::MachinePort;
use crate::stint::retire;
use crate::{Moment, Place, Program, Remark, Stand, Yard};
use kdf_journal::Journal;
use kdf_lockout::Store;
use kdf_processor::{Buffer, Life, Registers, Step, no_word, obey_at_once, obey_in_general};
use kdf_relocate::Window;
use kdf_word::Word;
use std::alloc::{AllocError, Global};

/// Obeys the next order of a live program the quick way, or answers None and changes nothing. It is inlined in the loop over the orders.
#[inline(always)]
fn obey_at_hand(
    registers: &mut Registers,
    turn: &mut MachinePort<'_>,
    held: &mut Buffer,
) -> Option<()>
    requires ran { registers.old.ran < u32.MAX }
    requires quiet { turn.old.note ≡ Quiet }
    requires agrees { Agrees (shown turn.old) held.old }
    ensures tried { IfSome result (λ _. HasTried (reach_in turn.old) (held_in turn.old) turn.old.moment
        (seat_in turn.old registers.old) (shared turn.old) (seat_in turn.new registers.new) (shared turn.new)
        Step.Done turn.new.note) }
    ensures quiet { turn.new.note ≡ Quiet }
    ensures left { IfNone result ((registers.new ≡ registers.old) × (turn.new ≡ turn.old)) }
    ensures same { SameProgram turn.old turn.new }
    ensures agrees { Agrees (shown turn.new) held.new }
{
    obey_at_once(registers, turn, held)
}

/// Obeys the next order of a live program the general way.
#[inline(always)]
fn obey_next(
    registers: &mut Registers,
    turn: &mut MachinePort<'_>,
    held: &mut Buffer,
) -> Result<Step, AllocError>
    requires live { registers.old.state ≡ Life.Live }
    requires ran { registers.old.ran < u32.MAX }
    requires quiet { turn.old.note ≡ Quiet }
    ensures tried { IfOk result (λ step. HasTried (reach_in turn.old) (held_in turn.old) turn.old.moment
        (seat_in turn.old registers.old) (shared turn.old) (seat_in turn.new registers.new) (shared turn.new)
        step turn.new.note) }
    ensures err { OnErr result ((seat_in turn.new registers.new ≡ seat_in turn.old registers.old)
        × (shared turn.new ≡ shared turn.old)) }
    ensures same { SameProgram turn.old turn.new }
    ensures agrees { Agrees (shown turn.new) held.new }
{
    let step = obey_in_general(registers, turn, held)?;
    Ok(step)
}

/// Whether a program with these registers is at a place.
#[inline(always)]
pub(crate) fn is_at(place: Option<u16>, registers: &Registers) -> bool
    ensures { result ≡ is_at place registers.now }
{
    match place {
        Some(at) => registers.at == at,
        None => false,
    }
}

/// Obeys orders of a live program up to one of which something is noted, that is held, that ends it or that comes to a
/// place, and at most so many. Answers how many were obeyed before the last, and how the last ended. At Err that had no
/// memory, and has changed nothing. It is inlined where the view is made: passed on by its address, that would be read
/// anew by each order.
#[inline(always)]
fn obey_quiet(
    registers: &mut Registers,
    turn: &mut MachinePort<'_>,
    most: u32,
    place: Option<u16>,
) -> (u32, Result<(Step, Remark), AllocError>)
    requires live { registers.old.state ≡ Life.Live }
    requires some { 0 < most }
    requires ran { registers.old.ran + most ≤ u32.MAX }
    requires quiet { turn.old.note ≡ Quiet }
    ensures tried { IfOk result.1 (λ x. HasBatch of_seat place
        (HasTried (reach_in turn.old) (held_in turn.old) turn.old.moment) result.0
        (seat_in turn.old registers.old) (shared turn.old) (seat_in turn.new registers.new) (shared turn.new) x.0 x.1) }
    ensures err { OnErr result.1 (AreQuiet
        (Passes of_seat place (HasTried (reach_in turn.old) (held_in turn.old) turn.old.moment)) result.0
        (seat_in turn.old registers.old) (shared turn.old) (seat_in turn.new registers.new) (shared turn.new)) }
    ensures within { result.0 < most }
    ensures same { SameProgram turn.old turn.new }
{
    let first = registers.ran;
    let last = first + most;
    let mut held = no_word();
    loop {
        match obey_at_hand(registers, turn, &mut held) {
            Some(()) => {
                if registers.ran == last || is_at(place, registers) {
                    return (registers.ran - first - 1, Ok((Step::Done, Remark::Quiet)));
                }
            }
            None => {
                let done = registers.ran - first;
                match obey_next(registers, turn, &mut held) {
                    Ok(Step::Done) => {
                        if registers.ran == last || !turn.is_quiet() || is_at(place, registers) {
                            return (done, Ok((Step::Done, turn.note())));
                        }
                    }
                    Ok(step) => return (done, Ok((step, turn.note()))),
                    Err(error) => return (done, Err(error)),
                }
            }
        }
    }
}

/// Tries orders of a program in its slot at a moment, as `obey_quiet` does.
#[inline(always)]
fn try_next(
    stand: &Stand<'_>,
    moment: Moment,
    journal: &Journal,
    program: &mut Program,
    store: &mut Store,
    places: &mut Vec<Place>,
    most: u32,
    place: Option<u16>,
) -> (u32, Result<(Step, Remark), AllocError>)
    requires live { program.old.registers.state ≡ Life.Live }
    requires some { 0 < most }
    requires ran { program.old.registers.ran + most ≤ u32.MAX }
    requires can { CanTurn stand.now.windows.now stand.now.slot.now program.old store.old places.old.items }
    ensures tried { IfOk result.1 (λ x. HasBatch of_seat place
        (HasTried (reach_of stand.now.windows.now stand.now.slot.now) (held_by journal.now.entries) moment) result.0
        (seat_of program.old) (shared_in store.old places.old.items)
        (seat_of program.new) (shared_in store.new places.new.items) x.0 x.1) }
    ensures err { OnErr result.1 (AreQuiet (Passes of_seat place
        (HasTried (reach_of stand.now.windows.now stand.now.slot.now) (held_by journal.now.entries) moment)) result.0
        (seat_of program.old) (shared_in store.old places.old.items)
        (seat_of program.new) (shared_in store.new places.new.items)) }
    ensures within { result.0 < most }
    ensures hold { program.new.hold ≡ program.old.hold }
    ensures dry { AreDry places.new.items }
{
    let mut block = Vec::new(stand.alloc);
    let mut turn = MachinePort {
        alloc: stand.alloc,
        p: program.p,
        window: window_of(stand.windows, stand.slot.p),
        moment,
        journal,
        slot: stand.slot,
        claimed: &mut program.claimed,
        spooled: &mut program.spooled,
        stints: &mut program.stints,
        store,
        places,
        block: &mut block,
        note: Remark::Quiet,
    };
    obey_quiet(&mut program.registers, &mut turn, most, place)
}

/// Takes the devices of a program that is over out of their places, those of the first to the last of its stints that
/// are lent still. It isn't inlined in the loop over the orders, which it would slow down.
#[inline(never)]
fn retire_all(alloc: Global, program: &mut Program, places: &mut Vec<Place>)
    ensures both { (cells : Cells) → both_of (seat_of program.new) (shared_in cells places.new.items)
        ≡ retired (length program.old.stints.items)
        (both_of (seat_of program.old) (shared_in cells places.old.items)) }
    ensures hold { program.new.hold ≡ program.old.hold }
    ensures dry { AreDry places.old.items → AreDry places.new.items }
{
    for i in 0..program.stints.len() {
        retire(alloc, &mut program.stints[i], places);
    }
}

/// Where an order ended a program, or failed, the devices that it has from the pool leave their places.
#[inline(always)]
fn settle(alloc: Global, program: &mut Program, places: &mut Vec<Place>)
    ensures both { (cells : Cells) → both_of (seat_of program.new) (shared_in cells places.new.items)
        ≡ settled (both_of (seat_of program.old) (shared_in cells places.old.items)) }
    ensures hold { program.new.hold ≡ program.old.hold }
    ensures dry { AreDry places.old.items → AreDry places.new.items }
{
    if !matches!(program.registers.state, Life::Live) {
        retire_all(alloc, program, places);
    }
}

/// Tries orders of a program at a moment over what is shared, as `obey_quiet` does, and where the last ended it, takes
/// back what it had from the pool.
#[inline(always)]
pub(crate) fn run(
    stand: &Stand<'_>,
    moment: Moment,
    journal: &Journal,
    program: &mut Program,
    store: &mut Store,
    places: &mut Vec<Place>,
    most: u32,
    place: Option<u16>,
) -> (u32, Result<(Step, Remark), AllocError>)
    requires live { program.old.registers.state ≡ Life.Live }
    requires some { 0 < most }
    requires ran { program.old.registers.ran + most ≤ u32.MAX }
    requires can { CanTurn stand.now.windows.now stand.now.slot.now program.old store.old places.old.items }
    ensures ran { IfOk result.1 (λ x. HasBatch of_seat place
        (HasRun (reach_of stand.now.windows.now stand.now.slot.now) (held_by journal.now.entries) moment) result.0
        (seat_of program.old) (shared_in store.old places.old.items)
        (seat_of program.new) (shared_in store.new places.new.items) x.0 x.1) }
    ensures err { OnErr result.1 (AreQuiet (Passes of_seat place
        (HasRun (reach_of stand.now.windows.now stand.now.slot.now) (held_by journal.now.entries) moment)) result.0
        (seat_of program.old) (shared_in store.old places.old.items)
        (seat_of program.new) (shared_in store.new places.new.items)) }
    ensures within { result.0 < most }
    ensures hold { program.new.hold ≡ program.old.hold }
    ensures dry { AreDry places.new.items }
{
    let tried = try_next(stand, moment, journal, program, store, places, most, place);
    settle(stand.alloc, program, places);
    tried
}

/// The window of a slot; one without a word where there is no such slot.
pub fn window_of(windows: &[Window; 4], p: u8) -> Window
    ensures { result ≡ window_at windows.now p }
{
    match windows.get(usize::from(p)) {
        Some(window) => *window,
        None => Window { base: 0, size: 0 },
    }
}

/// Orders of program `i` of all: so many at most, up to a place, at this time, after what this journal tells.
#[derive(Clone, Copy)]
pub struct Batch<'a> {
    pub i: usize,
    pub time: u64,
    pub journal: &'a Journal,
    pub most: u32,
    pub place: Option<u16>,
}

impl Yard {
    /// Tries orders of a batch, as `obey_quiet` does, where this was heard of the service.
    #[inline(always)]
    pub(crate) fn turn(
        &mut self,
        batch: Batch<'_>,
        heard: Word,
    ) -> (u32, Result<(Step, Remark), AllocError>)
        requires there { batch.i < length self.old.seats }
        requires live { (registers_in self.old batch.i).state ≡ Life.Live }
        requires some { 0 < batch.most }
        requires ran { (registers_in self.old batch.i).ran + batch.most ≤ u32.MAX }
        requires lent { AreLentIn self.old batch.journal.now.entries }
        ensures turned { IfOk result.1 (λ x. HasTurnedIn (moment batch.entry.time heard) batch.entry.i result.0
            batch.entry.place self.old self.new x.0 x.1) }
        ensures err { OnErr result.1 (HasTurnedQuietly (moment batch.entry.time heard) batch.entry.i result.0
            batch.entry.place self.old self.new) }
        ensures within { result.0 < batch.entry.most }
        ensures same { IsSameYard self.old self.new }
    {
        let stand = Stand {
            alloc: self.alloc,
            windows: &self.windows,
            slot: &self.slots[batch.i],
        };
        let moment = Moment {
            time: batch.time,
            heard,
        };
        run(
            &stand,
            moment,
            batch.journal,
            &mut self.programs[batch.i],
            &mut self.store,
            &mut self.places,
            batch.most,
            batch.place,
        )
    }
}
