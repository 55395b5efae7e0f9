//! The machine: programs in their slots, the store and the devices that they share, and the journal.
ghost use Rattle.std.specs.Prelude.{◌≡◌, ℕ, ◌+◌, ◌<◌, ◌≤◌, length, map, true, false, is_some, None, IfOk, IfSome, IsSomeAnd, OnErr, [], slice_get};
ghost use Rattle.std.specs.List.{All};
ghost use Rattle.std.specs.Option.{option_copied, option_map};
ghost use Rattle.kdf_journal.specs.Counts.{calls, clock, holder, pending};
ghost use Rattle.kdf_journal.specs.Steps.{Ends, Moves, Sets, Swaps};
ghost use Rattle.kdf_job.specs.Shows.{shown_slot};
ghost use Rattle.kdf_job.specs.WellFormed.{AreSlots};
ghost use Rattle.kdf_place.specs.declared.image.Image.{Image};
ghost use Rattle.kdf_processor.specs.Claims.{is_claimed};
ghost use Rattle.kdf_processor.specs.State.{State, begin, fixture_at, is_pooled, lendings, own_fixture_at, word_at};
ghost use Rattle.kdf_processor.specs.Stints.{IsStint};
ghost use Rattle.kdf_service.specs.Rules.{IsService};
ghost use Rattle.kdf_director.specs.declared.halt.Halt.TheVariants.{Never};
ghost use Rattle.kdf_director.specs.Advance.{AdvanceWith, Enters, OthersStay};
ghost use Rattle.kdf_theory.specs.Legal.{IsLegal, IsTrue};
ghost use Rattle.kdf_director.specs.Lends.{IsLent, IsStored, window_in};
ghost use Rattle.kdf_director.specs.Halts.{HasMadeButTo, HasMadeTo};
ghost use Rattle.kdf_theory.specs.Loading.{HaveImages, slots_of};
ghost use Rattle.kdf_director.specs.Fields.Agrees.{IsReady};
ghost use Rattle.kdf_director.specs.Fields.Viewed.{shown_of};
ghost use Rattle.kdf_theory.specs.Next.{any_live};
ghost use Rattle.kdf_director.specs.Runs.{HasMadeAtMost, HasMadeButFewer};
ghost use Rattle.kdf_theory.specs.Served.{unasked, IsAnswered, IsTrueFor};
ghost use Rattle.kdf_theory.specs.MachineView.{IsDeviceAt, ShowsSeen, state_of};
ghost use Rattle.kdf_theory.specs.Slots.{NoneServed};

#[cfg(test)]
mod fields;

use crate::Halt;
use crate::orders::orders;
use kdf_job::Job;
use kdf_journal::{CALL_LIMIT, Entry, Journal};
use kdf_limits::EVENTS;
use kdf_lockout::Store;
use kdf_place::Image;
use kdf_places::{Place, cancel_all, end_at, move_at, transfer_in};
use kdf_processor::{Need, Registers, Spooled};
use kdf_relocate::Window;
use kdf_service::Service;
use kdf_transfer::{Device, Transfer};
use kdf_word::Word;
use kdf_yard::{
    Loaded, Program, Yard, device_in, is_any_on, is_claimed_in, load_yard, registers_of, stint_in,
    stints_of, texts_of, window_given, window_of, word_of,
};
use std::alloc::{AllocError, Global};
use std::marker::Model;
use std::mem;

/// What a call of a machine did.
#[derive(Clone, Copy, PartialEq, Eq)]
pub enum Progress {
    /// The program of this slot obeyed an order.
    Ran(u8),
    /// The program of this slot, whose turn it was, is held by this need.
    Held(u8, Need),
    /// Programs are live, and none can go on.
    Idle,
    /// No program is live.
    AllEnded,
}

/// A schedule has so many events at most.
pub const EVENT_LIMIT: u32 = EVENTS;

/// The programs of a job over the store and the devices that they share. Contracts see the slots as they were loaded,
/// each program's own state, the journal, and how many events more can be entered in it.
pub struct Machine {
    alloc: Global,
    slots: Vec<Loaded>,
    windows: [Window; 4],
    store: Store,
    programs: Vec<Program>,
    devices: Vec<Place>,
    journal: Journal,
    room: u32,
}

impl Model for Machine {
    ghost use Rattle.kdf_theory.specs.MachineView.{MachineView};

    ghost Value = { MachineView };

    ghost use Rattle.kdf_director.specs.Fields.Machines.{shown, IsMachine};

    ghost view = { shown };

    ghost invariant = { IsMachine };
}

impl Machine {
    /// A machine before its first order: the slots of a well-formed job, each with its image, which fits it, and with
    /// copies of its devices, an empty journal, and room for the job's events. At Err nothing is left.
    pub fn load(alloc: Global, job: &Job, images: &[Image]) -> Result<Machine, AllocError>
        requires slots { AreSlots (map shown_slot job.now.slots.items) }
        requires images { HaveImages (map shown_slot job.now.slots.items)
            (map (λ (x : Image). x.words.items) images.now) }
        requires few_events { length job.now.events.items ≤ EVENT_LIMIT }
        ensures slots { IfOk result (λ m. m.slots ≡ slots_of (map shown_slot job.now.slots.items)
            (map (λ (x : Image). x.words.items) images.now)) }
        ensures states { IfOk result (λ m. m.states ≡ map begin m.slots) }
        ensures journal { IfOk result (λ m. m.journal ≡ []) }
        ensures room { IfOk result (λ m. m.room ≡ length job.now.events.items) }
    {
        let room = job.events.len() as u32;
        let mut journal = Journal::new(alloc);
        journal.reserve(room)?;
        let yard = load_yard(alloc, &job.slots, images)?;
        Ok(machine_of(yard, journal, room))
    }

    /// One call: the program of the highest priority that is live and has no standing hold obeys its next order, or is
    /// held by the first of its needs that is pending; where each live program has one, that is entered, and where none
    /// is live, nothing is. All memory is taken first; at Err the machine is unchanged. No program may be served: an
    /// order of one that is takes `order_with`.
    pub fn order(&mut self) -> Result<Progress, AllocError>
        requires few { calls self.old.journal < CALL_LIMIT }
        requires unserved { NoneServed self.old.slots }
        ensures took { IfOk result (AdvanceWith unasked self.old self.new) }
        ensures answered { IsAnswered unasked self.old.slots self.old.journal self.new.journal }
        ensures slots { self.new.slots ≡ self.old.slots }
        ensures room { self.new.room ≡ self.old.room }
        ensures err { OnErr result (self.new ≡ self.old) }
    {
        let _journal = self.journal();
        self.order_with(&Service::new(|word| word))
    }

    /// One call, as `order` makes it, also for programs that are served: the order that is next may ask the service,
    /// and its answer is drawn before the order, from the word on which the order would ask. It records no other
    /// answer. A journal that was true for the service stays so.
    pub fn order_with<F: Fn(u64) -> u64>(
        &mut self,
        service: &Service<F>,
    ) -> Result<Progress, AllocError>
        requires service { IsService (F.pre service.now) (F.post service.now) }
        requires few { calls self.old.journal < CALL_LIMIT }
        ensures took { IfOk result (AdvanceWith (F.post service.now) self.old self.new) }
        ensures answered { IsAnswered (F.post service.now) self.old.slots self.old.journal self.new.journal }
        ensures truthful { IsTrueFor (F.post service.now) self.old.slots self.old.journal
            → IsTrueFor (F.post service.now) self.new.slots self.new.journal }
        ensures slots { self.new.slots ≡ self.old.slots }
        ensures room { self.new.room ≡ self.old.room }
        ensures err { OnErr result (self.new ≡ self.old) }
    {
        self.calls_with(1, service)
    }

    /// So many calls in turn, one at least, each as `order_with` makes it, or fewer, where the last found no live
    /// program. Answers what the last did. At Err some are made, and the one that had no memory has changed nothing.
    #[inline(always)]
    pub(crate) fn calls_with<F: Fn(u64) -> u64>(
        &mut self,
        most: u32,
        service: &Service<F>,
    ) -> Result<Progress, AllocError>
        requires service { IsService (F.pre service.now) (F.post service.now) }
        requires some { 0 < most }
        requires few { calls self.old.journal + most ≤ CALL_LIMIT }
        ensures made { IfOk result (HasMadeAtMost (F.post service.now) most self.old self.new) }
        ensures slots { self.new.slots ≡ self.old.slots }
        ensures room { self.new.room ≡ self.old.room }
        ensures err { OnErr result (HasMadeButFewer (F.post service.now) most self.old self.new) }
    {
        let mut left = most;
        self.orders_to(&mut left, service, Halt::Never)
    }

    /// Of so many calls that are left, one at least, those up to one after which they stop, or that found no live program.
    /// Answers what the last did, and leaves the number of those that are left still. At Err some are made, and the one
    /// that had no memory has changed nothing.
    ///
    /// Everything that runs a schedule makes its calls here, even one by itself: what obeys an order is compiled into
    /// this loop, which it would not be if it stood in two. The loop stays apart from its caller, whose values would be
    /// moved out of its way at each order.
    #[inline(never)]
    pub fn orders_to<F: Fn(u64) -> u64>(
        &mut self,
        left: &mut u32,
        service: &Service<F>,
        halt: Halt,
    ) -> Result<Progress, AllocError>
        requires service { IsService (F.pre service.now) (F.post service.now) }
        requires some { 0 < left.old }
        requires few { calls self.old.journal + left.old ≤ CALL_LIMIT }
        ensures made { IfOk result (HasMadeTo (F.post service.now) halt left.old left.new self.old self.new) }
        ensures slots { self.new.slots ≡ self.old.slots }
        ensures room { self.new.room ≡ self.old.room }
        ensures err { OnErr result (HasMadeButTo (F.post service.now) halt left.old left.new self.old self.new) }
    {
        let mut yard = Yard {
            alloc: self.alloc,
            windows: self.windows,
            slots: mem::replace(&mut self.slots, Vec::new(self.alloc)),
            store: mem::replace(&mut self.store, Store::none(self.alloc)),
            programs: mem::replace(&mut self.programs, Vec::new(self.alloc)),
            places: mem::replace(&mut self.devices, Vec::new(self.alloc)),
        };
        let room = self.room;
        let made = orders(&mut yard, &mut self.journal, left, service, room, halt);
        // What stood in the fields meanwhile is empty and has no memory, so there is nothing to drop.
        let Yard {
            alloc: _,
            windows: _,
            slots,
            store,
            programs,
            places,
        } = yard;
        mem::forget(mem::replace(&mut self.slots, slots));
        mem::forget(mem::replace(&mut self.store, store));
        mem::forget(mem::replace(&mut self.programs, programs));
        mem::replace(&mut self.devices, places).destroy_empty();
        made
    }

    /// How many events more can be entered.
    pub fn room(&self) -> u32
        ensures { result ≡ self.now.room }
    {
        self.room
    }

    /// Takes memory for so many entries more of the journal, which then need not grow for them, and changes nothing
    /// that is seen. At Err there is none.
    pub fn reserve_entries(&mut self, more: u32) -> Result<(), AllocError>
        ensures { self.new ≡ self.old }
    {
        self.journal.reserve(more.saturating_add(self.room + 2))
    }

    /// Moves the next `n` words, 1 to 4,096, of the transfer on device `d`, or those that are left; where it has none,
    /// that they were called for is entered all the same. Every other program stays as it is.
    pub fn move_words(&mut self, d: u8, n: u16)
        requires device { d < 16 }
        requires room { 0 < self.old.room }
        requires some { 0 < n }
        requires few { n ≤ 4096 }
        ensures entered { Enters self.old self.new (Moves d n) }
        ensures others { OthersStay self.old self.new d }
    {
        move_at(&mut self.devices, usize::from(d), n);
        self.journal.push(Entry::Move { d, n });
        self.room -= 1;
    }

    /// Moves the rest of the transfer on device `d` and ends it; where it has none, its end is entered all the same.
    /// Every other program stays as it is.
    pub fn end(&mut self, d: u8)
        requires device { d < 16 }
        requires room { 0 < self.old.room }
        ensures entered { Enters self.old self.new (Ends d) }
        ensures others { OthersStay self.old self.new d }
    {
        end_at(&mut self.devices, usize::from(d), &mut self.store);
        self.journal.push(Entry::End { d });
        self.room -= 1;
    }

    /// Sets the clock, which never goes back, and changes no program.
    pub fn clock(&mut self, t: u64)
        requires room { 0 < self.old.room }
        requires rises { clock self.old.journal ≤ t }
        ensures entered { Enters self.old self.new (Sets t) }
        ensures states { self.new.states ≡ self.old.states }
    {
        self.journal.push(Entry::Clock { t });
        self.room -= 1;
    }

    /// Exchanges the priorities of two programs, and changes neither.
    pub fn swap(&mut self, p: u8, q: u8)
        requires p { p < 4 }
        requires q { q < 4 }
        requires room { 0 < self.old.room }
        ensures entered { Enters self.old self.new (Swaps p q) }
        ensures states { self.new.states ≡ self.old.states }
    {
        self.journal.push(Entry::Swap { p, q });
        self.room -= 1;
    }

    /// Whether a program is live.
    pub(crate) fn is_any_live(&self) -> bool
        ensures live { result ≡ any_live self.now.slots self.now.journal }
        ensures legal { IsLegal self.now.slots self.now.journal }
        ensures truly { IsTrue self.now.slots self.now.journal }
        ensures seen { ShowsSeen self.now }
    {
        is_any_on(&self.programs)
    }

    /// The registers of program `p`; None where there is no such slot.
    pub fn seen(&self, p: u8) -> Option<&Registers>
        ensures registers { option_copied result
            ≡ option_map (λ state. state.registers) (state_of self.now p) }
        ensures legal { IsLegal self.now.slots self.now.journal }
        ensures truly { IsTrue self.now.slots self.now.journal }
        ensures seen { ShowsSeen self.now }
    {
        registers_of(&self.programs, p)
    }

    /// The word of program `p` at an address of its store.
    pub fn word(&self, p: u8, address: u16) -> Word
        requires { IsSomeAnd (state_of self.now p) (λ state. address < state.stock.claims.size) }
        ensures { IsSomeAnd (state_of self.now p) (λ state. result ≡ word_at state address) }
    {
        let window = window_of(&self.windows, p);
        word_of(window, &self.store, &self.devices, address)
    }

    /// The texts that program `p` spooled, the oldest first.
    pub fn spooled(&self, p: u8) -> &[Spooled]
        requires { is_some (state_of self.now p) ≡ true }
        ensures { IsSomeAnd (state_of self.now p) (λ state. result.now ≡ state.stock.spooled) }
    {
        texts_of(&self.programs, p)
    }

    /// The device of this number, as it is seen; None where no slot has one, also for a number of the pool.
    pub fn device(&self, d: u8) -> Option<&Device>
        ensures own { (p : ℕ) → IfSome (state_of self.now p) (λ state.
            is_some (own_fixture_at state.stock.claims d) ≡ true → IsDeviceAt state d (option_copied result)) }
        ensures none { All (λ (state : State). own_fixture_at state.stock.claims d ≡ None) self.now.states
            → result ≡ None }
    {
        device_in(&self.slots, &self.devices, d)
    }

    /// Whether the device of this number is claimed, by the program that has it; for one of the pool, whether it has a
    /// holder.
    pub fn claimed(&self, d: u8) -> bool
        ensures own { (p : ℕ) → IfSome (state_of self.now p) (λ state.
            is_some (own_fixture_at state.stock.claims d) ≡ true → result ≡ is_claimed state.stock.claims d) }
        ensures pool { (p : ℕ) → IfSome (state_of self.now p) (λ state.
            is_pooled state.stock.claims d ≡ true → result ≡ is_some (holder d self.now.journal)) }
        ensures none { All (λ (state : State). fixture_at state.stock.claims d ≡ None) self.now.states
            → result ≡ false }
    {
        is_claimed_in(&self.slots, &self.programs, &self.journal, d)
    }

    /// How many stints program `p` has: how often it took a device from the pool.
    pub fn stints(&self, p: u8) -> usize
        requires { is_some (state_of self.now p) ≡ true }
        ensures { IsSomeAnd (state_of self.now p) (λ state. result ≡ length (lendings state.stock)) }
    {
        stints_of(&self.programs, p).len()
    }

    /// The stint of program `p` that began after `i` others: the number of its device, whether that was given back, and
    /// the device, as it is seen.
    pub fn stint(&self, p: u8, i: usize) -> (u8, bool, &Device)
        requires { IsSomeAnd (state_of self.now p) (λ state. i < length (lendings state.stock)) }
        ensures { IsSomeAnd (state_of self.now p) (λ state.
            IfSome (slice_get (lendings state.stock) i) (λ x. IsStint x result.0 result.1 result.2.now)) }
    {
        stint_in(&self.programs, &self.devices, p, i)
    }

    /// What happened so far. At each moment it is legal, and each program's own state is what is seen of its lone run.
    pub fn journal(&self) -> &Journal
        ensures entries { result.now.entries ≡ self.now.journal }
        ensures legal { IsLegal self.now.slots self.now.journal }
        ensures truly { IsTrue self.now.slots self.now.journal }
        ensures seen { ShowsSeen self.now }
    {
        &self.journal
    }

    /// The store. The group of an address is out of it exactly where it is pending for the program; where it is here,
    /// the program's word is at its place.
    pub fn store(&self) -> &Store
        ensures { (p a : ℕ) → IfSome (state_of self.now p) (λ state.
            a < state.stock.claims.size → IsStored self.now result.now p a state) }
    {
        &self.store
    }

    /// The window of program `p`; None where there is no such slot.
    pub fn window(&self, p: u8) -> Option<Window>
        ensures { result ≡ window_in self.now.slots p }
    {
        window_given(&self.windows, &self.programs, p)
    }

    /// The transfer on device `d`, where the journal has one pending: the flight that it tells.
    pub fn transfer(&self, d: u8) -> Option<&Transfer>
        ensures { IsLent self.now d (pending d self.now.journal) (option_map (λ t. t.now) result) }
    {
        transfer_in(&self.devices, usize::from(d))
    }

    /// Cancels each transfer, brings its groups back and gives all up.
    pub fn close(self) {
        let Machine {
            alloc: _,
            slots: _,
            windows: _,
            mut store,
            programs: _,
            devices,
            journal: _,
            room: _,
        } = self;
        cancel_all(devices, &mut store);
    }
}

/// The machine that stands as a yard does, with what is recorded of it, and room for so many events.
fn machine_of(yard: Yard, journal: Journal, room: u32) -> Machine
    requires ready { IsReady yard journal room }
    ensures shown { result ≡ shown_of yard journal room }
{
    let Yard {
        alloc,
        windows,
        slots,
        store,
        programs,
        places,
    } = yard;
    Machine {
        alloc,
        slots,
        windows,
        store,
        programs,
        devices: places,
        journal,
        room,
    }
}
