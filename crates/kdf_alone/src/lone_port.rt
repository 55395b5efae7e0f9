//! The port of a program by itself.
ghost use Rattle.std.specs.Prelude.{◌≡◌, ◌<◌, [], All, length, map, slice_index_or, HoldsAt, IfNone, IfSome, OnOk};
ghost use Rattle.std.proofs.Props.{props};
ghost use Rattle.kdf_alone.specs.declared.lone_place.LonePlace.TheVariants.{Absent};
ghost use Rattle.kdf_alone.specs.LonePlaces.{own_fixture_in, pool_kind_in, progress_in, IsReady, IsWhole};
ghost use Rattle.kdf_alone.specs.Stints.{ended, AreLent, HaveOneOpen, IsKept, IsOpen};

use crate::lone_place::LonePlace;
use crate::stint::Stint;
use crate::text::{characters_out, text_of};
use kdf_journal::Kind;
use kdf_processor::{Port, Reserve, Spooled, Test, Wanted, least};
use kdf_transfer::{Area, Device, TransferOrder, characters_in};
use kdf_word::Word;
use std::alloc::{AllocError, Global};

/// A program's store and devices.
#[derive(Drop)]
pub struct LonePort {
    alloc: Global,
    size: u16,
    words: Vec<Word>,
    /// The devices by number, sixteen places.
    places: Vec<LonePlace>,
    claimed: [bool; 16],
    spooled: Vec<Spooled>,
    /// The stints, in the order in which their devices were taken.
    stints: Vec<Stint>,
    /// An installation's service answers the program.
    served: bool,
    /// How many answers were taken.
    asked: u32,
    /// What the next order is answered that asks.
    answer: u64,
    /// Memory for the characters that an order moves.
    block: Vec<u8>,
    ghost whole: { length words.items ≡ size },
    ghost sixteen: { length places.items ≡ 16 },
    ghost pooled: { All IsWhole places.items } by { Prim.hlevel props },
    ghost kept: { All (IsKept (map pool_kind_in places.items)) stints.items } by { Prim.hlevel props },
    ghost lent: { AreLent places.items claimed stints.items } by { Prim.hlevel props },
    ghost blank: { block.items ≡ [] },
}

impl LonePort {
    ghost use Rattle.std.specs.Prelude.{◌+◌, ◌-◌, slice_index, slice_get, None, true, false};
    ghost use Rattle.std.specs.Option.{option_copied};
    ghost use Rattle.kdf_processor.specs.Claims.{can_take, free_for, is_free, least_pooled, may_take, taken_device};
    ghost use Rattle.kdf_processor.specs.Effect.{Act, Acquires};
    ghost use Rattle.kdf_processor.specs.State.{is_pooled, lendings, pool_kind_at, unclaimed};
    ghost use Rattle.kdf_processor.specs.Stints.{IsStint};
    ghost use Rattle.kdf_alone.specs.declared.lone_place.LonePlace.TheVariants.{Pooled};
    ghost use Rattle.kdf_alone.specs.LonePort.{claims_of, stock_of, Acts, HasLoneRoom};
    ghost use Rattle.kdf_alone.specs.LonePlaces.{own_device_in};
    ghost use Rattle.kdf_alone.specs.Stints.{IsUnlent};

    /// A store and devices, none of them claimed, of a program that a service answers where it is served.
    #[tactic(auto, unfolding(kdf_processor::specs::State::unclaimed))]
    pub fn new(
        alloc: Global,
        size: u16,
        words: Vec<Word>,
        places: Vec<LonePlace>,
        served: bool,
    ) -> LonePort
        requires whole { length words.items ≡ size }
        requires sixteen { length places.items ≡ 16 }
        requires pooled { All IsWhole places.items }
        requires unlent { All IsUnlent places.items }
        ensures { stock_of result ≡ record {
          claims = record {
            size = size;
            claimed = unclaimed;
            fixtures = map own_fixture_in places.items;
            pool = map pool_kind_in places.items;
            served = served;
          };
          spooled = [];
          asked = 0;
          stints = [];
          store = words.items;
          devices = map progress_in places.items;
        } }
    {
        LonePort {
            alloc,
            size,
            words,
            places,
            claimed: [false; 16],
            spooled: Vec::new(alloc),
            stints: Vec::new(alloc),
            served,
            asked: 0,
            answer: 0,
            block: Vec::new(alloc),
        }
    }

    /// The word at an address.
    pub fn word(&self, address: u16) -> Word
        requires { address < self.now.size }
        ensures { result ≡ slice_index self.now.words.items address }
    {
        self.words[usize::from(address)]
    }

    /// The device of this number, if the program has one of its own.
    pub fn device(&self, d: u8) -> Option<&Device>
        ensures { option_copied result ≡ own_device_in (slice_index_or self.now.places.items d Absent) }
    {
        match self.places.get(usize::from(d)) {
            Some(LonePlace::Own(device)) => Some(device),
            _ => None,
        }
    }

    /// How many stints there are.
    pub fn stints(&self) -> usize
        ensures { result ≡ length (lendings (stock_of self.now)) }
    {
        self.stints.len()
    }

    /// The stint that began after `i` others: the number of its device, whether that was given back, and the device.
    pub fn stint(&self, i: usize) -> (u8, bool, &Device)
        requires { i < length (lendings (stock_of self.now)) }
        ensures { IfSome (slice_get (lendings (stock_of self.now)) i) (λ x. IsStint x result.0 result.1 result.2.now) }
    {
        let stint = &self.stints[i];
        match &stint.left {
            Some(device) => (stint.d, true, device),
            None => (stint.d, false, self.lent(stint.d)),
        }
    }

    /// The device of the pool of this number.
    fn lent(&self, d: u8) -> &Device
        requires { is_pooled (claims_of self.now) d ≡ true }
        ensures { slice_index_or self.now.places.items d Absent ≡ Pooled result.now }
    {
        match &self.places[usize::from(d)] {
            LonePlace::Pooled(device) => device,
            LonePlace::Absent | LonePlace::Own(_) => unreachable!(),
        }
    }

    /// What was spooled.
    pub fn spooled(&self) -> &[Spooled]
        ensures { result.now ≡ self.now.spooled.items }
    {
        &self.spooled
    }

    /// How many answers were taken.
    pub fn asked(&self) -> u32
        ensures { result ≡ self.now.asked }
    {
        self.asked
    }

    /// Sets what the next order is answered if it asks.
    pub fn prepare(&mut self, answer: u64)
        ensures stock { stock_of self.new ≡ stock_of self.old }
        ensures answer { self.new.answer ≡ answer }
        ensures room { (act : Act) → HasLoneRoom self.old act → HasLoneRoom self.new act }
    {
        self.answer = answer;
    }

    /// Takes the answer.
    fn take_answer(&mut self) -> u64
        requires { self.old.asked < u32.MAX }
        ensures answer { result ≡ self.old.answer }
        ensures taken { stock_of self.new ≡ record (stock_of self.old) { asked = self.old.asked + 1 } }
    {
        self.asked += 1;
        self.answer
    }

    /// The least device that is wanted and isn't claimed.
    fn first_free(&self, wanted: &Wanted) -> Option<u8>
        ensures least { result ≡ free_for wanted.now (claims_of self.now) }
        ensures number { IfSome result (λ d. d < 16) }
    {
        least(|d| self.is_free(d, wanted))
    }

    /// Whether a device is wanted and isn't claimed.
    fn is_free(&self, d: u8, wanted: &Wanted) -> bool
        requires { d < 16 }
        ensures { result ≡ is_free wanted.now (claims_of self.now) d }
    {
        let place = usize::from(d);
        self.places[place].is_wanted(wanted) && !self.claimed[place]
    }

    /// Claims the least device that is wanted and isn't claimed.
    fn claim(&mut self, wanted: &Wanted) -> Option<u8>
        ensures least { result ≡ free_for wanted.now (claims_of self.old) }
        ensures claimed { IfSome result (λ d. Acts self.old (Acquires d) self.new) }
        ensures none { IfNone result (self.new ≡ self.old) }
    {
        let device = self.first_free(wanted)?;
        self.claimed[usize::from(device)] = true;
        Some(device)
    }

    /// The kind of a device of the pool, where it has one of this number.
    pub fn pool_kind(&self, d: u8) -> Option<Kind>
        requires { d < 16 }
        ensures { result ≡ pool_kind_at (claims_of self.now) d }
    {
        self.places[usize::from(d)].pool_kind()
    }

    /// Whether a device of the pool is of this kind and isn't claimed.
    fn can_take(&self, d: u8, kind: Kind) -> bool
        requires { d < 16 }
        ensures { result ≡ can_take (claims_of self.now) kind d }
    {
        let place = usize::from(d);
        self.places[place].is_pooled(kind) && !self.claimed[place]
    }

    /// The least such device.
    fn least_pooled(&self, kind: Kind) -> Option<u8>
        ensures least { result ≡ least_pooled (claims_of self.now) kind }
        ensures number { IfSome result (λ d. d < 16) }
    {
        least(|d| self.can_take(d, kind))
    }

    /// The device that is taken: that which is answered, where it may be, or else the least.
    fn taken(&self, kind: Kind) -> u8
        requires { may_take (claims_of self.now) kind ≡ true }
        ensures taken { result ≡ taken_device (claims_of self.now) kind self.now.answer }
        ensures number { result < 16 }
    {
        if self.answer < 16 && self.can_take(self.answer as u8, kind) {
            return self.answer as u8;
        }
        self.least_pooled(kind).unwrap_or(0)
    }
}

/// The place of the last stint of a device that isn't given back.
fn last_unended(stints: &[Stint], d: u8) -> Option<usize>
    ensures is { IfSome result (λ i. HoldsAt (IsOpen d) stints.now i) }
    ensures number { IfSome result (λ i. i < length stints.now) }
    ensures none { IfNone result (All (λ x. IsOpen d x → ⊥) stints.now) }
{
    for i in (0..stints.len()).rev() {
        let stint = &stints[i];
        if stint.d == d && stint.left.is_none() {
            return Some(i);
        }
    }
    None
}

/// Ends the last stint of this device that isn't given back, if there is one: it keeps the device.
fn end_stint(stints: &mut Vec<Stint>, d: u8, left: Device)
    requires one { HaveOneOpen stints.old.items }
    ensures { stints.new.items ≡ map (ended d left) stints.old.items }
{
    if let Some(i) = last_unended(stints, d) {
        stints[i].left = Some(left);
    }
}

/// Takes the memory for the blocks that an order adds to the device of this number, if there is one.
fn make_ready(places: &mut Vec<LonePlace>, d: u8, order: TransferOrder) -> Result<(), AllocError>
    ensures own { map own_fixture_in places.new.items ≡ map own_fixture_in places.old.items }
    ensures kinds { map pool_kind_in places.new.items ≡ map pool_kind_in places.old.items }
    ensures progresses { map progress_in places.new.items ≡ map progress_in places.old.items }
    ensures count { length places.new.items ≡ length places.old.items }
    ensures whole { All IsWhole places.old.items → All IsWhole places.new.items }
    ensures ready { OnOk result (IsReady order (slice_index_or places.new.items d Absent)) }
{
    let place = usize::from(d);
    if place >= places.len() {
        return Ok(());
    }
    places[place].make_ready(order)
}

impl Port for LonePort {
    ghost use Rattle.std.specs.Prelude.{refl};
    ghost use Rattle.kdf_alone.specs.LonePort.{shown, Acts, HasLoneRoom};

    ghost shows = { shown };

    ghost acts = { Acts };

    ghost room = { HasLoneRoom };

    fn size(&self) -> u16 {
        self.size
    }

    fn read(&self, address: u16) -> Result<Word, u16> {
        Ok(self.words[usize::from(address)])
    }

    fn write(&mut self, address: u16, word: Word) -> Result<(), u16> {
        self.words[usize::from(address)] = word;
        Ok(())
    }

    fn first_out(&self, _first: u16, _last: u16) -> Option<u16> {
        None
    }

    fn held(&self, device: u16) -> Option<Kind> {
        let place = usize::from(device);
        if place < 16 && self.claimed[place] {
            self.places[place].kind()
        } else {
            None
        }
    }

    fn busy(&self, _device: u8) -> bool {
        false
    }

    fn first_busy(&self) -> Option<u8> {
        None
    }

    fn test(&self, device: u8, what: Test) -> bool {
        self.places[usize::from(device)].test(what)
    }

    fn start(&mut self, device: u8, order: TransferOrder, first: u16, last: u16) {
        let area = Area {
            first: usize::from(first),
            last: usize::from(last),
        };
        let block = std::mem::replace(&mut self.block, Vec::new(self.alloc));
        let place = &mut self.places[usize::from(device)];
        place.transfer(order, area, &mut self.words, block);
    }

    fn ask_busy(&mut self, _device: u8) -> bool {
        self.take_answer() != 0
    }

    fn ask_area(&mut self, _first: u16, _last: u16) -> bool {
        self.take_answer() != 0
    }

    fn ask_time(&mut self) -> u64 {
        self.take_answer()
    }

    fn served(&self) -> bool {
        self.served
    }

    fn ask_service(&mut self, _word: Word) -> Word {
        Word::new(self.take_answer() % (1 << 48))
    }

    fn claim_label(&mut self, label: Word) -> Option<u8> {
        self.claim(&Wanted::Labelled(label))
    }

    fn claim_kind(&mut self, kind: Kind) -> Option<u8> {
        self.claim(&Wanted::Kinded(kind))
    }

    fn may_take(&self, kind: Kind) -> bool {
        self.least_pooled(kind).is_some()
    }

    fn pool_free(&self, _kind: Kind) -> bool {
        true
    }

    fn take_pool(&mut self, kind: Kind) -> u8 {
        let d = self.taken(kind);
        self.asked += 1;
        self.claimed[usize::from(d)] = true;
        self.stints.push_reserved(Stint { d, left: None });
        d
    }

    fn give_back(&mut self, device: u8) {
        let place = usize::from(device);
        self.claimed[place] = false;
        if let Some(left) = self.places[place].hand_over(self.alloc) {
            end_stint(&mut self.stints, device, left);
        }
    }

    fn spool(&mut self, stream: u8, first: u16, last: u16) {
        let block = std::mem::replace(&mut self.block, Vec::new(self.alloc));
        let text = text_of(
            block,
            &self.words[usize::from(first)..usize::from(last) + 1],
        );
        self.spooled.push_reserved(Spooled { stream, text });
    }

    ghost stays = { λ _. refl };
}

impl Reserve for LonePort {
    ghost use Rattle.std.specs.Prelude.{refl};
    ghost use Rattle.kdf_processor.proofs.Rooms.{little_room};
    ghost use Rattle.kdf_processor.proofs.Beside.{stock_beside};
    ghost use Rattle.kdf_alone.specs.LonePort.{claims_of, given, stock_of, CanAsk, CanSpool, CanStart, CanTake, Stays};

    ghost keeps = { Stays };

    ghost itself = { λ _. record { stock = refl; answer = refl } };

    ghost ready = { CanAsk };

    ghost little = { λ b act can little. little_room (CanStart b) (CanSpool b) (CanTake b) (CanAsk b) act can little };

    ghost beside = { λ b a w e x new acted ne there. stock_beside (given (claims_of b) b.answer)
        (given (claims_of new) new.answer) (stock_of b) (stock_of new) a w e x acted ne there };

    fn reserve_transfer(
        &mut self,
        device: u8,
        order: TransferOrder,
        first: u16,
        last: u16,
    ) -> Result<(), AllocError> {
        self.block.reserve(characters_out(order, first, last))?;
        make_ready(&mut self.places, device, order)
    }

    fn reserve_text(&mut self, first: u16, last: u16) -> Result<(), AllocError> {
        self.spooled.reserve(1)?;
        self.block.reserve(characters_in(first, last))
    }

    fn reserve_stint(&mut self) -> Result<(), AllocError> {
        self.stints.reserve(1)
    }
}
