//! The port of one program of the machine for its orders at a moment: a window of the store, the devices of its slot,
//! and those that the pool lends.
ghost use Rattle.std.specs.Prelude.{◌≡◌, ◌+◌, ◌*◌, ◌%◌, ◌<◌, ◌≤◌, [], length};
ghost use Rattle.kdf_theory.specs.True.{one_if};
ghost use Rattle.kdf_yard.specs.Fields.Keeping.{IsActive, IsActiveBy, IsKept, IsKeptBy};
ghost use Rattle.kdf_yard.specs.Fields.Parts.{part_with};
ghost use Rattle.kdf_places.specs.Shared.{shared_in};
ghost use Rattle.kdf_places.specs.Spots.{AreDry};

use crate::devices::{first_free, first_of, is_free, kind_claimed, may_be_taken};
use crate::next::is_busy_at;
use crate::stint::hand_in;
use crate::{Loaded, Moment, Place, Remark, Stint};
use kdf_job::kind_lent;
use kdf_journal::{Journal, Kind};
use kdf_lockout::Store;
use kdf_places::{Start, make_ready_at, start_at, take_back_at, test_in, text_of};
use kdf_processor::{Port, Reserve, Spooled, Test, Wanted, least};
use kdf_relocate::Window;
use kdf_transfer::{Area, TransferOrder, characters_in};
use kdf_word::Word;
use std::alloc::{AllocError, Global};
use std::mem;

/// The view of one program for its orders at a moment. Its fields are lent by the machine: nothing is kept here but
/// the note.
#[derive(Drop)]
pub struct MachinePort<'a> {
    pub alloc: Global,
    pub window: Window,
    pub moment: Moment,
    /// The journal, which tells who has the devices of the pool.
    pub journal: &'a Journal,
    /// Its slot, which has its devices and those of the pool, and says whether the installation's service answers it.
    /// An order reads of it only what it needs.
    pub slot: &'a Loaded,
    pub claimed: &'a mut [bool; 16],
    pub spooled: &'a mut Vec<Spooled>,
    pub stints: &'a mut Vec<Stint>,
    pub store: &'a mut Store,
    pub places: &'a mut Vec<Place>,
    /// Memory for the characters that an order moves.
    pub block: &'a mut Vec<u8>,
    pub p: u8,
    /// What is to be noted of its orders.
    pub note: Remark,
    ghost at_group: { window.base % 32 ≡ 0 },
    ghost in_store: { window.base + window.size ≤ 32 * length store.now },
    ghost sixteen: { length places.now.items ≡ 16 },
    ghost dry: { AreDry places.now.items },
    ghost kept: { IsKeptBy p window slot.now stints.now.items places.now.items },
    ghost active: { IsActiveBy p window slot.now claimed.now stints.now.items },
    ghost blank: { block.now.items ≡ [] },
}

impl<'a> MachinePort<'a> {
    ghost use Rattle.std.specs.Prelude.{find, slice_index_or, true, false, Some, IfSome, IfNone};
    ghost use Rattle.kdf_processor.specs.Claims.{can_take, free_for, is_free};
    ghost use Rattle.kdf_processor.specs.Effect.{Acquires, Asks, Question, Releases};
    ghost use Rattle.kdf_processor.specs.View.{groups_of};
    ghost use Rattle.kdf_yard.specs.Fields.Parts.{in_pool, own_claims};
    ghost use Rattle.kdf_yard.specs.Fields.Shared.{free_in, is_out_of, is_pool_taken, is_taken_by};
    ghost use Rattle.kdf_places.specs.Shared.{is_busy_in};
    ghost use Rattle.kdf_yard.specs.Fields.MachinePort.{held_in, part_of, shared, Acts};
    ghost use Rattle.kdf_yard.specs.declared.remark.Remark.TheVariants.{Quiet};
    ghost use Rattle.kdf_yard.specs.Fields.Remarks.{IsPlain};

    /// What is to be noted of its orders.
    pub fn note(&self) -> Remark
        ensures { result ≡ self.now.note }
    {
        self.note
    }

    /// Whether nothing is to be noted of it.
    pub fn is_quiet(&self) -> bool
        ensures { result ≡ true → self.now.note ≡ Quiet }
    {
        matches!(self.note, Remark::Quiet)
    }

    /// The place of an address in the store.
    fn place(&self, address: u16) -> usize
        ensures { result ≡ self.now.window.base + address }
    {
        self.window.base as usize + usize::from(address)
    }

    /// Whether a device has a transfer.
    fn is_busy(&self, device: u8) -> bool
        ensures { result ≡ is_busy_in (shared self.now) device }
    {
        is_busy_at(self.store, self.places, device)
    }

    /// The least group of an area that is out.
    fn locked(&self, first: u16, last: u16) -> Option<u16>
        requires order { first ≤ last }
        requires inside { last < self.now.window.size }
        ensures { result ≡ find (is_out_of (part_of self.now) (shared self.now)) (groups_of first last) }
    {
        let base = self.window.base as usize;
        match self.store.first_out(self.place(first), self.place(last)) {
            Some(group) => Some((group - base / 32) as u16),
            None => None,
        }
    }

    /// Whether a device of the slot is wanted and isn't claimed.
    fn is_free(&self, d: u8, wanted: &Wanted) -> bool
        requires { d < 16 }
        ensures { result ≡ is_free wanted.now (own_claims (part_of self.now) (shared self.now)) d }
    {
        is_free(&self.slot.devices, self.claimed, self.places, d, wanted)
    }

    /// The least device of the slot that is wanted and isn't claimed.
    fn first_free(&self, wanted: &Wanted) -> Option<u8>
        ensures least { result
            ≡ free_for wanted.now (own_claims (part_of self.now) (shared self.now)) }
        ensures number { IfSome result (λ d. d < 16) }
    {
        least(|d| self.is_free(d, wanted))
    }

    /// Claims the least device of the slot that is wanted and isn't claimed.
    fn claim(&mut self, wanted: &Wanted) -> Option<u8>
        ensures least { result
            ≡ free_for wanted.now (own_claims (part_of self.old) (shared self.old)) }
        ensures claimed { IfSome result (λ d. Acts self.old (Acquires d) self.new) }
        ensures none { IfNone result (self.new ≡ self.old) }
    {
        let device = self.first_free(wanted)?;
        self.claimed[usize::from(device)] = true;
        Some(device)
    }

    /// Whether a device is one of this kind in the pool that the program hasn't claimed.
    fn can_take(&self, d: u8, kind: Kind) -> bool
        requires { d < 16 }
        ensures { result ≡ can_take (own_claims (part_of self.now) (shared self.now)) kind d }
    {
        may_be_taken(&self.slot.pool, self.claimed, d, kind)
    }

    /// The least device of this kind in the pool that is nobody's; there is one.
    #[inline(never)]
    fn least_free(&self, kind: Kind) -> u8
        requires { is_pool_taken (part_of self.now).pool (is_taken_by self.now.claimed.now (held_in self.now)) kind
            ≡ false }
        ensures least { free_in (part_of self.now).pool (is_taken_by self.now.claimed.now (held_in self.now)) kind
            ≡ Some result }
        ensures number { result < 16 }
    {
        match first_free(&self.slot.pool, self.claimed, self.journal, kind) {
            Some(d) => d,
            None => unreachable!(),
        }
    }

    /// Gives a device of the pool back that the program has and that has no transfer.
    #[inline(never)]
    fn return_pooled(&mut self, d: u8)
        requires number { d < 16 }
        requires pooled { in_pool (part_of self.old) d ≡ true }
        requires its { slice_index_or self.old.claimed.now d false ≡ true }
        requires idle { is_busy_in (shared self.old) d ≡ false }
        ensures { Acts self.old (Releases true d) self.new }
    {
        match take_back_at(self.alloc, self.places, usize::from(d)) {
            Some(device) => hand_in(self.stints, d, device),
            None => unreachable!(),
        }
        self.claimed[usize::from(d)] = false;
        self.note = Remark::Gave(d);
    }

    /// Notes an answer.
    fn tell(&mut self, answer: u64)
        ensures { (question : Question) → IsPlain question → Acts self.old (Asks question answer) self.new }
    {
        self.note = Remark::Told(answer);
    }
}

/// What an order is answered that asks whether something is.
fn answer_of(is: bool) -> u64
    ensures { result ≡ one_if is }
{
    if is { 1 } else { 0 }
}

impl Port for MachinePort<'_> {
    ghost use Rattle.std.specs.Prelude.{refl};
    ghost use Rattle.kdf_yard.specs.Fields.MachinePort.{shown, Acts, HasRoom};

    ghost shows = { shown };

    ghost acts = { Acts };

    ghost room = { HasRoom };

    fn size(&self) -> u16 {
        self.window.size
    }

    fn read(&self, address: u16) -> Result<Word, u16> {
        match self.store.read(self.place(address)) {
            Ok(word) => Ok(word),
            Err(_) => Err(address / 32),
        }
    }

    fn write(&mut self, address: u16, word: Word) -> Result<(), u16> {
        let place = self.place(address);
        match self.store.write(place, word) {
            Ok(()) => Ok(()),
            Err(_) => Err(address / 32),
        }
    }

    fn first_out(&self, first: u16, last: u16) -> Option<u16> {
        self.locked(first, last)
    }

    fn held(&self, device: u16) -> Option<Kind> {
        kind_claimed(
            &self.slot.devices,
            &self.slot.pool,
            self.claimed,
            self.places,
            device,
        )
    }

    fn busy(&self, device: u8) -> bool {
        self.is_busy(device)
    }

    fn first_busy(&self) -> Option<u8> {
        match first_of(self.places, self.p) {
            Some(d) => Some(d as u8),
            None => None,
        }
    }

    fn test(&self, device: u8, what: Test) -> bool {
        test_in(self.places, device, what)
    }

    fn start(&mut self, device: u8, order: TransferOrder, first: u16, last: u16) {
        let area = Area {
            first: self.place(first),
            last: self.place(last),
        };
        let block = mem::replace(self.block, Vec::new(self.alloc));
        let start = Start {
            p: self.p,
            order,
            area,
        };
        start_at(self.places, usize::from(device), start, self.store, block);
        self.note = Remark::Began(device);
    }

    fn ask_busy(&mut self, device: u8) -> bool {
        let is = self.is_busy(device);
        self.tell(answer_of(is));
        is
    }

    fn ask_area(&mut self, first: u16, last: u16) -> bool {
        let is = self.locked(first, last).is_some();
        self.tell(answer_of(is));
        is
    }

    fn ask_time(&mut self) -> u64 {
        let time = self.moment.time;
        self.tell(time);
        time
    }

    fn served(&self) -> bool {
        self.slot.served
    }

    fn ask_service(&mut self, _word: Word) -> Word {
        let heard = self.moment.heard;
        self.tell(heard.bits());
        heard
    }

    fn claim_label(&mut self, label: Word) -> Option<u8> {
        self.claim(&Wanted::Labelled(label))
    }

    fn claim_kind(&mut self, kind: Kind) -> Option<u8> {
        self.claim(&Wanted::Kinded(kind))
    }

    fn may_take(&self, kind: Kind) -> bool {
        least(|d| self.can_take(d, kind)).is_some()
    }

    fn pool_free(&self, kind: Kind) -> bool {
        first_free(&self.slot.pool, self.claimed, self.journal, kind).is_some()
    }

    fn take_pool(&mut self, kind: Kind) -> u8 {
        let d = self.least_free(kind);
        self.claimed[usize::from(d)] = true;
        self.stints.push_reserved(Stint {
            d,
            given: false,
            device: None,
        });
        self.note = Remark::Took(d);
        d
    }

    fn give_back(&mut self, device: u8) {
        if kind_lent(&self.slot.pool, device).is_some() {
            self.return_pooled(device);
        } else {
            self.claimed[usize::from(device)] = false;
        }
    }

    fn spool(&mut self, stream: u8, first: u16, last: u16) {
        let (from, to) = (self.place(first), self.place(last));
        let block = mem::replace(self.block, Vec::new(self.alloc));
        let text = text_of(block, self.store, from, to);
        self.spooled.push_reserved(Spooled { stream, text });
    }

    ghost stays = { λ _. record {
      same = record {
        moment = refl;
        journal = refl;
        claimed = refl;
        spooled = refl;
        stints = refl;
        store = refl;
        places = refl;
        block = refl;
      };
      part = refl;
      shared = refl;
      note = refl;
    } };
}

impl Reserve for MachinePort<'_> {
    ghost use Rattle.std.specs.Prelude.{◌+◌, ◌/◌, refl};
    ghost use Rattle.std.proofs.Common.{ap, ap₂, ◌∙◌};
    ghost use Rattle.kdf_processor.proofs.Rooms.{little_room};
    ghost use Rattle.kdf_processor.proofs.Beside.{there_by};
    ghost use Rattle.kdf_processor.specs.State.{word_in};
    ghost use Rattle.kdf_lockout.specs.Groups.{is_out};
    ghost use Rattle.kdf_places.proofs.WordsBeside.{group_beside, own_beside};
    ghost use Rattle.kdf_places.specs.Shared.{Shared};
    ghost use Rattle.kdf_places.specs.Spots.{leases_of};
    ghost use Rattle.kdf_yard.specs.Fields.Parts.{own_stock, Part};
    ghost use Rattle.kdf_yard.specs.Fields.MachinePort.{shared, shown, CanSpool, CanStart, CanTake, IsBlank, Stays};

    ghost keeps = { Stays };

    ghost itself = { λ _. record {
      same = record {
        moment = refl;
        journal = refl;
        claimed = refl;
        spooled = refl;
        stints = refl;
        store = refl;
        places = refl;
        block = refl;
      };
      part = refl;
      shared = refl;
      note = refl;
    } };

    ghost ready = { IsBlank };

    ghost little = { λ t act blank little. little_room (CanStart t) (CanSpool t) (CanTake t) (Unit {0}) act tt little };

    ghost beside = { λ t a w b x new acted ne there. there_by (shown t) (shown new) b x
        (ap (λ (q : Part). q.size) acted.part)
        (ap₂ (λ (q : Part) (s : Shared). is_out s.cells (q.base / 32 + b / 32)) acted.part acted.shared
        ∙ group_beside (shared t).cells (t.window.base + a) w (t.window.base / 32 + b / 32) there.here)
        (ap₂ (λ (q : Part) (s : Shared). word_in (own_stock q 0 s) b) acted.part acted.shared
        ∙ own_beside t.window.base t.window.size a w b (shared t).cells (leases_of (shared t).spots) t.at_group
        there.inside ne there.here)
        there };

    fn reserve_transfer(
        &mut self,
        device: u8,
        order: TransferOrder,
        first: u16,
        last: u16,
    ) -> Result<(), AllocError> {
        self.block.reserve(characters_in(first, last))?;
        make_ready_at(self.places, usize::from(device), order)
    }

    fn reserve_stint(&mut self) -> Result<(), AllocError> {
        self.stints.reserve(1)
    }

    fn reserve_text(&mut self, first: u16, last: u16) -> Result<(), AllocError> {
        self.spooled.reserve(1)?;
        self.block.reserve(characters_in(first, last))
    }
}
