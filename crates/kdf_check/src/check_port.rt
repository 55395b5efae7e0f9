//! The port of a program that is followed.
ghost use Rattle.std.specs.Prelude.{◌≡◌};
ghost use Rattle.kdf_check.specs.CheckPort.{groups_in};

use crate::pool::first_free;
use crate::table::{Pending, Table};
use kdf_alone::LonePort;
use kdf_journal::{Entry, Journal, Kind};
use kdf_processor::{Port, Reserve, Test};
use kdf_transfer::TransferOrder;
use kdf_word::Word;
use std::alloc::AllocError;

/// A program's lone port, over which each transfer is made at once, and what stands around the program, for one order after another. All is lent but
/// what the journal is to tell.
#[derive(Drop)]
pub struct CheckPort<'a> {
    p: u8,
    bench: &'a mut LonePort,
    table: &'a mut Table,
    /// What happened so far: it tells who has the devices of the pool, and the time.
    journal: &'a Journal,
    /// What the service answers, if the order asks it.
    heard: Word,
    /// Which own order of the program is tried.
    order: u32,
    /// What the journal tells of it, beside that it was obeyed.
    entry: Option<Entry>,
}

impl<'a> CheckPort<'a> {
    ghost use Rattle.std.specs.Prelude.{◌+◌, ◌<◌, true, None};
    ghost use Rattle.kdf_check.specs.Around.{around_by};
    ghost use Rattle.kdf_check.specs.CheckPort.{around_of};

    /// The check port of program `p` for its own order `order`, with its lone port, the transfers that are pending and the journal so far.
    pub fn new(
        p: u8,
        bench: &'a mut LonePort,
        table: &'a mut Table,
        journal: &'a Journal,
        heard: Word,
        order: u32,
    ) -> CheckPort<'a>
        ensures p { result.p ≡ p }
        ensures bench { result.bench.now ≡ bench.old }
        ensures table { result.table.now ≡ table.old }
        ensures around { around_of result ≡ around_by table.old.places journal.now.entries heard }
        ensures order { result.order ≡ order }
        ensures entry { result.entry ≡ None }
        ensures same_bench { result.bench.ghost_name ≡ bench.entry.ghost_name }
        ensures same_table { result.table.ghost_name ≡ table.entry.ghost_name }
    {
        CheckPort {
            p,
            bench,
            table,
            journal,
            heard,
            order,
            entry: None,
        }
    }

    /// What the journal tells of the order, beside that it was obeyed.
    pub fn entry(&self) -> Option<Entry>
        ensures { result ≡ self.now.entry }
    {
        self.entry
    }

    /// Whether the journal tells nothing else of the order.
    #[inline(always)]
    pub fn is_quiet(&self) -> bool
        ensures { result ≡ true → self.now.entry ≡ None }
    {
        self.entry.is_none()
    }

    /// Goes on to the program's next own order.
    #[inline(always)]
    pub fn pass(&mut self)
        requires { self.old.order < u32.MAX }
        ensures { self.new ≡ record self.old { order = self.old.order + 1 } }
    {
        self.order += 1;
    }
}

/// The groups of the area of an order, where it has one.
fn groups_in(order: TransferOrder, first: u16, last: u16) -> Option<(u16, u16)>
    ensures { result ≡ groups_in order first last }
{
    if order.has_area() {
        Some((first / 32, last / 32))
    } else {
        None
    }
}

impl Port for CheckPort<'_> {
    ghost use Rattle.std.specs.Prelude.{refl};
    ghost use Rattle.kdf_check.specs.CheckPort.{shown, Acts, HasRoom};

    ghost shows = { shown };

    ghost acts = { Acts };

    ghost room = { HasRoom };

    fn size(&self) -> u16 {
        self.bench.size()
    }

    fn read(&self, address: u16) -> Result<Word, u16> {
        if self.table.is_out(self.p, address / 32) {
            Err(address / 32)
        } else {
            Ok(self.bench.word(address))
        }
    }

    fn write(&mut self, address: u16, word: Word) -> Result<(), u16> {
        if self.table.is_out(self.p, address / 32) {
            Err(address / 32)
        } else {
            self.bench.write(address, word)
        }
    }

    fn first_out(&self, first: u16, last: u16) -> Option<u16> {
        self.table.first_out(self.p, first, last)
    }

    fn held(&self, device: u16) -> Option<Kind> {
        self.bench.held(device)
    }

    fn busy(&self, device: u8) -> bool {
        self.table.is_busy(device)
    }

    fn first_busy(&self) -> Option<u8> {
        self.table.first_own(self.p)
    }

    fn test(&self, device: u8, what: Test) -> bool {
        self.bench.test(device, what)
    }

    fn start(&mut self, device: u8, order: TransferOrder, first: u16, last: u16) {
        self.bench.start(device, order, first, last);
        let groups = groups_in(order, first, last);
        self.table.begin(device, Pending { p: self.p, groups });
        self.entry = Some(Entry::Start {
            p: self.p,
            d: device,
            k: self.order,
        });
    }

    fn ask_busy(&mut self, device: u8) -> bool {
        let v = u64::from(self.table.is_busy(device));
        self.bench.prepare(v);
        self.entry = Some(Entry::Answer { p: self.p, v });
        self.bench.ask_busy(device)
    }

    fn ask_area(&mut self, first: u16, last: u16) -> bool {
        let v = u64::from(self.table.is_any_out(self.p, first, last));
        self.bench.prepare(v);
        self.entry = Some(Entry::Answer { p: self.p, v });
        self.bench.ask_area(first, last)
    }

    fn ask_time(&mut self) -> u64 {
        let v = self.journal.clock();
        self.bench.prepare(v);
        self.entry = Some(Entry::Answer { p: self.p, v });
        self.bench.ask_time()
    }

    fn served(&self) -> bool {
        self.bench.served()
    }

    fn ask_service(&mut self, word: Word) -> Word {
        let v = self.heard.bits();
        self.bench.prepare(v);
        self.entry = Some(Entry::Answer { p: self.p, v });
        self.bench.ask_service(word)
    }

    fn claim_label(&mut self, label: Word) -> Option<u8> {
        self.bench.claim_label(label)
    }

    fn claim_kind(&mut self, kind: Kind) -> Option<u8> {
        self.bench.claim_kind(kind)
    }

    fn may_take(&self, kind: Kind) -> bool {
        self.bench.may_take(kind)
    }

    fn pool_free(&self, kind: Kind) -> bool {
        first_free(self.journal, self.bench, kind).is_some()
    }

    fn take_pool(&mut self, kind: Kind) -> u8 {
        let free = first_free(self.journal, self.bench, kind).unwrap_or(0);
        self.bench.prepare(u64::from(free));
        let d = self.bench.take_pool(kind);
        self.entry = Some(Entry::Take { p: self.p, d });
        d
    }

    fn give_back(&mut self, device: u8) {
        if self.bench.pool_kind(device).is_some() {
            self.entry = Some(Entry::Give {
                p: self.p,
                d: device,
            });
        }
        self.bench.give_back(device);
    }

    fn spool(&mut self, stream: u8, first: u16, last: u16) {
        self.bench.spool(stream, first, last);
    }

    ghost stays = { λ _. record {
      same = record { bench = refl; table = refl };
      stock = refl;
      around = refl;
      inside = tt;
      entry = refl;
      p = refl;
      order = refl;
    } };
}

impl Reserve for CheckPort<'_> {
    ghost use Rattle.std.specs.Prelude.{◌/◌, refl};
    ghost use Rattle.std.proofs.Common.{ap, ap₂, ◌∙◌};
    ghost use Rattle.kdf_processor.proofs.Rooms.{little_room};
    ghost use Rattle.kdf_processor.proofs.Beside.{there_by, word_kept};
    ghost use Rattle.kdf_processor.specs.State.{Stock};
    ghost use Rattle.kdf_check.specs.Around.{Around, is_out_in};
    ghost use Rattle.kdf_alone.specs.LonePort.{stock_of, CanAsk, CanSpool, CanStart, CanTake};
    ghost use Rattle.kdf_check.specs.CheckPort.{shown, Stays};

    ghost keeps = { Stays };

    ghost itself = { λ _. record {
      same = record { bench = refl; table = refl };
      stock = refl;
      around = refl;
      entry = refl;
      p = refl;
      order = refl;
    } };

    ghost ready = { λ d. CanAsk d.bench.now };

    ghost little = { λ d act can little. little_room (CanStart d.bench.now) (CanSpool d.bench.now) (CanTake d.bench.now)
        (CanAsk d.bench.now) act can little };

    ghost beside = { λ d a w b x new acted ne there. there_by (shown d) (shown new) b x
        (ap (λ (k : Stock). k.claims.size) acted.stock)
        (ap₂ (λ p (around : Around). is_out_in p around.table (b / 32)) acted.p acted.around ∙ there.here)
        (word_kept (stock_of d.bench.now) (stock_of new.bench.now) a w b acted.stock ne) there };

    fn reserve_transfer(
        &mut self,
        device: u8,
        order: TransferOrder,
        first: u16,
        last: u16,
    ) -> Result<(), AllocError> {
        self.bench.reserve_transfer(device, order, first, last)
    }

    fn reserve_text(&mut self, first: u16, last: u16) -> Result<(), AllocError> {
        self.bench.reserve_text(first, last)
    }

    fn reserve_stint(&mut self) -> Result<(), AllocError> {
        self.bench.reserve_stint()
    }
}
