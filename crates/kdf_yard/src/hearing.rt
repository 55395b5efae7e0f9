//! What is heard of the service before an order that asks it.
ghost use Rattle.std.specs.Prelude.{◌≡◌, ◌<◌, length};
ghost use Rattle.kdf_service.specs.Rules.{IsService};
ghost use Rattle.kdf_yard.specs.Fields.CanTurn.{CanTurn};
ghost use Rattle.kdf_yard.specs.Fields.Parts.{reach_of, seat_of};
ghost use Rattle.kdf_places.specs.Shared.{shared_in};
ghost use Rattle.kdf_theory.specs.Asked.{HasAsked};
ghost use Rattle.kdf_yard.specs.Fields.Turned.{word_over};
ghost use Rattle.kdf_yard.specs.Fields.Yards.{registers_in, word_in};

use crate::dispatch::window_of;
use crate::machine_port::MachinePort;
use crate::{Moment, Place, Program, Remark, Stand, Yard};
use kdf_journal::Journal;
use kdf_lockout::Store;
use kdf_processor::{Life, asks_ahead, word_ahead};
use kdf_service::Service;
use kdf_word::Word;

/// The word of which the next order of a program asks the service, in its slot. All is lent for that, and nothing
/// changes. No time and no holder of a device makes it another word, so the time is 0, and any journal will do.
fn word_asked(
    stand: &Stand<'_>,
    journal: &Journal,
    program: &mut Program,
    store: &mut Store,
    places: &mut Vec<Place>,
) -> Option<Word>
    requires { CanTurn stand.now.windows.now stand.now.slot.now program.old store.old places.old.items }
    ensures asked { result ≡ word_over (seat_of program.old) (reach_of stand.now.windows.now stand.now.slot.now)
        (shared_in store.old places.old.items) }
    ensures seat { seat_of program.new ≡ seat_of program.old }
    ensures hold { program.new.hold ≡ program.old.hold }
    ensures store { store.new ≡ store.old }
    ensures places { places.new ≡ places.old }
{
    let mut block = Vec::new(stand.alloc);
    let turn = MachinePort {
        alloc: stand.alloc,
        p: program.p,
        window: window_of(stand.windows, stand.slot.p),
        moment: Moment {
            time: 0,
            heard: Word::default(),
        },
        journal,
        slot: stand.slot,
        claimed: &mut program.claimed,
        spooled: &mut program.spooled,
        stints: &mut program.stints,
        store,
        places,
        block: &mut block,
        note: Remark::Quiet,
    };
    asks_ahead(&program.registers, &turn)
}

/// What the service answers to the word of which the next order of a program asks it; None where that asks nothing.
/// Most programs aren't served: this stays out of the way of their orders.
#[inline(never)]
fn answer_if_asked<F: Fn(u64) -> u64>(
    stand: &Stand<'_>,
    journal: &Journal,
    program: &mut Program,
    store: &mut Store,
    places: &mut Vec<Place>,
    service: &Service<F>,
) -> Option<Word>
    requires service { IsService (F.pre service.now) (F.post service.now) }
    requires can { CanTurn stand.now.windows.now stand.now.slot.now program.old store.old places.old.items }
    ensures asked { HasAsked (F.post service.now)
        (word_over (seat_of program.old) (reach_of stand.now.windows.now stand.now.slot.now)
        (shared_in store.old places.old.items)) result }
    ensures seat { seat_of program.new ≡ seat_of program.old }
    ensures hold { program.new.hold ≡ program.old.hold }
    ensures store { store.new ≡ store.old }
    ensures places { places.new ≡ places.old }
{
    if word_ahead(&program.registers).is_none() {
        return None;
    }
    let word = word_asked(stand, journal, program, store, places)?;
    Some(service.ask(word))
}

impl Yard {
    /// What is heard of the service before the next order of program `i`: its answer to the word of which that order
    /// asks it. The service is asked there and nowhere else: None where the order asks nothing. Nothing changes.
    #[inline(always)]
    pub(crate) fn heard<F: Fn(u64) -> u64>(
        &mut self,
        i: usize,
        journal: &Journal,
        service: &Service<F>,
    ) -> Option<Word>
        requires service { IsService (F.pre service.now) (F.post service.now) }
        requires there { i < length self.old.seats }
        requires live { (registers_in self.old i).state ≡ Life.Live }
        ensures asked { HasAsked (F.post service.now) (word_in self.old i) result }
        ensures same { self.new ≡ self.old }
    {
        let slot = &self.slots[i];
        if slot.served {
            let stand = Stand {
                alloc: self.alloc,
                windows: &self.windows,
                slot,
            };
            answer_if_asked(
                &stand,
                journal,
                &mut self.programs[i],
                &mut self.store,
                &mut self.places,
                service,
            )
        } else {
            None
        }
    }
}
