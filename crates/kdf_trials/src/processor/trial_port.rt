//! A port that shows what a test sets to be out of reach, and keeps the last acting call.
use kdf_journal::Kind;
use kdf_processor::{Port, Test};
use kdf_transfer::TransferOrder;
use kdf_word::Word;

/// An acting call that the orders here make.
#[derive(Clone, Copy, PartialEq)]
pub enum Call {
    Nothing,
    Writes(u16, u64),
    Starts(u8, TransferOrder, u16, u16),
    AsksBusy(u8),
    Takes(u8),
}

/// A store of 256 words, all alike, and three devices: punch 0, which is claimed, printer 1, and
/// punch 2, the only device of a pool. A service answers the program. Each question is answered 2, and no act changes
/// any of this.
#[derive(Drop)]
pub struct TrialPort {
    /// The word at each address.
    pub word: Word,
    /// The group that is out.
    pub out: u16,
    /// A device that has a transfer, of another program, and one of this program.
    pub busy: u8,
    pub mine: u8,
    /// Every device of the pool has a holder.
    pub taken: bool,
    /// The last acting call.
    pub call: Call,
}

impl Port for TrialPort {
    ghost use Rattle.std.specs.Prelude.{◌==◌, ◌||◌, nat_lt, true, false, if◌then◌else◌};
    ghost use Rattle.std.specs.Prelude.{[], ◌∷◌, Some, None};
    ghost use Rattle.kdf_journal.specs.declared.kind.Kind.TheVariants.{Tp, Lp};

    ghost shows = { λ b. record {
      claims = record {
        size = 256;
        claimed = true ∷ [];
        fixtures = Some (record { kind = Tp; label = 0; codes = []; cards = [] })
            ∷ Some (record { kind = Lp; label = 0; codes = []; cards = [] }) ∷ [];
        pool = None ∷ None ∷ Some Tp ∷ [];
        served = true;
      };
      word = λ address. b.word;
      test = λ d what. false;
      answer = λ question. 2;
      is_out = λ g. g == b.out;
      is_busy = λ d. d == b.busy || d == b.mine;
      is_taken = λ kind. b.taken;
      mine = if nat_lt b.mine 16 then b.mine ∷ [] else [];
    } };

    ghost acts = { λ b act c. Unit {0} };

    ghost room = { λ b act. Unit {0} };

    fn size(&self) -> u16 {
        256
    }

    fn read(&self, address: u16) -> Result<Word, u16> {
        let group = address / 32;
        if group == self.out {
            return Err(group);
        }
        Ok(self.word)
    }

    fn write(&mut self, address: u16, word: Word) -> Result<(), u16> {
        let group = address / 32;
        if group == self.out {
            return Err(group);
        }
        self.call = Call::Writes(address, word.bits());
        Ok(())
    }

    fn first_out(&self, first: u16, last: u16) -> Option<u16> {
        if self.out < first / 32 || last / 32 < self.out {
            return None;
        }
        Some(self.out)
    }

    fn held(&self, device: u16) -> Option<Kind> {
        if device == 0 { Some(Kind::Tp) } else { None }
    }

    fn busy(&self, device: u8) -> bool {
        device == self.busy || device == self.mine
    }

    fn first_busy(&self) -> Option<u8> {
        if self.mine < 16 {
            Some(self.mine)
        } else {
            None
        }
    }

    fn test(&self, _device: u8, _what: Test) -> bool {
        false
    }

    fn start(&mut self, device: u8, order: TransferOrder, first: u16, last: u16) {
        self.call = Call::Starts(device, order, first, last);
    }

    fn ask_busy(&mut self, device: u8) -> bool {
        self.call = Call::AsksBusy(device);
        true
    }

    fn ask_area(&mut self, _first: u16, _last: u16) -> bool {
        true
    }

    fn ask_time(&mut self) -> u64 {
        2
    }

    fn served(&self) -> bool {
        true
    }

    fn ask_service(&mut self, _word: Word) -> Word {
        Word::new(2)
    }

    #[tactic(auto, unfolding(kdf_processor::specs::Claims::free_for))]
    fn claim_label(&mut self, _label: Word) -> Option<u8> {
        None
    }

    #[tactic(auto, unfolding(kdf_processor::specs::Claims::free_for))]
    fn claim_kind(&mut self, kind: Kind) -> Option<u8> {
        match kind {
            Kind::Lp => Some(1),
            Kind::Tr | Kind::Tp | Kind::Cr | Kind::Mt => None,
        }
    }

    #[tactic(auto, unfolding(kdf_processor::specs::Claims::least_pooled))]
    fn may_take(&self, kind: Kind) -> bool {
        match kind {
            Kind::Tp => true,
            Kind::Tr | Kind::Cr | Kind::Lp | Kind::Mt => false,
        }
    }

    fn pool_free(&self, _kind: Kind) -> bool {
        !self.taken
    }

    #[tactic(auto, unfolding(kdf_processor::specs::Claims::least_pooled))]
    fn take_pool(&mut self, kind: Kind) -> u8 {
        match kind {
            Kind::Tp => {
                self.call = Call::Takes(2);
                2
            }
            Kind::Tr | Kind::Cr | Kind::Lp | Kind::Mt => unreachable!(),
        }
    }

    fn give_back(&mut self, _device: u8) {}

    fn spool(&mut self, _stream: u8, _first: u16, _last: u16) {}

    ghost stays = { λ b. tt };
}
