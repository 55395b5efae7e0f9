//! The view of one program that an order is obeyed over.
ghost use Rattle.std.specs.Prelude.{◌≡◌, ◌<◌, ◌≤◌, ◌%◌, ◌^◌, nat_lt, not, find, true, false, None, OnOk, OnErr, IfSome, IfNone, if◌then◌else◌};
ghost use Rattle.kdf_transfer.specs.AtOnce.{has_area, kind_of, IsArea};
ghost use Rattle.kdf_transfer.specs.Devices.{is_kind};
ghost use Rattle.kdf_transfer.specs.declared.wanted.Wanted.TheVariants.{Kinded, Labelled};
ghost use Rattle.kdf_processor.specs.Claims.{can_take, claim, is_claimed, free_for, may_take};
ghost use Rattle.kdf_processor.specs.Effect.{Act, Nothing, Writes, Starts, Asks, IsBusy, IsOut, Time, FreeOf, OfService, Acquires, Releases, Spools};
ghost use Rattle.kdf_processor.specs.Needs.{group_of};
ghost use Rattle.kdf_processor.specs.Plan.{claim_act};
ghost use Rattle.kdf_processor.specs.State.{device_limit, is_pooled};
ghost use Rattle.kdf_processor.specs.View.{View, head, groups_of, order_groups};

use crate::Test;
use kdf_journal::Kind;
use kdf_transfer::TransferOrder;
use kdf_word::Word;

/// A program's store and its devices, over its own addresses.
pub trait Port {
    /// What is shown of it.
    ghost shows: { Self → View };

    /// What an acting call does.
    ghost acts: { Self → Act → Self → Type 0 };

    /// There is room for what an acting call keeps.
    ghost room: { Self → Act → Type 0 };

    /// The size of the store, in words.
    fn size(&self) -> u16
        ensures { result ≡ (shows self.now).claims.size };

    /// The word at an address, or the address's group where that is out.
    fn read(&self, address: u16) -> Result<Word, u16>
        requires { address < (shows self.now).claims.size }
        ensures { result ≡ (if (shows self.now).is_out (group_of address)
            then Err (group_of address) else Ok ((shows self.now).word address)) };

    /// Writes a word to an address, or answers the address's group where that is out.
    fn write(&mut self, address: u16, word: Word) -> Result<(), u16>
        requires inside { address < (shows self.old).claims.size }
        requires room { room self.old (Writes address word) }
        ensures ok { OnOk result (acts self.old (Writes address word) self.new) }
        ensures err { OnErr result (acts self.old Nothing self.new) }
        ensures result { result ≡ (if (shows self.old).is_out (group_of address)
            then Err (group_of address) else Ok tt) };

    /// The least group of an area that is out.
    fn first_out(&self, first: u16, last: u16) -> Option<u16>
        requires order { first ≤ last }
        requires inside { last < (shows self.now).claims.size }
        ensures { result ≡ find (shows self.now).is_out (groups_of first last) };

    /// The kind of a device that the program has claimed; devices have numbers below 16.
    fn held(&self, device: u16) -> Option<Kind>
        ensures kind { result ≡ claim (shows self.now).claims device }
        ensures number { IfSome result (λ _. device < device_limit) };

    /// Whether a device has a transfer.
    fn busy(&self, device: u8) -> bool
        ensures { result ≡ (shows self.now).is_busy device };

    /// The least device on which the program has a transfer.
    fn first_busy(&self) -> Option<u8>
        ensures least { result ≡ head (shows self.now).mine }
        ensures busy { IfSome result (λ d. (shows self.now).is_busy d ≡ true) };

    /// What a test of a device tells that is claimed and has no transfer.
    fn test(&self, device: u8, what: Test) -> bool
        requires claimed { is_claimed (shows self.now).claims device ≡ true }
        requires idle { (shows self.now).is_busy device ≡ false }
        ensures { result ≡ (shows self.now).test device what };

    /// Begins a transfer on a device that is claimed and of the order's kind, over an area that is free.
    /// An order without an area looks at neither `first` nor `last`.
    fn start(&mut self, device: u8, order: TransferOrder, first: u16, last: u16)
        requires number { device < device_limit }
        requires kind { is_kind (kind_of order) (claim (shows self.old).claims device) ≡ true }
        requires area { has_area order ≡ true → IsArea first last (shows self.old).claims.size }
        requires idle { (shows self.old).is_busy device ≡ false }
        requires free { find (shows self.old).is_out (order_groups order first last) ≡ None }
        requires room { room self.old (Starts device order first last) }
        ensures { acts self.old (Starts device order first last) self.new };

    /// Asks whether a device that is claimed has a transfer, and records the answer.
    fn ask_busy(&mut self, device: u8) -> bool
        requires claimed { is_claimed (shows self.old).claims device ≡ true }
        requires room { room self.old
            (Asks (IsBusy device) ((shows self.old).answer (IsBusy device))) }
        ensures answer { result ≡ nat_lt 0 ((shows self.old).answer (IsBusy device)) }
        ensures recorded { acts self.old
            (Asks (IsBusy device) ((shows self.old).answer (IsBusy device))) self.new };

    /// Asks whether a group of an area is locked out, and records the answer.
    fn ask_area(&mut self, first: u16, last: u16) -> bool
        requires area { IsArea first last (shows self.old).claims.size }
        requires room { room self.old
            (Asks (IsOut first last) ((shows self.old).answer (IsOut first last))) }
        ensures answer { result ≡ nat_lt 0 ((shows self.old).answer (IsOut first last)) }
        ensures recorded { acts self.old
            (Asks (IsOut first last) ((shows self.old).answer (IsOut first last))) self.new };

    /// Asks for the time, and records the answer.
    fn ask_time(&mut self) -> u64
        requires room { room self.old (Asks Time ((shows self.old).answer Time)) }
        ensures answer { result ≡ (shows self.old).answer Time }
        ensures recorded { acts self.old (Asks Time ((shows self.old).answer Time)) self.new };

    /// Whether an installation's service answers the program.
    fn served(&self) -> bool
        ensures { result ≡ (shows self.now).claims.served };

    /// Asks the service for its answer to a word, and records the answer.
    fn ask_service(&mut self, word: Word) -> Word
        requires served { (shows self.old).claims.served ≡ true }
        requires room { room self.old
            (Asks (OfService word) ((shows self.old).answer (OfService word))) }
        ensures answer { result ≡ (shows self.old).answer (OfService word) % 2 ^ 48 }
        ensures recorded { acts self.old
            (Asks (OfService word) ((shows self.old).answer (OfService word))) self.new };

    /// Claims the least tape with this label that isn't claimed. Where there is none, nothing changes.
    fn claim_label(&mut self, label: Word) -> Option<u8>
        requires room { room self.old (claim_act (free_for (Labelled label) (shows self.old).claims)) }
        ensures least { result ≡ free_for (Labelled label) (shows self.old).claims }
        ensures claimed { IfSome result (λ d. acts self.old (Acquires d) self.new) }
        ensures none { IfNone result (self.new ≡ self.old) };

    /// Claims the least device of this kind, of the program's own, that isn't claimed. Where there is none, nothing changes.
    fn claim_kind(&mut self, kind: Kind) -> Option<u8>
        requires room { IfSome (free_for (Kinded kind) (shows self.old).claims) (λ d. room self.old (Acquires d)) }
        ensures least { result ≡ free_for (Kinded kind) (shows self.old).claims }
        ensures claimed { IfSome result (λ d. acts self.old (Acquires d) self.new) }
        ensures none { IfNone result (self.new ≡ self.old) };

    /// Whether the program hasn't claimed some device of this kind in the pool.
    fn may_take(&self, kind: Kind) -> bool
        ensures { result ≡ may_take (shows self.now).claims kind };

    /// Whether some device of this kind in the pool has no holder.
    fn pool_free(&self, kind: Kind) -> bool
        ensures { result ≡ not ((shows self.now).is_taken kind) };

    /// Takes a device of this kind from the pool, and records its number as an answer.
    fn take_pool(&mut self, kind: Kind) -> u8
        requires may { may_take (shows self.old).claims kind ≡ true }
        requires free { (shows self.old).is_taken kind ≡ false }
        requires room { room self.old
            (Asks (FreeOf kind) ((shows self.old).answer (FreeOf kind))) }
        ensures answer { result ≡ (shows self.old).answer (FreeOf kind) }
        ensures can { can_take (shows self.old).claims kind result ≡ true }
        ensures recorded { acts self.old
            (Asks (FreeOf kind) ((shows self.old).answer (FreeOf kind))) self.new };

    /// Gives a device back that is claimed and has no transfer. The state of the program's own stays; the stint of one of the
    /// pool is over.
    fn give_back(&mut self, device: u8)
        requires claimed { is_claimed (shows self.old).claims device ≡ true }
        requires idle { (shows self.old).is_busy device ≡ false }
        requires room { room self.old (Releases (is_pooled (shows self.old).claims device) device) }
        ensures { acts self.old (Releases (is_pooled (shows self.old).claims device) device)
            self.new };

    /// Spools the characters of an area that is free to a stream, 0 to 7, up to and with the first End Message.
    fn spool(&mut self, stream: u8, first: u16, last: u16)
        requires stream { stream ≤ 7 }
        requires area { IsArea first last (shows self.old).claims.size }
        requires free { find (shows self.old).is_out (groups_of first last) ≡ None }
        requires room { room self.old (Spools stream first last) }
        ensures { acts self.old (Spools stream first last) self.new };

    /// A port that nothing was done to stays.
    ghost stays: { (p : Self) → acts p Nothing p };
}
