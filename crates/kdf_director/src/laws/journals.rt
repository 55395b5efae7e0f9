//! Laws of journals of programs whose transfers take their time, each the contract of a function that does nothing. In
//! each of them `slots` are those that are loaded, `J` is a journal, and `heard` is what a program heard of the
//! service, if it asked it.
ghost use Rattle.std.specs.Prelude.{◌≡◌, ◌≢◌, ℕ, ◌-◌, ◌≤◌, List, [], ◌∷◌, ◌++◌, Some, None, false, true, is_some, length, min, not, slice_set, take};
ghost use Rattle.kdf_journal.specs.declared.need.Need.{Need};
ghost use Rattle.kdf_journal.specs.declared.entry.Entry.{Entry};
ghost use Rattle.kdf_journal.specs.declared.kind.Kind.{Kind};
ghost use Rattle.kdf_journal.specs.Counts.{answers, holder, moved, over, pending, ran, taker};
ghost use Rattle.kdf_journal.specs.Steps.{Note, JournalStep, Obeys, Holds, Waits, Moves, Ends, Sets, Swaps};
ghost use Rattle.kdf_journal.specs.Steps.{added, journal_of, steps};
ghost use Rattle.kdf_schedule.specs.declared.event.Event.{Event};
ghost use Rattle.kdf_schedule.specs.Calls.{Call};
ghost use Rattle.kdf_transfer.specs.AtOnce.{written};
ghost use Rattle.kdf_journal.specs.declared.need.Need.TheVariants.{Pool};
ghost use Rattle.kdf_processor.specs.Claims.{taken_device};
ghost use Rattle.kdf_processor.specs.Effect.{Question, FreeOf};
ghost use Rattle.kdf_processor.specs.Lone.{is_live};
ghost use Rattle.kdf_processor.specs.Needs.{next_effect};
ghost use Rattle.kdf_processor.specs.Row.{row};
ghost use Rattle.kdf_transfer.specs.Slots.{Slot};
ghost use Rattle.kdf_processor.specs.State.{device_in, is_pooled};
ghost use Rattle.kdf_theory.specs.Course.{lone_step_at, step_at};
ghost use Rattle.kdf_theory.specs.Flights.{Flight, completed, flights_after, mine_of, move_count};
ghost use Rattle.kdf_theory.specs.Flights.{unmoved, with_flight};
ghost use Rattle.kdf_theory.specs.Flying.{AreFlying};
ghost use Rattle.kdf_theory.specs.Follows.{IsRising};
ghost use Rattle.kdf_theory.specs.Holders.{has_mark, is_taker};
ghost use Rattle.kdf_theory.specs.Legal.{note_of, IsLegal, IsTrue, Meets};
ghost use Rattle.kdf_theory.specs.Next.{next};
ghost use Rattle.kdf_theory.specs.Seen.{begun_row, with_both, with_store};
ghost use Rattle.kdf_theory.specs.Served.{unasked, IsJournalFor};
ghost use Rattle.kdf_theory.specs.Slots.{AreSlots, NoneServed, start};
ghost use Rattle.kdf_theory.specs.ByJournal.{flights_of, further, is_of, is_pending_after, lone_world, mine_after, own};
ghost use Rattle.kdf_theory.specs.ByJournal.{own_after, seen_of, seen_world};
ghost use Rattle.kdf_theory.specs.True.{truth};
ghost use Rattle.kdf_theory.specs.World.{first_need};

/// Slots of which none is served have a journal under each schedule that doesn't set the clock back and exchanges slots
/// alone.
pub fn a_journal()
    ensures { (slots : List Slot) (events : List Event) → NoneServed slots → IsRising 0 events
        → (J : List Entry) × IsJournalFor unasked slots events J }
{}

/// A journal without entries is legal and true, and each program is then at its start, with no transfer. A legal and
/// true journal stays so with a step that meets the rules and is true, whatever is heard of the service, and a legal
/// one was legal at each moment before.
pub fn legal_step()
    ensures empty { (slots : List Slot) → IsLegal slots [] × IsTrue slots [] }
    ensures start { (slots : List Slot) (p : ℕ) → own slots [] p ≡ start slots p }
    ensures idle { (slots : List Slot) (p d : ℕ) → flights_of slots [] p d ≡ None }
    ensures longer { (slots : List Slot) (J : List Entry) (heard : ℕ) (s : JournalStep) → IsLegal slots J →
        Meets (lone_world slots J) slots J heard s → IsLegal slots (added J s) }
    ensures truly { (slots : List Slot) (J : List Entry) (heard : ℕ) (s : JournalStep) → IsLegal slots J → IsTrue slots J →
        Meets (lone_world slots J) slots J heard s → IsTrue slots (added J s) }
    ensures before { (slots : List Slot) (s : JournalStep) (P : List JournalStep) →
        IsLegal slots (journal_of (s ∷ P)) → IsLegal slots (journal_of P) }
{}

/// What a program was after an order that the journal counts stays, whatever step follows.
pub fn earlier_stays()
    ensures { (slots : List Slot) (J : List Entry) (s : JournalStep) (p k : ℕ) → IsLegal slots J →
        k ≤ ran p J → own_after slots (added J s) p k ≡ own_after slots J p k }
{}

/// By a legal journal each program's transfers are in flight, on the devices that the journal tells. A transfer is over
/// the lone state that its order met, and has moved as many words as were called for, at most all. A program is live
/// until the journal says that it has failed or ended, and then it has no transfer.
pub fn in_flight()
    ensures flying { (slots : List Slot) (J : List Entry) (p : ℕ) → AreSlots slots →
        IsLegal slots J → AreFlying (flights_of slots J p) (own slots J p) }
    ensures told { (slots : List Slot) (J : List Entry) (p d : ℕ) → AreSlots slots →
        IsLegal slots J → is_some (flights_of slots J p d) ≡ is_of p (pending d J) }
    ensures mine { (slots : List Slot) (J : List Entry) (p : ℕ) → AreSlots slots →
        IsLegal slots J → mine_after J p ≡ mine_of (flights_of slots J p) }
    ensures met { (slots : List Slot) (J : List Entry) (p d k : ℕ) (f : Flight) →
        pending d J ≡ Some (p, k) → flights_of slots J p d ≡ Some f
        → f.before ≡ own_after slots J p (k - 1) }
    ensures moved { (slots : List Slot) (J : List Entry) (p d k : ℕ) (f : Flight) →
        pending d J ≡ Some (p, k) → flights_of slots J p d ≡ Some f
        → f.moved ≡ min (moved d J) (move_count d f) }
    ensures life { (slots : List Slot) (J : List Entry) (p : ℕ) → IsLegal slots J →
        is_live (own slots J p).registers.state ≡ not (over p J) }
    ensures over { (slots : List Slot) (J : List Entry) (p : ℕ) → AreSlots slots → IsLegal slots J →
        is_live (own slots J p).registers.state ≡ false → (d : ℕ) → flights_of slots J p d ≡ None }
{}

/// By what is seen of the programs they are judged as by their lone states: what holds one up, which is next, and the
/// note of an order that nothing holds up; and so each step, and the step that a call makes.
pub fn judged_alike()
    ensures held { (slots : List Slot) (J : List Entry) (p : ℕ) →
        first_need (seen_world slots J) p ≡ first_need (lone_world slots J) p }
    ensures next { (slots : List Slot) (J : List Entry) →
        next (seen_world slots J) slots J ≡ next (lone_world slots J) slots J }
    ensures note { (slots : List Slot) (J : List Entry) (p : ℕ) (answer : Question → ℕ) →
        first_need (lone_world slots J) p ≡ None
        → note_of (seen_of slots J p) answer ≡ note_of (own slots J p) answer }
    ensures step { (slots : List Slot) (J : List Entry) (heard : ℕ) (s : JournalStep) →
        Meets (seen_world slots J) slots J heard s → Meets (lone_world slots J) slots J heard s }
    ensures call { (slots : List Slot) (J : List Entry) (heard : ℕ) (c : Call) →
        step_at (seen_world slots J) slots J heard c ≡ lone_step_at slots J heard c }
{}

/// A program that obeys makes a row of its next order, where a transfer only begins: of its lone state, of its
/// transfers in flight, and of what is seen. Of every other program nothing changes.
pub fn order_obeyed()
    ensures own { (slots : List Slot) (J : List Entry) (p heard : ℕ) (note : Note) → IsLegal slots J →
        Meets (lone_world slots J) slots J heard (Obeys p note) →
        own slots (added J (Obeys p note)) p
        ≡ row (own slots J p) (truth (lone_world slots J) J p heard) }
    ensures flights { (slots : List Slot) (J : List Entry) (p heard : ℕ) (note : Note) → AreSlots slots →
        IsLegal slots J → Meets (lone_world slots J) slots J heard (Obeys p note) →
        flights_of slots (added J (Obeys p note)) p
        ≡ flights_after (flights_of slots J p) (own slots J p) (next_effect (own slots J p)) }
    ensures seen { (slots : List Slot) (J : List Entry) (p heard : ℕ) (note : Note) → AreSlots slots →
        IsLegal slots J → Meets (lone_world slots J) slots J heard (Obeys p note) →
        seen_of slots (added J (Obeys p note)) p
        ≡ begun_row (seen_of slots J p) (truth (lone_world slots J) J p heard) }
    ensures others { (slots : List Slot) (J : List Entry) (p q heard : ℕ) (note : Note) → AreSlots slots →
        IsLegal slots J → Meets (lone_world slots J) slots J heard (Obeys p note) → p ≢ q →
        (own slots (added J (Obeys p note)) q ≡ own slots J q)
        × (flights_of slots (added J (Obeys p note)) q ≡ flights_of slots J q) }
{}

/// Words of a transfer that are called for are moved, and those that come to the store are written to what is seen. A
/// program that has no transfer on the device stays as it is.
pub fn words_moved()
    ensures own { (slots : List Slot) (J : List Entry) (p d n : ℕ) →
        own slots (added J (Moves d n)) p ≡ own slots J p }
    ensures flights { (slots : List Slot) (J : List Entry) (p d n : ℕ) → AreSlots slots →
        IsLegal slots J → flights_of slots (added J (Moves d n)) p
        ≡ with_flight d (further d n (flights_of slots J p d)) (flights_of slots J p) }
    ensures seen { (slots : List Slot) (J : List Entry) (p d n : ℕ) (f : Flight) → AreSlots slots →
        IsLegal slots J → flights_of slots J p d ≡ Some f →
        seen_of slots (added J (Moves d n)) p ≡ with_store (seen_of slots J p)
        (written (take n (unmoved d f)) (seen_of slots J p).stock.store) }
    ensures none { (slots : List Slot) (J : List Entry) (p d n : ℕ) → AreSlots slots →
        IsLegal slots J → flights_of slots J p d ≡ None →
        flights_of slots (added J (Moves d n)) p ≡ flights_of slots J p }
{}

/// The end of a transfer takes it away, writes the words that are left to what is seen, and shows its device. A program
/// that has no transfer on the device stays as it is.
pub fn transfer_ended()
    ensures own { (slots : List Slot) (J : List Entry) (p d : ℕ) →
        own slots (added J (Ends d)) p ≡ own slots J p }
    ensures flights { (slots : List Slot) (J : List Entry) (p d : ℕ) → AreSlots slots →
        IsLegal slots J → flights_of slots (added J (Ends d)) p
        ≡ with_flight d None (flights_of slots J p) }
    ensures seen { (slots : List Slot) (J : List Entry) (p d : ℕ) (f : Flight) → AreSlots slots →
        IsLegal slots J → flights_of slots J p d ≡ Some f →
        seen_of slots (added J (Ends d)) p ≡ with_both (seen_of slots J p)
        (written (unmoved d f) (seen_of slots J p).stock.store)
        (slice_set (seen_of slots J p).stock.devices d (device_in (completed d f) d)) }
    ensures none { (slots : List Slot) (J : List Entry) (p d : ℕ) → AreSlots slots →
        IsLegal slots J → flights_of slots J p d ≡ None →
        flights_of slots (added J (Ends d)) p ≡ flights_of slots J p }
{}

/// A hold, a call that finds no program to go on, the time that is set and an exchange of priorities change no
/// program's state and no transfer.
pub fn nothing_changed()
    ensures held { (slots : List Slot) (J : List Entry) (p q : ℕ) (by : Need) → AreSlots slots →
        IsLegal slots J → (own slots (added J (Holds q by)) p ≡ own slots J p)
        × (flights_of slots (added J (Holds q by)) p ≡ flights_of slots J p) }
    ensures waited { (slots : List Slot) (J : List Entry) (p : ℕ) → AreSlots slots →
        IsLegal slots J → (own slots (added J Waits) p ≡ own slots J p)
        × (flights_of slots (added J Waits) p ≡ flights_of slots J p) }
    ensures set { (slots : List Slot) (J : List Entry) (p t : ℕ) → AreSlots slots →
        IsLegal slots J → (own slots (added J (Sets t)) p ≡ own slots J p)
        × (flights_of slots (added J (Sets t)) p ≡ flights_of slots J p) }
    ensures exchanged { (slots : List Slot) (J : List Entry) (p k q : ℕ) → AreSlots slots →
        IsLegal slots J → (own slots (added J (Swaps k q)) p ≡ own slots J p)
        × (flights_of slots (added J (Swaps k q)) p ≡ flights_of slots J p) }
{}

/// A program that is live in neither of two journals, began alike and was answered alike, is seen alike in both.
pub fn two_ends()
    ensures { (slots others : List Slot) (J K : List Entry) (p : ℕ) → AreSlots slots → IsLegal slots J →
        AreSlots others → IsLegal others K → start slots p ≡ start others p → answers p J ≡ answers p K →
        is_live (own slots J p).registers.state ≡ false → is_live (own others K p).registers.state ≡ false
        → seen_of slots J p ≡ seen_of others K p }
{}

/// By a legal and true journal a live program has claimed a device of the pool exactly where it took it and hasn't
/// given it back; and where it takes one, it takes the one that it is truly answered. A device of the pool that has a
/// transfer has a holder, the program whose transfer it is.
pub fn holders()
    ensures held { (slots : List Slot) (J : List Entry) (p d : ℕ) → AreSlots slots → IsLegal slots J →
        IsTrue slots J → is_pooled (own slots J p).stock.claims d ≡ true → not (over p J) ≡ true
        → has_mark (own slots J p) d ≡ is_taker p (taker d J) }
    ensures taken { (slots : List Slot) (J : List Entry) (p heard : ℕ) (kind : Kind) → AreSlots slots →
        IsLegal slots J → IsTrue slots J → not (over p J) ≡ true →
        is_pending_after slots J p (Pool kind) ≡ false
        → taken_device (own slots J p).stock.claims kind (truth (lone_world slots J) J p heard (FreeOf kind))
        ≡ truth (lone_world slots J) J p heard (FreeOf kind) }
    ensures busy { (slots : List Slot) (J : List Entry) (p d k : ℕ) → AreSlots slots → IsLegal slots J →
        IsTrue slots J → is_pooled (own slots J p).stock.claims d ≡ true → pending d J ≡ Some (p, k)
        → holder d J ≡ Some p }
{}
