//! Laws of verdicts, and of programs that are followed by themselves, each the contract of a function that does nothing. In each of
//! them `slots` are those that are loaded, `J` is a journal, `lines` are what the lines of a printed journal tell, and `rule` is
//! the service's.
ghost use Rattle.std.specs.Prelude.{◌≡◌, ℕ, ◌+◌, List, None, Option, not, slice_set, true};
ghost use Rattle.kdf_journal.specs.declared.need.Need.{Need};
ghost use Rattle.kdf_journal.specs.declared.entry.Entry.{Entry};
ghost use Rattle.kdf_journal.specs.Counts.{over};
ghost use Rattle.kdf_journal.specs.Steps.{Note, Ends, Holds, Moves, Obeys, Sets, Swaps, Waits, added};
ghost use Rattle.kdf_schedule.specs.declared.event.Event.{Event};
ghost use Rattle.kdf_service.specs.Rules.{IsService};
ghost use Rattle.kdf_transfer.specs.Slots.{Slot};
ghost use Rattle.kdf_processor.specs.Effect.{Question};
ghost use Rattle.kdf_processor.specs.Outcome.{held_or, outcome};
ghost use Rattle.kdf_processor.specs.Row.{next_of};
ghost use Rattle.kdf_theory.specs.Legal.{IsLegal, IsTrue, Meets};
ghost use Rattle.kdf_theory.specs.Served.{IsJournalFor};
ghost use Rattle.kdf_theory.specs.Slots.{AreSlots};
ghost use Rattle.kdf_theory.specs.ByJournal.{lone_world, own};
ghost use Rattle.kdf_theory.specs.World.{World, first_need};
ghost use Rattle.kdf_check.specs.Around.{Around};
ghost use Rattle.kdf_check.specs.declared.table.Pending.{Pending};
ghost use Rattle.kdf_check.specs.CheckPort.{shown_by, table_after, IsInTable};
ghost use Rattle.kdf_check.specs.Differs.{IsDifference};
ghost use Rattle.kdf_check.specs.declared.verdict.Verdict.{Verdict};
ghost use Rattle.kdf_check.specs.Tracks.{IsAround, Tells};
ghost use Rattle.kdf_check.specs.Tried.{lone_truth};
ghost use Rattle.kdf_check.specs.Verdict.{told, IsVerdict};
ghost use Rattle.kdf_check.specs.Watching.{view_in};

use crate::Verdict;

/// The verdict on lines goes by the first place at which they differ from the job's journal.
pub fn first_difference<F: Fn(u64) -> u64>()
    ensures yes { (rule : F) (slots : List Slot) (events : List Event) (J : List Entry)
        → IsJournalFor (F.post rule) slots events J → IsVerdict (F.post rule) slots events (told J) Verdict.Yes }
    ensures no { (rule : F) → IsService (F.pre rule) (F.post rule) → (slots : List Slot) (events : List Event)
        (lines : List (Option Entry)) (J : List Entry) (n : ℕ) → IsJournalFor (F.post rule) slots events J
        → IsDifference lines (told J) n → IsVerdict (F.post rule) slots events lines (Verdict.No (n + 1)) }
{}

/// There is one verdict.
pub fn one_verdict<F: Fn(u64) -> u64>()
    ensures { (rule : F) (slots : List Slot) (events : List Event) (lines : List (Option Entry))
        (v w : Verdict) → IsVerdict (F.post rule) slots events lines v
        → IsVerdict (F.post rule) slots events lines w → v ≡ w }
{}

/// The next order of a program, over a port that shows its state in a world and what of it is pending there, is held by the first
/// of its needs that is pending, or comes to what it comes to by itself, each transfer being finished at once.
pub fn order_tried()
    ensures { (w : World) (answer : Question → ℕ) (p : ℕ) → outcome (view_in w answer p) (w.state p).registers
        ≡ held_or (w.state p).registers (first_need w p) (next_of (w.state p) answer) }
{}

/// Where a live program has its lone state, and what stands around it is as the journal tells, it is shown in the world of lone runs,
/// where each order is truly answered.
pub fn lone_shown()
    ensures { (slots : List Slot) (J : List Entry) (p : ℕ) (around : Around) → AreSlots slots → IsLegal slots J
        → IsTrue slots J → not (over p J) ≡ true → IsAround slots J around
        → shown_by p around (own slots J p).stock
        ≡ view_in (lone_world slots J) (lone_truth slots J around.heard p) p }
{}

/// A table goes on telling what is pending: with the transfer that an order begins, without one that ends, and as it is after any
/// other step.
pub fn table_kept()
    ensures obeyed { (slots : List Slot) (J : List Entry) (p heard : ℕ) (note : Note) (table : List (Option Pending))
        → AreSlots slots → IsLegal slots J → Tells slots J table
        → Meets (lone_world slots J) slots J heard (Obeys p note)
        → IsInTable (next_of (own slots J p) (lone_truth slots J heard p)).act
        → Tells slots (added J (Obeys p note))
        (table_after p (next_of (own slots J p) (lone_truth slots J heard p)).act table) }
    ensures ended { (slots : List Slot) (J : List Entry) (d : ℕ) (table : List (Option Pending)) → AreSlots slots
        → IsLegal slots J → Tells slots J table → Tells slots (added J (Ends d)) (slice_set table d None) }
    ensures moved { (slots : List Slot) (J : List Entry) (d n : ℕ) (table : List (Option Pending)) → AreSlots slots
        → IsLegal slots J → Tells slots J table → Tells slots (added J (Moves d n)) table }
    ensures held { (slots : List Slot) (J : List Entry) (p : ℕ) (by : Need) (table : List (Option Pending))
        → AreSlots slots → IsLegal slots J → Tells slots J table → Tells slots (added J (Holds p by)) table }
    ensures waited { (slots : List Slot) (J : List Entry) (table : List (Option Pending)) → AreSlots slots
        → IsLegal slots J → Tells slots J table → Tells slots (added J Waits) table }
    ensures set { (slots : List Slot) (J : List Entry) (t : ℕ) (table : List (Option Pending)) → AreSlots slots
        → IsLegal slots J → Tells slots J table → Tells slots (added J (Sets t)) table }
    ensures exchanged { (slots : List Slot) (J : List Entry) (p q : ℕ) (table : List (Option Pending))
        → AreSlots slots → IsLegal slots J → Tells slots J table → Tells slots (added J (Swaps p q)) table }
{}
