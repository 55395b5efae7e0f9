//! Laws of the definitions, each the contract of a function that does nothing.
ghost use Rattle.std.specs.Prelude.{◌≡◌, ℕ, ◌+◌, ◌-◌, ◌<◌, ◌≤◌, All, List, ◌++◌, Ok, drop, length, take};
ghost use Rattle.kdf_text.specs.Lines.{lines};
ghost use Rattle.kdf_text.specs.Text.{text};
ghost use Rattle.kdf_journal.specs.declared.entry.Entry.{Entry};
ghost use Rattle.kdf_journal.specs.Printed.{IsEntry};
ghost use Rattle.kdf_journal.specs.Steps.{JournalStep, steps};
ghost use Rattle.kdf_transfer.specs.Slots.{Slot};
ghost use Rattle.kdf_schedule.specs.declared.event.Event.{Event};
ghost use Rattle.kdf_service.specs.Rules.{IsService};
ghost use Rattle.kdf_job.specs.Job.{ShownJob};
ghost use Rattle.kdf_job.specs.Limits.{most_words};
ghost use Rattle.kdf_job.specs.WellFormed.{IsSchedule};
ghost use Rattle.kdf_theory.specs.MachineView.{MachineView, ShowsSeen, state_at};
ghost use Rattle.kdf_theory.specs.ByJournal.{seen_of};
ghost use Rattle.kdf_theory.specs.Served.{IsJournalFor};
ghost use Rattle.kdf_theory.specs.Slots.{AreSlots};
ghost use Rattle.kdf_snapshot.specs.Joined.{IsJournalOf, joined};
ghost use Rattle.kdf_snapshot.specs.Snapshot.{offset, parts_of};
ghost use Rattle.kdf_snapshot.specs.Stores.{HasStore, store_lines};
ghost use Rattle.kdf_snapshot.specs.Written.{CanBeSealed, journal_text, parts_written, seal_text};

/// What stands after the offset of a line is the text of that line and those after it. What stands between the offsets of two lines is
/// the text of the lines between.
pub fn offsets()
    ensures rest { (bytes : List ℕ) (k : ℕ) →
        lines (drop (offset bytes k) bytes) ≡ drop k (lines bytes) }
    ensures between { (bytes : List ℕ) (k n : ℕ) → k + n < length (lines bytes) →
        take (offset bytes (k + n) - offset bytes k) (drop (offset bytes k) bytes)
        ≡ text (take n (drop k (lines bytes))) }
{}

/// The words that a snapshot has of a machine, in which each program's own state is what is seen of its lone run, are those that its
/// journal tells to be seen of each program.
pub fn words_of_seen()
    ensures { (m : MachineView) (job : ShownJob) → ShowsSeen m → All (HasStore m) job.slots →
        store_lines job (state_at m) ≡ store_lines job (seen_of m.slots m.journal) }
{}

/// Read singly, the journal of a front job is the beginning of that of the joined job: with one service, whose rule is `rule`, and the
/// same images of the decks. So a run that goes on where its front was saved comes to what it would have come to.
pub fn resumed<F: Fn(u64) -> u64>()
    ensures { (rule : F) → IsService (F.pre rule) (F.post rule) → (front : ShownJob)
        (further : List Event) (images : List (List ℕ)) (J K : List Entry) →
        IsJournalOf (F.post rule) front images J →
        IsJournalOf (F.post rule) (joined front further) images K →
        (Q : List JournalStep) × (steps K ≡ Q ++ steps J) }
{}

/// What is written after the job of a snapshot is split again: into the entries of its journal, where their numbers fit their types, into
/// what is sealed, and into whatever stands after it.
pub fn split_again()
    ensures { (first : ℕ) (J : List Entry) (sealed : List (List ℕ)) (more : List ℕ) →
        All IsEntry J → All CanBeSealed sealed →
        parts_of first (journal_text J ++ (seal_text sealed ++ more)) ≡ Ok (parts_written first J sealed) }
{}

/// The numbers of the entries of a journal fit their types, if it is that of slots with numbers below 4 and with stores of at most 8192
/// words, under a schedule that a job may have, and with a service.
pub fn fitting_entries<F: Fn(u64) -> u64>()
    ensures { (rule : F) → IsService (F.pre rule) (F.post rule) → (slots : List Slot) → AreSlots slots →
        All (λ (s : Slot). (s.p < 4) × (s.size ≤ most_words)) slots →
        (events : List Event) → IsSchedule events → (J : List Entry) →
        IsJournalFor (F.post rule) slots events J → All IsEntry J }
{}
