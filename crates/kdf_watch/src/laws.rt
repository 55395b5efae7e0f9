//! Laws of runs that are stopped, each the contract of a function that does nothing.
ghost use Rattle.std.specs.Prelude.{◌≡◌, List, ◌++◌};
ghost use Rattle.kdf_journal.specs.declared.entry.Entry.{Entry};
ghost use Rattle.kdf_journal.specs.Steps.{JournalStep, steps};
ghost use Rattle.kdf_schedule.specs.declared.event.Event.{Event};
ghost use Rattle.kdf_schedule.specs.Calls.{calls_made};
ghost use Rattle.kdf_service.specs.Rules.{IsService};
ghost use Rattle.kdf_transfer.specs.Slots.{Slot};
ghost use Rattle.kdf_theory.specs.Follows.{Follows};
ghost use Rattle.kdf_theory.specs.Legal.{IsLegal};
ghost use Rattle.kdf_theory.specs.Served.{IsJournalFor, IsTrueFor};
ghost use Rattle.kdf_watch.specs.declared.cursor.Cursor.{Cursor};
ghost use Rattle.kdf_watch.specs.Cursors.{calls_left};

/// Read singly, the journal of a run that was stopped anywhere, with a service whose rule is `rule`, is the beginning of that of the whole run,
/// whether anybody watched that or not.
pub fn stopped_run<F: Fn(u64) -> u64>()
    ensures { (rule : F) → IsService (F.pre rule) (F.post rule) → (slots : List Slot)
        (events : List Event) (cursor : Cursor) (J K : List Entry) → IsLegal slots J →
        IsTrueFor (F.post rule) slots J → Follows slots (calls_made events) (calls_left events cursor) J →
        IsJournalFor (F.post rule) slots events K → (Q : List JournalStep) × (steps K ≡ Q ++ steps J) }
{}
