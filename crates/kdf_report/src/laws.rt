//! Laws of the definitions, each the contract of a function that does nothing.
ghost use Rattle.std.specs.Prelude.{◌≡◌, ℕ, ◌++◌, All, List, None, Some, false};
ghost use Rattle.kdf_journal.specs.declared.entry.Entry.{Entry};
ghost use Rattle.kdf_journal.specs.Counts.{answers};
ghost use Rattle.kdf_processor.specs.Lone.{is_live, lone};
ghost use Rattle.kdf_processor.specs.State.{State, begin};
ghost use Rattle.kdf_processor.specs.Stints.{HasPool, IsLent};
ghost use Rattle.kdf_job.specs.Job.{ShownJob, ShownSlot};
ghost use Rattle.kdf_job.specs.Reading.{job, job_fault};
ghost use Rattle.kdf_job.specs.SlotLines.{pool_lines, slot_lines};
ghost use Rattle.kdf_job.specs.Slots.{slot_of};
ghost use Rattle.kdf_job.specs.WellFormed.{AreSlots, IsSlot};
ghost use Rattle.kdf_theory.specs.Legal.{IsLegal};
ghost use Rattle.kdf_theory.specs.Loading as loading;
ghost use Rattle.kdf_theory.specs.Loading.{HaveImages};
ghost use Rattle.kdf_theory.specs.MachineView.{MachineView, ShowsSeen, state_at};
ghost use Rattle.kdf_theory.specs.ByJournal.{own, seen_of};
ghost use Rattle.kdf_report.specs.Loaded.{slot_numbered, slots_of};
ghost use Rattle.kdf_report.specs.MadeFrom.{HasProgram, IsProgramOf};
ghost use Rattle.kdf_report.specs.Summary.{summary_text};
ghost use Rattle.kdf_report.specs.Text.{report_lines, report_text};
ghost use Rattle.kdf_report.specs.Worlds.{section_of};

/// A program that was loaded from a slot of a job is one of that slot, whatever it is answered and however many orders it obeys.
pub fn program_of_slot()
    ensures { (slot : ShownSlot) (words answers : List ℕ) (n : ℕ) → IsSlot slot →
        IsProgramOf slot (lone (begin (slot_of slot words)) answers n) }
{}

/// A machine that was loaded from the slots of a job, and in which each program's own state is what is seen of its lone run, has the
/// program of each of these slots, whatever its journal.
pub fn programs_of_slots()
    ensures { (m : MachineView) (slots : List ShownSlot) (images : List (List ℕ)) → AreSlots slots →
        HaveImages slots images → m.slots ≡ loading.slots_of slots images → ShowsSeen m → All (HasProgram m) slots }
{}

/// The report of such a machine is that of what its journal tells to be seen of each program.
pub fn report_of_seen()
    ensures { (m : MachineView) (job : ShownJob) → ShowsSeen m → All (HasProgram m) job.slots →
        report_text job m.journal (state_at m) ≡ report_text job m.journal (seen_of m.slots m.journal) }
{}

/// The summary of such a machine likewise, whatever number and bytes it tells.
pub fn summary_of_seen()
    ensures { (n bytes : ℕ) (m : MachineView) (job : ShownJob) → ShowsSeen m → All (HasProgram m) job.slots →
        summary_text n bytes job m.journal (state_at m)
        ≡ summary_text n bytes job m.journal (seen_of m.slots m.journal) }
{}

/// The section of a program stands in the report of its job.
pub fn section_in_report()
    ensures { (job : ShownJob) (J : List Entry) (states : ℕ → State) (p : ℕ) (lines : List (List ℕ)) →
        section_of p job states ≡ Some lines → (front : List (List ℕ)) × (rest : List (List ℕ))
        × (report_lines job J states ≡ front ++ lines ++ rest) }
{}

/// Let two jobs without a fault have the same lines of slot p and of the pool, or the same slot p, which knows the pool, each a legal
/// journal by which program p isn't live, and the program be answered alike in both: by what it asked, and by the devices that it took
/// from the pool. Then it has the same section in both reports, whatever the other slots and the schedules are.
pub fn two_worlds()
    ensures lines { (first second : List ℕ) (J K : List Entry) (p : ℕ) →
        job_fault first ≡ None → job_fault second ≡ None → slot_lines p first ≡ slot_lines p second →
        pool_lines first ≡ pool_lines second →
        IsLegal (slots_of (job first)) J → IsLegal (slots_of (job second)) K → answers p J ≡ answers p K →
        is_live (own (slots_of (job first)) J p).registers.state ≡ false →
        is_live (own (slots_of (job second)) K p).registers.state ≡ false →
        section_of p (job first) (seen_of (slots_of (job first)) J)
        ≡ section_of p (job second) (seen_of (slots_of (job second)) K) }
    ensures slots { (first second : List ℕ) (J K : List Entry) (p : ℕ) →
        job_fault first ≡ None → job_fault second ≡ None →
        slot_numbered (job first).slots p ≡ slot_numbered (job second).slots p →
        IsLegal (slots_of (job first)) J → IsLegal (slots_of (job second)) K → answers p J ≡ answers p K →
        is_live (own (slots_of (job first)) J p).registers.state ≡ false →
        is_live (own (slots_of (job second)) K p).registers.state ≡ false →
        section_of p (job first) (seen_of (slots_of (job first)) J)
        ≡ section_of p (job second) (seen_of (slots_of (job second)) K) }
{}

/// Each slot of a job without a fault has the pool as `begin` wants it, whatever image is loaded: the pool's devices have numbers below
/// sixteen, none is the slot's own, and each is without a block, at place 0 and with flag 0. So what holds of stints holds of the slot's
/// program, whatever it is answered and however many orders it obeys.
pub fn pools_of_slots()
    ensures pool { (bytes words : List ℕ) → job_fault bytes ≡ None →
        All (λ (s : ShownSlot). HasPool (slot_of s words)) (job bytes).slots }
    ensures lent { (bytes words answers : List ℕ) (n : ℕ) → job_fault bytes ≡ None →
        All (λ (s : ShownSlot). IsLent (lone (begin (slot_of s words)) answers n)) (job bytes).slots }
{}
