//! Laws of journals with a service, each the contract of a function that does nothing. In each of them `rule` is the
//! service's, and `F.post rule` says which answers it has to a word.
ghost use Rattle.std.specs.Prelude.{◌≡◌, ℕ, List, [], ◌++◌, length};
ghost use Rattle.kdf_journal.specs.declared.entry.Entry.{Entry};
ghost use Rattle.kdf_journal.specs.Steps.{JournalStep, added, journal_of, steps};
ghost use Rattle.kdf_schedule.specs.declared.event.Event.{Event};
ghost use Rattle.kdf_schedule.specs.Calls.{Call, calls_made};
ghost use Rattle.kdf_course.specs.Cut.{cut};
ghost use Rattle.kdf_course.specs.Legal.{Noted};
ghost use Rattle.kdf_service.specs.Rules.{IsService};
ghost use Rattle.kdf_transfer.specs.Slots.{Slot};
ghost use Rattle.kdf_theory.specs.Follows.{Follows, IsWhole};
ghost use Rattle.kdf_theory.specs.ByJournal.{flights_of, lone_world, own, seen_of};
ghost use Rattle.kdf_theory.specs.Legal.{IsLegal, IsTrue, Meets};
ghost use Rattle.kdf_theory.specs.Served.{is_true_for, unasked, IsAnswered, IsJournalFor, IsTrueFor};
ghost use Rattle.kdf_theory.specs.Slots.{NoneServed};
ghost use Rattle.kdf_director.specs.Alike.{AreAlike};
ghost use Rattle.kdf_theory.specs.Unasked.{AsksNone};

/// With a service, slots have at most one journal under a schedule.
pub fn one_journal<F: Fn(u64) -> u64>()
    ensures { (rule : F) → IsService (F.pre rule) (F.post rule) → (slots : List Slot)
        (events : List Event) (J K : List Entry) → IsJournalFor (F.post rule) slots events J →
        IsJournalFor (F.post rule) slots events K → J ≡ K }
{}

/// A schedule may be cut anywhere, also in the middle of an event of orders: of the journal of the slots with a
/// service, what answers the calls before the cut is their journal under those calls.
pub fn cut<F: Fn(u64) -> u64>()
    ensures legal { (slots : List Slot) (n : ℕ) (J : List Entry) → IsLegal slots J → IsLegal slots (cut n J) }
    ensures truly { (rule : F) (slots : List Slot) (n : ℕ) (J : List Entry) →
        IsTrueFor (F.post rule) slots J → IsTrueFor (F.post rule) slots (cut n J) }
    ensures whole { (rule : F) (slots : List Slot) (events : List Event) (before later : List Call)
        (J : List Entry) → IsJournalFor (F.post rule) slots events J → calls_made events ≡ before ++ later →
        IsWhole slots before (cut (length before) J) }
    ensures journal { (rule : F) (slots : List Slot) (events earlier : List Event)
        (later : List Call) (J : List Entry) → IsJournalFor (F.post rule) slots events J →
        calls_made events ≡ calls_made earlier ++ later →
        IsJournalFor (F.post rule) slots earlier (cut (length (calls_made earlier)) J) }
{}

/// Read singly, the journal of a schedule with a service is the beginning of that of a longer one.
pub fn resumed<F: Fn(u64) -> u64>()
    ensures { (rule : F) → IsService (F.pre rule) (F.post rule) → (slots : List Slot)
        (events further : List Event) (J K : List Entry) → IsJournalFor (F.post rule) slots events J →
        IsJournalFor (F.post rule) slots (events ++ further) K →
        (Q : List JournalStep) × (steps K ≡ Q ++ steps J) }
{}

/// And so is each legal journal that is true for the service and follows a schedule up to somewhere, of the schedule's
/// whole one.
pub fn stopped_run<F: Fn(u64) -> u64>()
    ensures { (rule : F) → IsService (F.pre rule) (F.post rule) → (slots : List Slot)
        (events : List Event) (left : List Call) (J K : List Entry) → IsLegal slots J →
        IsTrueFor (F.post rule) slots J → Follows slots (calls_made events) left J →
        IsJournalFor (F.post rule) slots events K → (Q : List JournalStep) × (steps K ≡ Q ++ steps J) }
{}

/// A journal without entries is true for every service. One that is true for a service stays so with a step that no
/// order makes, and with an order whose answer, if it asks, is one of the service's or the true one; and so with each
/// call of a machine. It is true also as far as no service counts. Where no order asked the service, it is true for
/// every service.
pub fn true_step<F: Fn(u64) -> u64>()
    ensures empty { (rule : F) (slots : List Slot) → IsTrueFor (F.post rule) slots [] }
    ensures longer { (rule : F) (slots : List Slot) (J : List Entry) (s : JournalStep) → IsLegal slots J →
        IsTrueFor (F.post rule) slots J → Noted (is_true_for (F.post rule) slots J) s →
        IsTrueFor (F.post rule) slots (added J s) }
    ensures answered { (rule : F) (slots : List Slot) (J K : List Entry) → IsLegal slots J →
        IsTrueFor (F.post rule) slots J → IsAnswered (F.post rule) slots J K → IsTrueFor (F.post rule) slots K }
    ensures truly { (rule : F) (slots : List Slot) (J : List Entry) →
        IsTrueFor (F.post rule) slots J → IsTrue slots J }
    ensures every { (rule : F) (slots : List Slot) (J : List Entry) →
        IsTrueFor unasked slots J → IsTrueFor (F.post rule) slots J }
    ensures unanswered { (rule : F) (slots : List Slot) (J K : List Entry) →
        IsAnswered unasked slots J K → IsAnswered (F.post rule) slots J K }
{}

/// A journal of which no order asked the service is true for every service as soon as it is true for one; and no order
/// asks of slots of which none is served.
pub fn none_asked<F: Fn(u64) -> u64, G: Fn(u64) -> u64>()
    ensures every { (rule : F) (other : G) (slots : List Slot) (J : List Entry) → AsksNone slots J →
        IsTrueFor (F.post rule) slots J → IsTrueFor (G.post other) slots J }
    ensures unserved { (slots : List Slot) (J : List Entry) → NoneServed slots → AsksNone slots J }
{}

/// Equal moments have equal futures. Let two journals tell of one moment (`AreAlike`), however they came to it, and let
/// both schedules go on with the same events: then both journals go on with the same steps, and come to equal moments
/// again. At equal moments each step that meets the rules by the one journal meets them by the other, each program has the
/// same lone state and the same transfers, and the same is seen of it.
pub fn equal_futures<F: Fn(u64) -> u64>()
    ensures step { (J K : List Entry) (s : JournalStep) → AreAlike J K → AreAlike (added J s) (added K s) }
    ensures judged { (slots : List Slot) (J K : List Entry) (heard : ℕ) (s : JournalStep) → AreAlike J K →
        Meets (lone_world slots J) slots J heard s → Meets (lone_world slots K) slots K heard s }
    ensures shown { (slots : List Slot) (J K : List Entry) (p : ℕ) → AreAlike J K →
        (own slots J p ≡ own slots K p) × (flights_of slots J p ≡ flights_of slots K p)
        × (seen_of slots J p ≡ seen_of slots K p) }
    ensures future { (rule : F) → IsService (F.pre rule) (F.post rule) → (slots : List Slot)
        (events others further : List Event) (J K L : List Entry) → IsJournalFor (F.post rule) slots events J →
        IsJournalFor (F.post rule) slots others K → AreAlike J K →
        IsJournalFor (F.post rule) slots (events ++ further) L →
        (Q : List JournalStep) × (steps L ≡ Q ++ steps J)
        × IsJournalFor (F.post rule) slots (others ++ further) (journal_of (Q ++ steps K))
        × AreAlike L (journal_of (Q ++ steps K)) }
{}
