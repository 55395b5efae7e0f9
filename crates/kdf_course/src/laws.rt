//! Laws of journals over any worlds, each the contract of a function that does nothing. In each of them `W` is the world at
//! each journal, and `notes` are the notes with which a program's next order may come out, one for each answer.
ghost use Rattle.std.specs.Prelude.{◌≡◌, ℕ, List, [], ◌∷◌, ◌++◌, length};
ghost use Rattle.kdf_journal.specs.declared.entry.Entry.{Entry};
ghost use Rattle.kdf_journal.specs.Steps.{Note, JournalStep, added, journal_of, steps};
ghost use Rattle.kdf_schedule.specs.declared.event.Event.{Event};
ghost use Rattle.kdf_schedule.specs.Calls.{Call, calls_made};
ghost use Rattle.kdf_course.specs.World.{Dispatch};
ghost use Rattle.kdf_course.specs.Legal.{is_note, one_of, IsLegal, IsOne, Meets};
ghost use Rattle.kdf_course.specs.Course.{course};
ghost use Rattle.kdf_course.specs.Follows.{Follows, IsJournal, IsRising, IsWhole};
ghost use Rattle.kdf_course.specs.Cut.{cut};

/// There is at most one journal under a schedule, where at most one note is admitted.
pub fn one_journal()
    ensures { (W : List Entry → Dispatch) (notes : List Entry → ℕ → ℕ → Note) (events : List Event)
        (J K : List Entry) → IsOne (one_of notes) →
        IsJournal W (one_of notes) events J → IsJournal W (one_of notes) events K → J ≡ K }
{}

/// And there is one, where no event sets the clock back and each exchange is one of two slots.
pub fn a_journal()
    ensures { (W : List Entry → Dispatch) (notes : List Entry → ℕ → ℕ → Note) (events : List Event) →
        IsRising 0 events → (J : List Entry) × IsJournal W (one_of notes) events J }
{}

/// Where the notes are told, a legal and whole journal has the steps of the course.
pub fn the_course()
    ensures { (W : List Entry → Dispatch) (note : List Entry → ℕ → Note) (calls : List Call) (J : List Entry)
        → IsLegal W (is_note note) J → IsWhole W calls J → steps J ≡ course W note [] calls }
{}

/// A schedule may be cut anywhere, also in the middle of an event of orders.
pub fn cut()
    ensures legal { (W : List Entry → Dispatch) (notes : List Entry → ℕ → ℕ → Note) (n : ℕ)
        (J : List Entry) → IsLegal W (one_of notes) J → IsLegal W (one_of notes) (cut n J) }
    ensures whole { (W : List Entry → Dispatch) (notes : List Entry → ℕ → ℕ → Note)
        (before later : List Call) (J : List Entry) → IsLegal W (one_of notes) J →
        IsWhole W (before ++ later) J → IsWhole W before (cut (length before) J) }
    ensures journal { (W : List Entry → Dispatch) (notes : List Entry → ℕ → ℕ → Note)
        (events earlier : List Event) (later : List Call) (J : List Entry) →
        IsJournal W (one_of notes) events J → calls_made events ≡ calls_made earlier ++ later →
        IsJournal W (one_of notes) earlier (cut (length (calls_made earlier)) J) }
{}

/// The journal of a schedule, read singly, is a front of that of a longer one.
pub fn resumed()
    ensures { (W : List Entry → Dispatch) (notes : List Entry → ℕ → ℕ → Note)
        (events further : List Event) (J K : List Entry) → IsOne (one_of notes) →
        IsJournal W (one_of notes) events J → IsJournal W (one_of notes) (events ++ further) K →
        (Q : List JournalStep) × (steps K ≡ Q ++ steps J) }
{}

/// A legal journal that follows a schedule up to somewhere is, read singly, a front of the whole one.
pub fn stopped_run()
    ensures { (W : List Entry → Dispatch) (notes : List Entry → ℕ → ℕ → Note) (events : List Event)
        (left : List Call) (J K : List Entry) → IsOne (one_of notes) → IsLegal W (one_of notes) J →
        Follows W (calls_made events) left J → IsJournal W (one_of notes) events K →
        (Q : List JournalStep) × (steps K ≡ Q ++ steps J) }
{}

/// A journal without entries is legal. A legal one stays so with a step that meets the rules, and was so at each moment
/// before.
pub fn legal_step()
    ensures empty { (W : List Entry → Dispatch) (notes : List Entry → ℕ → ℕ → Note) → IsLegal W (one_of notes) [] }
    ensures longer { (W : List Entry → Dispatch) (notes : List Entry → ℕ → ℕ → Note) (J : List Entry)
        (s : JournalStep) → IsLegal W (one_of notes) J → Meets (W J) (one_of notes J) J s →
        IsLegal W (one_of notes) (added J s) }
    ensures before { (W : List Entry → Dispatch) (notes : List Entry → ℕ → ℕ → Note) (s : JournalStep)
        (P : List JournalStep) → IsLegal W (one_of notes) (journal_of (s ∷ P)) →
        IsLegal W (one_of notes) (journal_of P) }
{}
