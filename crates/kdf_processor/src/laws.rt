//! Laws of the definitions, each the contract of a function that does nothing.
ghost use Rattle.std.specs.Prelude.{◌≡◌, ℕ, ◌≤◌, ◌++◌, List, [], length, Bool, true, false, find};
ghost use Rattle.kdf_journal.specs.declared.need.Need.{Need};
ghost use Rattle.kdf_processor.specs.Effect.{Question};
ghost use Rattle.kdf_processor.specs.Frame.{Agrees, Leaves, HidesNone};
ghost use Rattle.kdf_processor.specs.Lone.{lone};
ghost use Rattle.kdf_processor.specs.Needs.{needs, next_effect};
ghost use Rattle.kdf_processor.specs.Row.{row};
ghost use Rattle.kdf_transfer.specs.Slots.{Slot};
ghost use Rattle.kdf_processor.specs.State.{State, begin, lendings, stocked};
ghost use Rattle.kdf_processor.specs.Stints.{HasPool, IsLent, lendings_after};

/// The store of a program has as many words as its size says, at its start and after each order.
pub fn store_size()
    ensures start { (slot : Slot) →
        length slot.words ≤ slot.size → length (begin slot).stock.store ≡ slot.size }
    ensures kept { (start : State) (answers : List ℕ) (n : ℕ) →
        length start.stock.store ≡ start.stock.claims.size →
        length (lone start answers n).stock.store ≡ (lone start answers n).stock.claims.size }
{}

/// Of two states that agree in all but what is hidden, and where nothing that is needed is hidden,
/// the needs are the same, and the rows agree likewise and leave what is hidden as it was.
/// Of any needs, among them all that is hidden, the first is the same in both states.
pub fn frame()
    ensures same_needs { (hidden : Need → Bool) (mine : List ℕ) (s t : State) →
        Agrees hidden s t → HidesNone hidden (needs s mine) → needs t mine ≡ needs s mine }
    ensures same_row { (hidden : Need → Bool) (mine : List ℕ) (answer : Question → ℕ)
        (s t : State) → Agrees hidden s t → HidesNone hidden (needs s mine)
        → Agrees hidden (row s answer) (row t answer) }
    ensures left { (hidden : Need → Bool) (mine : List ℕ) (answer : Question → ℕ) (s t : State) →
        Agrees hidden s t → HidesNone hidden (needs s mine) →
        Leaves hidden s (row s answer) × Leaves hidden t (row t answer) }
    ensures same_first { (hidden wanted : Need → Bool) (mine : List ℕ) (s t : State) →
        Agrees hidden s t → ((n : Need) → hidden n ≡ true → wanted n ≡ true) →
        find wanted (needs s mine) ≡ find wanted (needs t mine) }
{}

/// With as many answers as are taken, more of them change no state up to there.
pub fn longer_answers()
    ensures { (start : State) (xs ys : List ℕ) (n : ℕ) → (lone start xs n).stock.asked ≤ length xs →
        (k : ℕ) → k ≤ n → lone start (xs ++ ys) k ≡ lone start xs k }
{}

/// A program has no stint at its start, and an order makes of its stints what `lendings_after` says: one that takes from the pool begins
/// one, one that gives back to it marks one, and a transfer on a device of the pool acts on the one of its number that isn't given back.
pub fn stints()
    ensures begun { (slot : Slot) → lendings (stocked slot) ≡ [] }
    ensures row { (s : State) (answer : Question → ℕ) → IsLent s → lendings (row s answer).stock
        ≡ lendings_after answer (next_effect s) s (lendings s.stock) }
    ensures lent { (slot : Slot) → HasPool slot → IsLent (begin slot) }
    ensures kept { (s : State) (answer : Question → ℕ) → IsLent s → IsLent (row s answer) }
{}
