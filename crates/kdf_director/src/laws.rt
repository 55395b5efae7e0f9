//! Laws of what is seen, each the contract of a function that does nothing; those of journals stand in `journals` and
//! `served`. In each of them `flights` are a program's transfers by the number of their device, `mine` are devices on
//! which it has one, and `s` is its lone state.
ghost use Rattle.std.specs.Prelude.{◌≡◌, ℕ, ◌+◌, ◌==◌, ◌&&◌, not, List, Option, Some, None, true, false, find, length, min, slice_set, take};
ghost use Rattle.std.specs.List.{filter};
ghost use Rattle.kdf_transfer.specs.AtOnce.{written};
ghost use Rattle.kdf_transfer.specs.declared.order.TransferOrder.{TransferOrder};
ghost use Rattle.kdf_transfer.specs.Slots.{Slot};
ghost use Rattle.kdf_processor.specs.declared.registers.Registers.{Registers};
ghost use Rattle.kdf_processor.specs.Claims.{is_claimed};
ghost use Rattle.kdf_processor.specs.Effect.{Question, Starting};
ghost use Rattle.kdf_processor.specs.Frame.{HidesNone};
ghost use Rattle.kdf_processor.specs.Lone.{is_live, lone};
ghost use Rattle.kdf_processor.specs.Needs.{needs, next_effect};
ghost use Rattle.kdf_processor.specs.Row.{row};
ghost use Rattle.kdf_processor.specs.State.{Lending, State, begin, device_in, is_pooled, lendings};
ghost use Rattle.kdf_theory.specs.Flights.{Flight, beginning, completed, flights_after, move_count, unmoved};
ghost use Rattle.kdf_theory.specs.Flights.{mine_of, with_flight, with_moved};
ghost use Rattle.kdf_theory.specs.Flying.{AreFlying};
ghost use Rattle.kdf_theory.specs.Seen.{begun_row, pending_in_flight, seen, with_both, with_store};
ghost use Rattle.kdf_theory.specs.Slots.{IsSlot};

pub mod journals;
pub mod served;

/// An order of a program none of whose needs is pending does to what is seen what it does to the lone state. The
/// transfers stay in flight; one that it begins is in flight then, and shows nothing yet.
pub fn commute()
    ensures begun { (flights : ℕ → Option Flight) (mine : List ℕ) (answer : Question → ℕ)
        (s : State) → HidesNone (pending_in_flight flights) (needs s mine) → begun_row (seen flights s) answer
        ≡ seen (flights_after flights s (next_effect s)) (row s answer) }
    ensures hidden { (flights : ℕ → Option Flight) (mine : List ℕ) (answer : Question → ℕ)
        (s : State) → HidesNone (pending_in_flight flights) (needs s mine) →
        seen (flights_after flights s (next_effect s)) (row (seen flights s) answer)
        ≡ seen (flights_after flights s (next_effect s)) (row s answer) }
    ensures flying { (flights : ℕ → Option Flight) (mine : List ℕ) (answer : Question → ℕ)
        (s : State) → AreFlying flights s → HidesNone (pending_in_flight flights) (needs s mine)
        → AreFlying (flights_after flights s (next_effect s)) (row s answer) }
{}

/// An order done at once, also one that moves words, does the same to what is seen as to the lone state.
pub fn at_once()
    ensures { (flights : ℕ → Option Flight) (mine : List ℕ) (answer : Question → ℕ) (s : State) →
        HidesNone (pending_in_flight flights) (needs s mine) →
        row (seen flights s) answer ≡ seen flights (row s answer) }
{}

/// An order that begins a transfer makes it one of those in flight.
pub fn begins()
    ensures { (flights : ℕ → Option Flight) (mine : List ℕ) (answer : Question → ℕ) (s : State)
        (d : ℕ) (o : TransferOrder) (first last : ℕ) (after : Registers) →
        next_effect s ≡ Starting d o first last after →
        HidesNone (pending_in_flight flights) (needs s mine) → begun_row (seen flights s) answer
        ≡ seen (with_flight d (Some (beginning o first last s)) flights) (row s answer) }
{}

/// Moving the next words of a transfer, or those that are left, writes those that come to the store to what is seen.
pub fn moves()
    ensures seen { (flights : ℕ → Option Flight) (s : State) (d n : ℕ) (f : Flight) →
        flights d ≡ Some f → AreFlying flights s →
        seen (with_moved d (min (f.moved + n) (move_count d f)) f flights) s
        ≡ with_store (seen flights s)
        (written (take n (unmoved d f)) (seen flights s).stock.store) }
    ensures flying { (flights : ℕ → Option Flight) (s : State) (d n : ℕ) (f : Flight) →
        flights d ≡ Some f → AreFlying flights s →
        AreFlying (with_moved d (min (f.moved + n) (move_count d f)) f flights) s }
{}

/// The end of a transfer writes the words that are left, and shows its device as the whole transfer leaves it.
pub fn ends()
    ensures seen { (flights : ℕ → Option Flight) (s : State) (d : ℕ) (f : Flight) →
        flights d ≡ Some f → AreFlying flights s → seen (with_flight d None flights) s
        ≡ with_both (seen flights s) (written (unmoved d f) (seen flights s).stock.store)
        (slice_set (seen flights s).stock.devices d (device_in (completed d f) d)) }
    ensures flying { (flights : ℕ → Option Flight) (s : State) (d : ℕ) →
        AreFlying flights s → AreFlying (with_flight d None flights) s }
{}

/// What is seen has the needs of the lone state, as long as none of these is pending; and in any case the same first
/// one of those that are pending.
pub fn same_needs()
    ensures all { (flights : ℕ → Option Flight) (mine : List ℕ) (s : State) →
        HidesNone (pending_in_flight flights) (needs s mine) → needs (seen flights s) mine ≡ needs s mine }
    ensures first { (flights : ℕ → Option Flight) (mine : List ℕ) (s : State) →
        find (pending_in_flight flights) (needs (seen flights s) mine)
        ≡ find (pending_in_flight flights) (needs s mine) }
{}

/// A program that an order fails or ends, none of whose needs is pending, has no transfer in flight.
pub fn none_at_the_end()
    ensures { (flights : ℕ → Option Flight) (answer : Question → ℕ) (s : State) →
        AreFlying flights s → HidesNone (pending_in_flight flights) (needs s (mine_of flights)) →
        is_live s.registers.state ≡ true → is_live (row s answer).registers.state ≡ false →
        (d : ℕ) → flights d ≡ None }
{}

/// With no transfer in flight all of the lone state is seen. So it is at the start of a program, and when it has failed
/// or ended.
pub fn nothing_in_flight()
    ensures seen { (flights : ℕ → Option Flight) (s : State) →
        ((d : ℕ) → flights d ≡ None) → seen flights s ≡ s }
    ensures flying { (flights : ℕ → Option Flight) (s : State) →
        length s.stock.store ≡ s.stock.claims.size → ((d : ℕ) → flights d ≡ None)
        → AreFlying flights s }
{}

/// Of a device of the pool that a program has claimed there is exactly one stint that isn't given back, and of one that it
/// hasn't claimed there is none, whatever the program is answered and however many orders it obeys.
pub fn stints_held()
    ensures claimed { (slot : Slot) (answers : List ℕ) (n d : ℕ) → IsSlot slot →
        is_pooled (lone (begin slot) answers n).stock.claims d ≡ true →
        is_claimed (lone (begin slot) answers n).stock.claims d ≡ true →
        length (filter (λ (x : Lending). x.device == d && not x.given)
        (lendings (lone (begin slot) answers n).stock)) ≡ 1 }
    ensures free { (slot : Slot) (answers : List ℕ) (n d : ℕ) → IsSlot slot →
        is_pooled (lone (begin slot) answers n).stock.claims d ≡ true →
        is_claimed (lone (begin slot) answers n).stock.claims d ≡ false →
        length (filter (λ (x : Lending). x.device == d && not x.given)
        (lendings (lone (begin slot) answers n).stock)) ≡ 0 }
{}
