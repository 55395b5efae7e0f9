//! Laws of transfers in flight, each the contract of a function that does nothing.
ghost use Rattle.std.specs.Prelude.{◌≡◌, ℕ, ◌+◌, ◌≤◌, take, true, false};
ghost use Rattle.std.specs.Option.{option_map};
ghost use Rattle.kdf_transfer.specs.AtOnce.{is_input};
ghost use Rattle.kdf_transfer.specs.InFlight.{Motion, ended_progress, moved_by, moves_of, put_words, total_of, words_in_flight};

/// However its moves are cut, a transfer is where one move of as many words brings it, and the rest brings it to one end.
pub fn cuts()
    ensures none { (t : Motion) → t.moved ≤ total_of t → moved_by 0 t ≡ t }
    ensures two { (a b : ℕ) (t : Motion) → t.moved ≤ total_of t
        → moved_by b (moved_by a t) ≡ moved_by (a + b) t }
    ensures rest { (n : ℕ) (t : Motion) → t.moved ≤ total_of t →
        moved_by (total_of (moved_by n t)) (moved_by n t) ≡ moved_by (total_of t) t }
{}

/// However many words have moved, the words that move and the new state of the device are those of the begin.
pub fn fixed_at_the_begin()
    ensures words { (n : ℕ) (t : Motion) → words_in_flight (moved_by n t) ≡ words_in_flight t }
    ensures device { (n : ℕ) (t : Motion) → ended_progress (moved_by n t) ≡ ended_progress t }
{}

/// After n words exactly the first n words of an input order are in the lease, and an output order leaves it as it is.
pub fn first_words()
    ensures input { (n : ℕ) (t : Motion) → t.moved ≡ 0 → is_input t.order ≡ true →
        (moved_by n t).lease ≡ option_map (put_words (take n (moves_of t))) t.lease }
    ensures output { (n : ℕ) (t : Motion) → is_input t.order ≡ false
        → (moved_by n t).lease ≡ t.lease }
{}
