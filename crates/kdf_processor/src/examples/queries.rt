//! Examples of the orders that ask and of those that test a device, over a store of 8,192 words and the devices of
//! which 0 to 5 are claimed: device 0 is a reader, and 4 and 5 are tapes.
#![tactic(auto, unfolding(crate::specs::Table::query_effect, crate::specs::Table::guarded))]

ghost use Rattle.std.specs.Prelude.{◌≡◌, true, false};
ghost use Rattle.kdf_journal.specs.declared.failure.Failure.TheVariants.{Liv, Claim};
ghost use Rattle.kdf_processor.specs.Effect.{Nothing, Asks, IsBusy, IsOut};
ghost use Rattle.kdf_processor.specs.Examples.{parts, asks, tests, tells, standing, refuses};

/// BUSYQ: TR becomes the answer, whatever it was. The device is claimed.
pub fn busyq()
    ensures idle { asks 0 false 0 (parts 3 9 1) ≡ tells false (parts 3 9 1) (Asks (IsBusy 3) 0) }
    ensures busy { asks 0 false 1 (parts 3 9 1) ≡ tells true (parts 3 9 1) (Asks (IsBusy 3) 1) }
    ensures idle_clears { asks 0 true 0 (parts 0 0 0)
        ≡ tells false (parts 0 0 0) (Asks (IsBusy 0) 0) }
    ensures busy_keeps { asks 0 true 1 (parts 5 0 0)
        ≡ tells true (parts 5 0 0) (Asks (IsBusy 5) 1) }
    ensures not_claimed { asks 0 false 1 (parts 6 0 0) ≡ refuses (parts 6 0 0) Claim }
    ensures absent { asks 0 false 1 (parts 11 0 0) ≡ refuses (parts 11 0 0) Claim }
    ensures no_number { asks 0 false 1 (parts 16 0 0) ≡ refuses (parts 16 0 0) Claim }
{}

/// TLOQ: TR becomes the answer. The area is such, and C isn't looked at.
pub fn tloq()
    ensures free { asks 1 true 0 (parts 65535 40 50)
        ≡ tells false (parts 65535 40 50) (Asks (IsOut 40 50) 0) }
    ensures out { asks 1 false 1 (parts 65535 40 50)
        ≡ tells true (parts 65535 40 50) (Asks (IsOut 40 50) 1) }
    ensures one_word { asks 1 false 0 (parts 0 0 0)
        ≡ tells false (parts 0 0 0) (Asks (IsOut 0 0) 0) }
    ensures longest { asks 1 false 1 (parts 0 0 4095)
        ≡ tells true (parts 0 0 4095) (Asks (IsOut 0 4095) 1) }
    ensures too_long { asks 1 false 1 (parts 0 0 4096) ≡ refuses (parts 0 0 4096) Liv }
    ensures to_the_last_word { asks 1 false 1 (parts 7 8191 8191)
        ≡ tells true (parts 7 8191 8191) (Asks (IsOut 8191 8191) 1) }
    ensures one_past { asks 1 false 1 (parts 7 8191 8192) ≡ refuses (parts 7 8191 8192) Liv }
    ensures falling { asks 1 false 1 (parts 7 50 49) ≡ refuses (parts 7 50 49) Liv }
{}

/// PARQ: TR becomes the flag of a device of any kind.
pub fn parq()
    ensures flag { tests 2 false (standing 0 true false) (parts 0 0 0)
        ≡ tells true (parts 0 0 0) Nothing }
    ensures no_flag { tests 2 true (standing 5 false true) (parts 0 0 0)
        ≡ tells false (parts 0 0 0) Nothing }
    ensures of_a_tape { tests 2 false (standing 0 true false) (parts 4 0 0)
        ≡ tells true (parts 4 0 0) Nothing }
    ensures not_claimed { tests 2 false (standing 0 true false) (parts 7 0 0)
        ≡ refuses (parts 7 0 0) Claim }
    ensures no_number { tests 2 false (standing 0 true false) (parts 65535 0 0)
        ≡ refuses (parts 65535 0 0) Claim }
{}

/// MBTQ: TR becomes 1 where a tape is at its begin, and else 0.
pub fn mbtq()
    ensures begin { tests 3 false (standing 0 false false) (parts 4 0 0)
        ≡ tells true (parts 4 0 0) Nothing }
    ensures behind_a_block { tests 3 true (standing 1 true true) (parts 4 0 0)
        ≡ tells false (parts 4 0 0) Nothing }
    ensures of_a_reader { tests 3 false (standing 0 false false) (parts 0 0 0)
        ≡ refuses (parts 0 0 0) Claim }
    ensures not_claimed { tests 3 false (standing 0 false false) (parts 6 0 0)
        ≡ refuses (parts 6 0 0) Claim }
{}

/// MLBQ: TR becomes the mark of a tape.
pub fn mlbq()
    ensures mark { tests 4 false (standing 3 false true) (parts 5 0 0)
        ≡ tells true (parts 5 0 0) Nothing }
    ensures no_mark { tests 4 true (standing 0 true false) (parts 5 0 0)
        ≡ tells false (parts 5 0 0) Nothing }
    ensures of_cards { tests 4 false (standing 0 false true) (parts 2 0 0)
        ≡ refuses (parts 2 0 0) Claim }
    ensures not_claimed { tests 4 false (standing 0 false true) (parts 6 0 0)
        ≡ refuses (parts 6 0 0) Claim }
{}

/// INTQ leaves TR as it was.
pub fn intq()
    ensures zero { tests 5 false (standing 0 true true) (parts 3 0 0)
        ≡ tells false (parts 3 0 0) Nothing }
    ensures one { tests 5 true (standing 3 false false) (parts 4 0 0)
        ≡ tells true (parts 4 0 0) Nothing }
    ensures not_claimed { tests 5 false (standing 0 false false) (parts 10 0 0)
        ≡ refuses (parts 10 0 0) Claim }
    ensures absent { tests 5 false (standing 0 false false) (parts 11 0 0)
        ≡ refuses (parts 11 0 0) Claim }
{}
