//! Examples of OUT 5 and OUT 6 with a pool. Devices 11 and 13 are its punches, and 12 is its printer. Of the program's own,
//! 1 and 8 are punches, 0 and 7 readers, 3 and 10 printers, and 2 and 9 cards. So many of all are claimed, from device 0 on.
#![tactic(auto, unfolding(crate::specs::Table::out_effect, crate::specs::Table::guarded, crate::specs::Table::plain_row, crate::specs::Table::from_top, crate::specs::Table::single_row, crate::specs::Table::decision, crate::specs::Table::direct_effect, crate::specs::Table::transfer_of, crate::specs::Claims::free_for, crate::specs::Claims::least_pooled, crate::specs::State::lendings, crate::specs::State::unclaimed, kdf_transfer::specs::AtOnce::given, kdf_transfer::specs::AtOnce::offered, kdf_transfer::specs::AtOnce::finished, kdf_decode::specs::Decoding::decoded, kdf_arith::specs::Arith::arith_result, kdf_arith::specs::Rows::arith_row))]

ghost use Rattle.std.specs.Prelude.{◌≡◌, [], ◌∷◌, replicate, true, false};
ghost use Rattle.kdf_journal.specs.declared.failure.Failure.TheVariants.{Claim};
ghost use Rattle.kdf_journal.specs.declared.kind.Kind.TheVariants.{Tp, Lp};
ghost use Rattle.kdf_media.specs.Examples.{letters};
ghost use Rattle.kdf_transfer.specs.declared.order.TransferOrder.TheVariants.{Pwq};
ghost use Rattle.kdf_transfer.specs.Examples.{ab, having};
ghost use Rattle.kdf_processor.specs.declared.registers.Life.TheVariants.{Live, Ended, Failed};
ghost use Rattle.kdf_journal.specs.declared.need.Need.TheVariants.{Device, Pool};
ghost use Rattle.kdf_processor.specs.Effect.{Asks, FreeOf, Acquires, Releases, Starts};
ghost use Rattle.kdf_processor.specs.Examples.{parts, rejects, replaces};
ghost use Rattle.kdf_processor.specs.PoolExamples.{after, beside, borrows, held, lent_punch, needs_for, no_pool, one_punch};
ghost use Rattle.kdf_processor.specs.PoolExamples.{punches, returned, stocking, takes_twice, tries, waits};
ghost use Rattle.kdf_processor.specs.Row.{at_once};
ghost use Rattle.kdf_processor.specs.State.{lendings};

/// OUT 5 claims a device of the program's own where one is free. Else it asks, and takes the device that is answered, or the
/// least where that isn't one of the kind in the pool that the program hasn't claimed.
pub fn take()
    ensures own { borrows 2 13 (5 ∷ 1 ∷ 9 ∷ []) ≡ replaces (8 ∷ 9 ∷ []) (Acquires 8) }
    ensures least { borrows 9 11 (5 ∷ 1 ∷ 9 ∷ []) ≡ replaces (11 ∷ 9 ∷ []) (Asks (FreeOf Tp) 11) }
    ensures answered { borrows 9 13 (5 ∷ 1 ∷ 9 ∷ []) ≡ replaces (13 ∷ 9 ∷ []) (Asks (FreeOf Tp) 13) }
    ensures of_another_kind { borrows 9 12 (5 ∷ 1 ∷ []) ≡ replaces (11 ∷ []) (Asks (FreeOf Tp) 12) }
    ensures of_its_own { borrows 9 8 (5 ∷ 1 ∷ []) ≡ replaces (11 ∷ []) (Asks (FreeOf Tp) 8) }
    ensures claimed { borrows 12 11 (5 ∷ 1 ∷ []) ≡ replaces (13 ∷ []) (Asks (FreeOf Tp) 11) }
    ensures printer { borrows 12 0 (5 ∷ 3 ∷ []) ≡ replaces (12 ∷ []) (Asks (FreeOf Lp) 0) }
{}

/// It fails where the program has claimed all of the kind, as where there are none.
pub fn no_more()
    ensures punches { borrows 14 11 (5 ∷ 1 ∷ []) ≡ rejects (5 ∷ 1 ∷ []) Claim }
    ensures printers { borrows 13 12 (5 ∷ 3 ∷ []) ≡ rejects (5 ∷ 3 ∷ []) Claim }
    ensures readers { borrows 8 0 (5 ∷ 2 ∷ []) ≡ rejects (5 ∷ 2 ∷ []) Claim }
{}

/// Where every device of the pool has a holder, it waits if it were to take one, and doesn't else.
pub fn wait()
    ensures own { tries 2 (5 ∷ 1 ∷ 9 ∷ []) ≡ replaces (8 ∷ 9 ∷ []) (Acquires 8) }
    ensures taken { tries 9 (5 ∷ 1 ∷ 9 ∷ []) ≡ waits (5 ∷ 1 ∷ 9 ∷ []) (Pool Tp) }
    ensures printer { tries 12 (5 ∷ 3 ∷ []) ≡ waits (5 ∷ 3 ∷ []) (Pool Lp) }
    ensures no_more { tries 14 (5 ∷ 1 ∷ []) ≡ rejects (5 ∷ 1 ∷ []) Claim }
{}

/// To take a device needs one of the pool and nothing else, and to give one back needs its transfer to be over. An order that fails
/// needs what any such needs.
pub fn needs()
    ensures own { needs_for 2 (5 ∷ 1 ∷ []) ≡ [] }
    ensures taking { needs_for 9 (5 ∷ 1 ∷ []) ≡ Pool Tp ∷ [] }
    ensures giving_back { needs_for 12 (6 ∷ 11 ∷ []) ≡ Device 11 ∷ [] }
    ensures no_more { needs_for 14 (5 ∷ 1 ∷ []) ≡ Device 2 ∷ Device 5 ∷ [] }
{}

/// OUT 6 gives a device back to the pool, or to the program's own.
pub fn give_back()
    ensures pooled { borrows 12 0 (6 ∷ 11 ∷ 9 ∷ []) ≡ replaces (9 ∷ []) (Releases true 11) }
    ensures own { borrows 12 0 (6 ∷ 8 ∷ 9 ∷ []) ≡ replaces (9 ∷ []) (Releases false 8) }
    ensures not_claimed { borrows 12 0 (6 ∷ 13 ∷ []) ≡ rejects (6 ∷ 13 ∷ []) Claim }
{}

/// A stint begins when a device is taken. It keeps the blocks when the device is given back, which then has none, and the next taking
/// is a stint of its own.
pub fn stints()
    ensures taken { at_once (Asks (FreeOf Tp) 2) (stocking false 6 [] []) ≡ stocking true 7 (held 2 ∷ []) [] }
    ensures punched { at_once (Starts 2 Pwq 0 1) (stocking true 7 (held 2 ∷ []) [])
        ≡ stocking true 7 (held 2 ∷ []) (ab ∷ []) }
    ensures given_back { at_once (Releases true 2) (stocking true 7 (held 2 ∷ []) (ab ∷ []))
        ≡ stocking false 7 (returned 2 (having (ab ∷ [])) ∷ []) [] }
    ensures again { at_once (Asks (FreeOf Tp) 2) (stocking false 7 (returned 2 (having (ab ∷ [])) ∷ []) [])
        ≡ stocking true 8 (returned 2 (having (ab ∷ [])) ∷ held 2 ∷ []) [] }
    ensures seen { lendings (stocking true 8 (returned 2 (having (ab ∷ [])) ∷ held 2 ∷ []) (letters 8 ∷ []))
        ≡ lent_punch 2 (ab ∷ []) true ∷ lent_punch 2 (letters 8 ∷ []) false ∷ [] }
{}

/// A program takes the punch of its pool, gives it back and takes it again, whatever it is answered.
pub fn taken_twice()
    ensures first { after (beside one_punch takes_twice) (9 ∷ 9 ∷ []) 6 ≡ record {
      life = Live;
      ran = 6;
      at = 17;
      nest = [];
      q1 = parts 0 0 0;
      stints = lent_punch 9 [] true ∷ [];
    } }
    ensures both { after (beside one_punch takes_twice) (9 ∷ 9 ∷ []) 11 ≡ record {
      life = Ended;
      ran = 11;
      at = 26;
      nest = 9 ∷ [];
      q1 = parts 0 0 0;
      stints = lent_punch 9 [] true ∷ lent_punch 9 [] false ∷ [];
    } }
    ensures unanswered { after (beside one_punch takes_twice) [] 11
        ≡ after (beside one_punch takes_twice) (9 ∷ 9 ∷ []) 11 }
{}

/// A program punches a block of eight spaces on the punch of its pool, and fails without one.
pub fn punched()
    ensures pool { after (beside one_punch punches) (9 ∷ []) 10 ≡ record {
      life = Ended;
      ran = 10;
      at = 30;
      nest = [];
      q1 = parts 9 32 32;
      stints = lent_punch 9 (replicate 8 0 ∷ []) false ∷ [];
    } }
    ensures none { after (beside no_pool punches) [] 20 ≡ record {
      life = Failed Claim;
      ran = 4;
      at = 18;
      nest = 5 ∷ 1 ∷ [];
      q1 = parts 0 0 0;
      stints = [];
    } }
{}
