//! Programs with transfers in flight under schedules, worked out from the definitions, each as the contract of a
//! function that does nothing.
ghost use Rattle.std.specs.Prelude.{◌≡◌, [], ◌∷◌, false, replicate};
ghost use Rattle.kdf_journal.specs.declared.entry.Entry.TheVariants.{Ran, Start, Answer, Take, Fail, Ended, Lov, Busy, Wait, Idle};
ghost use Rattle.kdf_journal.specs.declared.entry.Entry.TheVariants as entry;
ghost use Rattle.kdf_journal.specs.declared.kind.Kind.TheVariants.{Tp};
ghost use Rattle.kdf_journal.specs.declared.failure.Failure.TheVariants.{Liv};
ghost use Rattle.kdf_schedule.specs.declared.event.Event.TheVariants.{Orders, Move, End, Clock, Swap};
ghost use Rattle.kdf_transfer.specs.Examples.{having, placed};
ghost use Rattle.kdf_course.specs.Cut.{cut};
ghost use Rattle.kdf_theory.specs.Slots.{AreSlots};
ghost use Rattle.kdf_director.specs.Worked.{asks, borrowers, borrowing, device_seen, journal_under, keeps, looks, loops};
ghost use Rattle.kdf_director.specs.Worked.{loops_two, one_stint, overruns, stints_seen};
ghost use Rattle.kdf_director.specs.Worked.{prints, punches, reads, reads_journal, words_seen};

/// A program reads a paper tape to its store and is held up by the group of the area until the transfer ends.
pub fn reads_tape()
    ensures journal { journal_under (reads ∷ []) (Orders 12 ∷ End 3 ∷ Orders 5 ∷ [])
        ≡ Ran 0 8 ∷ Start 0 3 8 ∷ Lov 0 1 ∷ Idle 3 ∷ entry.End 3 ∷ Ran 0 3 ∷ Ended 0 ∷ [] }
    ensures words { words_seen (reads ∷ []) (journal_under (reads ∷ []) (Orders 12 ∷ End 3 ∷ []))
        ≡ 0o4142434445464750 ∷ 0o5152535455565760 ∷ [] }
    ensures device { device_seen (reads ∷ []) (journal_under (reads ∷ []) (Orders 12 ∷ End 3 ∷ [])) 3
        ≡ placed 16 false }
{}

/// Its journal, cut after so many calls: an entry of orders or of idle calls has those before the cut, and a note stays
/// with its order.
pub fn is_cut()
    ensures idle { cut 10 reads_journal ≡ Ran 0 8 ∷ Start 0 3 8 ∷ Lov 0 1 ∷ Idle 1 ∷ [] }
    ensures before { cut 7 reads_journal ≡ Ran 0 7 ∷ [] }
    ensures note { cut 8 reads_journal ≡ Ran 0 8 ∷ Start 0 3 8 ∷ [] }
    ensures orders { cut 15 reads_journal
        ≡ Ran 0 8 ∷ Start 0 3 8 ∷ Lov 0 1 ∷ Idle 3 ∷ entry.End 3 ∷ Ran 0 2 ∷ [] }
    ensures all { cut 18 reads_journal ≡ reads_journal }
{}

/// While the transfer is in flight, the words that were called for are seen, and nothing of the device.
pub fn reads_half()
    ensures none { words_seen (reads ∷ []) (journal_under (reads ∷ []) (Orders 12 ∷ []))
        ≡ 0 ∷ 0 ∷ [] }
    ensures one { words_seen (reads ∷ []) (journal_under (reads ∷ []) (Orders 12 ∷ Move 3 1 ∷ []))
        ≡ 0o4142434445464750 ∷ 0 ∷ [] }
    ensures both { words_seen (reads ∷ [])
        (journal_under (reads ∷ []) (Orders 12 ∷ Move 3 1 ∷ Move 3 9 ∷ []))
        ≡ 0o4142434445464750 ∷ 0o5152535455565760 ∷ [] }
    ensures device { device_seen (reads ∷ [])
        (journal_under (reads ∷ []) (Orders 12 ∷ Move 3 1 ∷ Move 3 9 ∷ [])) 3 ≡ placed 0 false }
    ensures journal { journal_under (reads ∷ []) (Orders 12 ∷ Move 3 1 ∷ Move 3 9 ∷ Orders 2 ∷ [])
        ≡ Ran 0 8 ∷ Start 0 3 8 ∷ Lov 0 1 ∷ Idle 3 ∷ entry.Move 3 1 ∷ entry.Move 3 9 ∷ Idle 2 ∷ [] }
{}

/// While the program of the higher priority is held up, the other one runs.
pub fn runs_meanwhile()
    ensures { journal_under (reads ∷ loops ∷ []) (Orders 20 ∷ End 3 ∷ Orders 20 ∷ [])
        ≡ Ran 0 8 ∷ Start 0 3 8 ∷ Lov 0 1 ∷ Ran 1 11 ∷ entry.End 3 ∷ Ran 0 3 ∷ Ended 0 ∷ Ran 1 17 ∷ [] }
{}

/// A program asks whether its device is busy, and for the time, before and after the end of the transfer.
pub fn is_answered()
    ensures { journal_under (asks ∷ []) (Orders 15 ∷ Clock 50 ∷ End 3 ∷ Orders 10 ∷ [])
        ≡ Ran 0 8 ∷ Start 0 3 8 ∷ Ran 0 1 ∷ Answer 0 1 ∷ Ran 0 2 ∷ Answer 0 0 ∷ Busy 0 3 ∷ Idle 3
        ∷ entry.Clock 50 ∷ entry.End 3 ∷ Ran 0 2 ∷ Answer 0 0 ∷ Ran 0 2 ∷ Answer 0 50 ∷ Ran 0 2 ∷ Ended 0 ∷ [] }
{}

/// A program that is to end waits for the transfer of its punch, which shows its block when it ends.
pub fn punches_a_block()
    ensures journal { journal_under (punches ∷ []) (Orders 12 ∷ End 1 ∷ Orders 5 ∷ [])
        ≡ Ran 0 8 ∷ Start 0 1 8 ∷ Ran 0 1 ∷ Busy 0 1 ∷ Idle 2 ∷ entry.End 1 ∷ Ran 0 1 ∷ Ended 0 ∷ [] }
    ensures before { device_seen (punches ∷ []) (journal_under (punches ∷ []) (Orders 12 ∷ [])) 1
        ≡ placed 0 false }
    ensures behind { device_seen (punches ∷ []) (journal_under (punches ∷ []) (Orders 12 ∷ End 1 ∷ [])) 1
        ≡ having (replicate 8 0 ∷ []) }
{}

/// A word of the group is locked out as the words of the area in it are.
pub fn lockout_covers_the_group()
    ensures { journal_under (keeps ∷ []) (Orders 12 ∷ [])
        ≡ Ran 0 8 ∷ Start 0 3 8 ∷ Ran 0 1 ∷ Lov 0 1 ∷ Idle 2 ∷ [] }
{}

/// The area of an output order is locked out too, and what is printed is what it was when the transfer began.
pub fn output_is_locked()
    ensures journal { journal_under (prints ∷ []) (Orders 20 ∷ End 2 ∷ Orders 5 ∷ [])
        ≡ Ran 0 10 ∷ Start 0 2 10 ∷ Ran 0 1 ∷ Lov 0 1 ∷ Idle 8 ∷ entry.End 2 ∷ Ran 0 3 ∷ Ended 0 ∷ [] }
    ensures words { words_seen (prints ∷ []) (journal_under (prints ∷ []) (Orders 20 ∷ End 2 ∷ Orders 5 ∷ []))
        ≡ 0 ∷ 0 ∷ [] }
    ensures device { device_seen (prints ∷ []) (journal_under (prints ∷ []) (Orders 20 ∷ End 2 ∷ Orders 5 ∷ [])) 2
        ≡ having ((0o50 ∷ 0o45 ∷ 0o54 ∷ 0o54 ∷ 0o57 ∷ 0 ∷ 0 ∷ 0 ∷ []) ∷ []) }
{}

/// A program that is to fail waits for its transfer as well.
pub fn fails_behind_its_transfer()
    ensures journal { journal_under (overruns ∷ []) (Orders 12 ∷ End 1 ∷ Orders 5 ∷ [])
        ≡ Ran 0 8 ∷ Start 0 1 8 ∷ Busy 0 1 ∷ Idle 3 ∷ entry.End 1 ∷ Ran 0 1 ∷ Fail 0 Liv ∷ [] }
    ensures device { device_seen (overruns ∷ []) (journal_under (overruns ∷ []) (Orders 12 ∷ End 1 ∷ Orders 5 ∷ [])) 1
        ≡ having (replicate 8 0 ∷ []) }
{}

/// A program asks whether a group of an area is locked out.
pub fn is_locked_out()
    ensures { journal_under (looks ∷ []) (Orders 12 ∷ [])
        ≡ Ran 0 8 ∷ Start 0 3 8 ∷ Ran 0 1 ∷ Answer 0 1 ∷ Ran 0 1 ∷ Busy 0 3 ∷ Idle 1 ∷ [] }
{}

/// Two programs take the one punch of the pool in turn: the second waits until the first, which doesn't give it back,
/// has ended. Each keeps its own block.
pub fn takes_from_the_pool()
    ensures journal { journal_under borrowers borrowing
        ≡ Ran 0 4 ∷ Take 0 9 ∷ Ran 0 4 ∷ Start 0 9 8 ∷ Ran 0 1 ∷ Busy 0 9 ∷ Ran 1 3 ∷ Wait 1 Tp ∷ Idle 6
        ∷ entry.End 9 ∷ Ran 0 1 ∷ Ended 0 ∷ Ran 1 1 ∷ Take 1 9 ∷ Ran 1 4 ∷ Start 1 9 8 ∷ Ran 1 1 ∷ Busy 1 9
        ∷ Idle 12 ∷ entry.End 9 ∷ Ran 1 1 ∷ Ended 1 ∷ [] }
    ensures first { stints_seen borrowers (journal_under borrowers borrowing) 0 ≡ one_stint }
    ensures second { stints_seen borrowers (journal_under borrowers borrowing) 1 ≡ one_stint }
{}

/// Two programs exchange their priorities, and exchange them again.
pub fn exchanges_priorities()
    ensures { journal_under loops_two (Orders 5 ∷ Swap 0 1 ∷ Orders 5 ∷ Swap 0 1 ∷ Orders 2 ∷ [])
        ≡ Ran 0 5 ∷ entry.Swap 0 1 ∷ Ran 1 5 ∷ entry.Swap 0 1 ∷ Ran 0 2 ∷ [] }
{}

/// Two of these slots are such as can be loaded: what the laws take for granted of slots can be met.
pub fn can_be_loaded()
    ensures { AreSlots (reads ∷ loops ∷ []) }
{}
