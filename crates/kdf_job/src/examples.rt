//! Lines with what they tell, media, faults and a job, each computed from the definitions, as the contract of a
//! function that does nothing.
#![tactic(auto, unfolding(kdf_text::specs::Lines::lines, kdf_text::specs::Lines::words, kdf_text::specs::Numbers::value, kdf_text::specs::Text::text, kdf_schedule::specs::Events::event, kdf_code::specs::Code::code_of, kdf_word::specs::Characters::first_word, kdf_word::specs::Characters::words_of, crate::specs::Media::codes_in, crate::specs::Made::after_steps, crate::specs::Made::letters_from, crate::specs::Reading::read_line, crate::specs::Reading::job_fault, crate::specs::Reading::job, crate::specs::Front::front_lines, crate::specs::Front::front_length, crate::specs::More::more_fault, crate::specs::More::more_events, crate::specs::SlotLines::slot_lines, crate::specs::SlotLines::pool_lines))]

ghost use Rattle.std.specs.Prelude.{◌≡◌, ◌*◌, ◌-◌, ◌^◌, [], ◌∷◌, ◌++◌, true, false, Some, None, Ok, Err, codes, replicate};
ghost use Rattle.kdf_text.specs.Text.{text};
ghost use Rattle.kdf_journal.specs.declared.kind.Kind.TheVariants as kind;
ghost use Rattle.kdf_schedule.specs.declared.event.Event.TheVariants as event;
ghost use Rattle.kdf_job.specs.declared.fault.JobFault.TheVariants as fault;
ghost use Rattle.kdf_job.specs.declared.line_place.LinePlace.TheVariants as place;
ghost use Rattle.kdf_job.specs.Draft.{event_fault, lent_fault, new_slot, show_fault, slot_fault, slot_of, store_fault};
ghost use Rattle.kdf_job.specs.Forms.{ADeckLine, ADevice, AMedium, APool, APoolDevice, ASchedule, AService, AShow, ASlot, AStore, AnEndDeck, AnEndJob, AnEvent, told_at};
ghost use Rattle.kdf_limits.specs.declared.store.TheConstants.{PROGRAMS_WORDS};
ghost use Rattle.kdf_job.specs.Front.{front_fault, front_length};
ghost use Rattle.kdf_job.specs.Made.{letter, reader_line, step};
ghost use Rattle.kdf_job.specs.Media.{filled, fits, is_label, word_of_text};
ghost use Rattle.kdf_job.specs.More.{more_events, more_fault};
ghost use Rattle.kdf_job.specs.Reading.{job, job_fault};
ghost use Rattle.kdf_job.specs.SlotLines.{pool_lines, slot_lines};

/// What lines tell in their places.
pub fn lines_tell()
    ensures header { told_at place.First (codes "KDF9 JOB 1 ") ≡ Err fault.Header }
    ensures slot { told_at place.BehindHeader (codes "SLOT 3") ≡ Ok (ASlot 3) }
    ensures slot_4 { told_at place.BehindHeader (codes "SLOT 4") ≡ Err fault.BadNumber }
    ensures no_slot { told_at place.BehindHeader (codes "SCHEDULE") ≡ Err fault.BadLine }
    ensures store { told_at (place.BehindSlot 3) (codes "STORE 8192") ≡ Ok (AStore 8192) }
    ensures leading_zero { told_at (place.BehindSlot 3) (codes "STORE 032") ≡ Err fault.BadNumber }
    ensures deck { told_at place.BehindStore (codes "DECK ") ≡ Err fault.BadLine }
    ensures any_deck_line { told_at place.InDeck (codes "SLOT 9")
        ≡ Ok (ADeckLine (codes "SLOT 9")) }
    ensures end_deck { told_at place.InDeck (codes "ENDDECK") ≡ Ok AnEndDeck }
    ensures device { told_at place.BehindDeck (codes "DEVICE 15 TR") ≡ Ok (ADevice 15 kind.Tr []) }
    ensures tape { told_at place.BehindDeck (codes "DEVICE 3 MT a")
        ≡ Ok (ADevice 3 kind.Mt (codes "a")) }
    ensures empty_label { told_at place.BehindDeck (codes "DEVICE 3 MT ")
        ≡ Ok (ADevice 3 kind.Mt []) }
    ensures no_label { told_at place.BehindDeck (codes "DEVICE 3 MT") ≡ Err fault.BadLine }
    ensures device_16 { told_at place.BehindDeck (codes "DEVICE 16 MT a") ≡ Err fault.BadNumber }
    ensures service { told_at place.BehindDeck (codes "SERVICE") ≡ Ok AService }
    ensures service_of_a_number { told_at place.BehindDeck (codes "SERVICE 0")
        ≡ Err fault.BadLine }
    ensures service_again { told_at place.BehindService (codes "SERVICE") ≡ Err fault.BadLine }
    ensures service_after_a_device { told_at place.BehindDevice (codes "SERVICE")
        ≡ Err fault.BadLine }
    ensures service_after_a_show { told_at place.BehindShow (codes "SERVICE")
        ≡ Err fault.BadLine }
    ensures device_after_a_service { told_at place.BehindService (codes "DEVICE 3 TR")
        ≡ Ok (ADevice 3 kind.Tr []) }
    ensures show_after_a_service { told_at place.BehindService (codes "SHOW 0 1")
        ≡ Ok (AShow 0 1) }
    ensures medium_after_a_service { told_at place.BehindService (codes "+A")
        ≡ Err fault.BadLine }
    ensures no_device { told_at place.BehindDeck (codes "+A") ≡ Err fault.BadLine }
    ensures medium { told_at place.BehindDevice (codes "+A b") ≡ Ok (AMedium false (codes "A b")) }
    ensures marked { told_at place.BehindDevice (codes "=") ≡ Ok (AMedium true []) }
    ensures show { told_at place.BehindDevice (codes "SHOW 0 8191") ≡ Ok (AShow 0 8191) }
    ensures device_behind_show { told_at place.BehindShow (codes "DEVICE 3 TR")
        ≡ Err fault.BadLine }
    ensures medium_behind_show { told_at place.BehindShow (codes "+A") ≡ Err fault.BadLine }
    ensures event { told_at place.InSchedule (codes "END 3") ≡ Ok (AnEvent (event.End 3)) }
    ensures swap { told_at place.InSchedule (codes "SWAP 0 3") ≡ Ok (AnEvent (event.Swap 0 3)) }
    ensures bad_event { told_at place.InSchedule (codes "MOVE 3 0") ≡ Err fault.BadNumber }
    ensures swap_of_slot_4 { told_at place.InSchedule (codes "SWAP 0 4") ≡ Err fault.BadNumber }
    ensures swap_of_one { told_at place.InSchedule (codes "SWAP 0") ≡ Err fault.BadLine }
    ensures end_job { told_at place.InSchedule (codes "ENDJOB") ≡ Ok AnEndJob }
    ensures behind_end { told_at place.BehindEnd [] ≡ Err fault.BadLine }
{}

/// What lines tell at the begin of a pool and in it.
pub fn pool_lines_tell()
    ensures pool { told_at place.BehindShow (codes "POOL") ≡ Ok APool }
    ensures pool_of_a_number { told_at place.BehindDeck (codes "POOL 1") ≡ Err fault.BadLine }
    ensures no_slot { told_at place.BehindHeader (codes "POOL") ≡ Err fault.BadLine }
    ensures device { told_at place.BehindPool (codes "DEVICE 9 TP")
        ≡ Ok (APoolDevice 9 kind.Tp []) }
    ensures tape { told_at place.BehindPool (codes "DEVICE 9 MT a")
        ≡ Ok (APoolDevice 9 kind.Mt (codes "a")) }
    ensures no_label { told_at place.BehindPool (codes "DEVICE 9 MT") ≡ Err fault.BadLine }
    ensures device_16 { told_at place.BehindPool (codes "DEVICE 16 MT a") ≡ Err fault.BadNumber }
    ensures medium { told_at place.BehindPool (codes "+A") ≡ Err fault.BadMedium }
    ensures marked { told_at place.BehindPool (codes "=") ≡ Err fault.BadMedium }
    ensures show { told_at place.BehindPool (codes "SHOW 0 0") ≡ Err fault.BadLine }
    ensures slot { told_at place.BehindPool (codes "SLOT 3") ≡ Err fault.BadLine }
    ensures pool_again { told_at place.BehindPool (codes "POOL") ≡ Err fault.BadLine }
    ensures schedule { told_at place.BehindPool (codes "SCHEDULE") ≡ Ok ASchedule }
{}

/// Labels and blocks, and which lines may stand after which kinds.
pub fn media()
    ensures label { is_label (codes "A1B2C3D4") ≡ true }
    ensures no_label { is_label [] ≡ false }
    ensures small_letter { is_label (codes "a") ≡ false }
    ensures long_label { is_label (codes "ABCDEFGHI") ≡ false }
    ensures word { word_of_text (codes "A") ≡ 33 * 2 ^ 42 }
    ensures filled { filled (33 ∷ []) ≡ 33 ∷ replicate 7 0 }
    ensures full { filled (replicate 8 33) ≡ replicate 8 33 }
    ensures empty_paper { fits kind.Tr false 0 ≡ true }
    ensures marked_paper { fits kind.Tr true 1 ≡ false }
    ensures whole_card { fits kind.Cr false 80 ≡ true }
    ensures long_card { fits kind.Cr false 81 ≡ false }
    ensures marked_card { fits kind.Cr true 1 ≡ false }
    ensures punch { fits kind.Tp false 0 ≡ false }
    ensures printer { fits kind.Lp false 0 ≡ false }
    ensures empty_block { fits kind.Mt true 0 ≡ false }
    ensures block { fits kind.Mt true 32768 ≡ true }
    ensures long_block { fits kind.Mt false 32769 ≡ false }
{}

/// What is wrong with numbers.
pub fn faults()
    ensures slot_rises { slot_fault 1 (Some (new_slot 0 32)) ≡ None }
    ensures slot_again { slot_fault 1 (Some (new_slot 1 32)) ≡ Some fault.SlotOrder }
    ensures no_groups { store_fault 33 [] ≡ Some fault.SizeNotGroups }
    ensures store_fits { store_fault 8192 (slot_of (new_slot 0 (PROGRAMS_WORDS - 8192)) ∷ []) ≡ None }
    ensures store_full { store_fault 8192 (slot_of (new_slot 0 (PROGRAMS_WORDS - 8160)) ∷ []) ≡ Some fault.StoreFull }
    ensures lent_punch { lent_fault kind.Tp [] ≡ None }
    ensures lent_printer { lent_fault kind.Lp [] ≡ None }
    ensures lent_reader { lent_fault kind.Tr [] ≡ Some fault.PoolKind }
    ensures lent_cards { lent_fault kind.Cr [] ≡ Some fault.PoolKind }
    ensures lent_tape { lent_fault kind.Mt (codes "OUT") ≡ Some fault.PoolKind }
    ensures bad_label { lent_fault kind.Mt (codes "a") ≡ Some fault.BadLabel }
    ensures last_address { show_fault 31 31 32 ≡ None }
    ensures at_size { show_fault 31 32 32 ≡ Some fault.ShowRange }
    ensures falling { show_fault 2 1 32 ≡ Some fault.ShowRange }
    ensures same_time { event_fault (event.Clock 5) (event.Clock 5 ∷ event.End 1 ∷ []) ≡ None }
    ensures earlier { event_fault (event.Clock 4) (event.Clock 5 ∷ event.End 1 ∷ [])
        ≡ Some fault.ClockFalls }
    ensures most { event_fault (event.Orders 1) (event.Orders 19999999 ∷ []) ≡ None }
    ensures more { event_fault (event.Orders 2) (event.Orders 19999999 ∷ [])
        ≡ Some fault.TooManyOrders }
{}

/// A job with what it tells, and jobs that are cut.
pub fn jobs()
    ensures nothing { job_fault [] ≡ Some (fault.Header, 1) }
    ensures line_end { job_fault (10 ∷ []) ≡ Some (fault.Header, 1) }
    ensures header_alone { job_fault (codes "KDF9 JOB 1") ≡ Some (fault.BadLine, 2) }
    ensures right { job_fault (text (codes "KDF9 JOB 1" ∷ codes "SLOT 2" ∷ codes "STORE 32"
        ∷ codes "DECK" ∷ codes "A" ∷ codes "ENDDECK" ∷ codes "SHOW 0 31" ∷ codes "SCHEDULE"
        ∷ codes "CLOCK 1" ∷ codes "ENDJOB" ∷ [])) ≡ None }
    ensures told { job (text (codes "KDF9 JOB 1" ∷ codes "SLOT 2" ∷ codes "STORE 32"
        ∷ codes "DECK" ∷ codes "A" ∷ codes "ENDDECK" ∷ codes "SHOW 0 31" ∷ codes "SCHEDULE"
        ∷ codes "CLOCK 1" ∷ codes "ENDJOB" ∷ []))
        ≡ record {
          slots = record {
            p = 2;
            size = 32;
            deck = codes "A" ++ 10 ∷ [];
            devices = [];
            shows = (0, 31) ∷ [];
            pool = [];
            served = false;
          } ∷ [];
          events = event.Clock 1 ∷ [];
          pool = [];
        } }
    ensures line_behind { job_fault (text (codes "KDF9 JOB 1" ∷ codes "SLOT 2" ∷ codes "STORE 32"
        ∷ codes "DECK" ∷ codes "ENDDECK" ∷ codes "SCHEDULE" ∷ codes "ENDJOB" ∷ [] ∷ []))
        ≡ Some (fault.BadLine, 8) }
{}

/// Jobs with pools.
pub fn pools()
    ensures told { job (text (codes "KDF9 JOB 1" ∷ codes "SLOT 0" ∷ codes "STORE 32"
        ∷ codes "DECK" ∷ codes "ENDDECK" ∷ codes "SLOT 3" ∷ codes "STORE 64" ∷ codes "DECK"
        ∷ codes "ENDDECK" ∷ codes "POOL" ∷ codes "DEVICE 9 TP" ∷ codes "DEVICE 2 LP"
        ∷ codes "SCHEDULE" ∷ codes "ENDJOB" ∷ []))
        ≡ record {
          slots = record {
            p = 0;
            size = 32;
            deck = [];
            devices = [];
            shows = [];
            pool = (9, kind.Tp) ∷ (2, kind.Lp) ∷ [];
            served = false;
          } ∷ record {
            p = 3;
            size = 64;
            deck = [];
            devices = [];
            shows = [];
            pool = (9, kind.Tp) ∷ (2, kind.Lp) ∷ [];
            served = false;
          } ∷ [];
          events = [];
          pool = (9, kind.Tp) ∷ (2, kind.Lp) ∷ [];
        } }
    ensures number_of_a_slot { job_fault (text (codes "KDF9 JOB 1" ∷ codes "SLOT 0"
        ∷ codes "STORE 32" ∷ codes "DECK" ∷ codes "ENDDECK" ∷ codes "DEVICE 9 LP" ∷ codes "POOL"
        ∷ codes "DEVICE 9 TP" ∷ codes "SCHEDULE" ∷ codes "ENDJOB" ∷ []))
        ≡ Some (fault.DeviceTwice, 8) }
    ensures number_twice { job_fault (text (codes "KDF9 JOB 1" ∷ codes "SLOT 0"
        ∷ codes "STORE 32" ∷ codes "DECK" ∷ codes "ENDDECK" ∷ codes "POOL" ∷ codes "DEVICE 9 TP"
        ∷ codes "DEVICE 9 TR" ∷ codes "SCHEDULE" ∷ codes "ENDJOB" ∷ []))
        ≡ Some (fault.DeviceTwice, 8) }
    ensures lines { pool_lines (text (codes "KDF9 JOB 1" ∷ codes "SLOT 0" ∷ codes "STORE 32"
        ∷ codes "DECK" ∷ codes "POOL" ∷ codes "ENDDECK" ∷ codes "SHOW 0 1" ∷ codes "POOL"
        ∷ codes "DEVICE 9 TP" ∷ codes "SCHEDULE" ∷ codes "ENDJOB" ∷ []))
        ≡ codes "POOL" ∷ codes "DEVICE 9 TP" ∷ [] }
    ensures lines_before { slot_lines 0 (text (codes "KDF9 JOB 1" ∷ codes "SLOT 0"
        ∷ codes "STORE 32" ∷ codes "DECK" ∷ codes "POOL" ∷ codes "ENDDECK" ∷ codes "SHOW 0 1"
        ∷ codes "POOL" ∷ codes "DEVICE 9 TP" ∷ codes "SCHEDULE" ∷ codes "ENDJOB" ∷ []))
        ≡ codes "SLOT 0" ∷ codes "STORE 32" ∷ codes "DECK" ∷ codes "POOL" ∷ codes "ENDDECK"
        ∷ codes "SHOW 0 1" ∷ [] }
{}

/// A job whose second slot is served.
pub fn services()
    ensures told { job (text (codes "KDF9 JOB 1" ∷ codes "SLOT 0" ∷ codes "STORE 32"
        ∷ codes "DECK" ∷ codes "SERVICE" ∷ codes "ENDDECK" ∷ codes "SLOT 3" ∷ codes "STORE 64"
        ∷ codes "DECK" ∷ codes "ENDDECK" ∷ codes "SERVICE" ∷ codes "SHOW 0 1"
        ∷ codes "SCHEDULE" ∷ codes "ENDJOB" ∷ []))
        ≡ record {
          slots = record {
            p = 0;
            size = 32;
            deck = codes "SERVICE" ++ 10 ∷ [];
            devices = [];
            shows = [];
            pool = [];
            served = false;
          } ∷ record {
            p = 3;
            size = 64;
            deck = [];
            devices = [];
            shows = (0, 1) ∷ [];
            pool = [];
            served = true;
          } ∷ [];
          events = [];
          pool = [];
        } }
    ensures without { job_fault (text (codes "KDF9 JOB 1" ∷ codes "SLOT 0" ∷ codes "STORE 32"
        ∷ codes "DECK" ∷ codes "ENDDECK" ∷ codes "SERVICE" ∷ codes "SCHEDULE" ∷ codes "ENDJOB"
        ∷ [])) ≡ None }
    ensures after_a_device { job_fault (text (codes "KDF9 JOB 1" ∷ codes "SLOT 0"
        ∷ codes "STORE 32" ∷ codes "DECK" ∷ codes "ENDDECK" ∷ codes "DEVICE 9 LP"
        ∷ codes "SERVICE" ∷ codes "SCHEDULE" ∷ codes "ENDJOB" ∷ []))
        ≡ Some (fault.BadLine, 7) }
{}

/// The fronts of texts. A line `ENDJOB` of a deck ends no job.
pub fn fronts()
    ensures followed { front_length (text (codes "KDF9 JOB 1" ∷ codes "SLOT 2" ∷ codes "STORE 32"
        ∷ codes "DECK" ∷ codes "ENDJOB" ∷ codes "ENDDECK" ∷ codes "SCHEDULE" ∷ codes "ENDJOB"
        ∷ codes "JOURNAL" ∷ [])) ≡ 63 }
    ensures faultless { front_fault (text (codes "KDF9 JOB 1" ∷ codes "SLOT 2" ∷ codes "STORE 32"
        ∷ codes "DECK" ∷ codes "ENDJOB" ∷ codes "ENDDECK" ∷ codes "SCHEDULE" ∷ codes "ENDJOB"
        ∷ codes "JOURNAL" ∷ [])) ≡ None }
    ensures last_line_without_end { front_length (text (codes "KDF9 JOB 1" ∷ codes "SLOT 2"
        ∷ codes "STORE 32" ∷ codes "DECK" ∷ codes "ENDDECK" ∷ codes "SCHEDULE" ∷ [])
        ++ codes "ENDJOB") ≡ 55 }
    ensures no_end { front_fault (text (codes "KDF9 JOB 1" ∷ codes "SLOT 2" ∷ codes "STORE 32"
        ∷ codes "DECK" ∷ codes "ENDJOB" ∷ codes "ENDDECK" ∷ [])) ≡ Some (fault.BadLine, 7) }
    ensures nothing { front_fault [] ≡ Some (fault.Header, 1) }
{}

/// Further lines of a schedule, of which the first has the number 12.
pub fn further_lines()
    ensures told { more_events (text (codes "ORDERS 3" ∷ codes "END 4" ∷ codes "ENDJOB" ∷ []))
        ≡ event.Orders 3 ∷ event.End 4 ∷ [] }
    ensures same_time { more_fault 12 (event.Clock 5 ∷ [])
        (text (codes "CLOCK 5" ∷ codes "ENDJOB" ∷ [])) ≡ None }
    ensures earlier { more_fault 12 (event.Clock 5 ∷ [])
        (text (codes "CLOCK 4" ∷ codes "ENDJOB" ∷ [])) ≡ Some (fault.ClockFalls, 12) }
    ensures more_orders { more_fault 12 (event.Orders 19999999 ∷ [])
        (text (codes "ORDERS 1" ∷ codes "ORDERS 1" ∷ codes "ENDJOB" ∷ []))
        ≡ Some (fault.TooManyOrders, 13) }
    ensures line_behind { more_fault 12 [] (text (codes "ENDJOB" ∷ codes "ENDJOB" ∷ []))
        ≡ Some (fault.BadLine, 13) }
    ensures no_end { more_fault 12 [] (text (codes "END 4" ∷ [])) ≡ Some (fault.BadLine, 13) }
    ensures nothing { more_fault 12 [] [] ≡ Some (fault.BadLine, 12) }
{}

/// Numbers and the letters that come of them.
pub fn made_letters()
    ensures first { step 0 ≡ 13849 }
    ensures next { step 13849 ≡ 48742 }
    ensures letter { letter 0 0 ≡ 67 }
    ensures line { reader_line 0 0 0 ≡ codes "+CIRPCFURSWAPFPNF" }
    ensures next_line { reader_line 0 0 1 ≡ codes "+KQNAMPHPZMBIFXXF" }
{}

/// The lines of slots. Lines of a deck belong to it, whatever they read.
pub fn lines_of_slots()
    ensures first { slot_lines 0 (text (codes "KDF9 JOB 1" ∷ codes "SLOT 0" ∷ codes "STORE 32"
        ∷ codes "DECK" ∷ codes "SLOT 3" ∷ codes "ENDDECK" ∷ codes "SLOT 3" ∷ codes "STORE 64"
        ∷ codes "DECK" ∷ codes "SCHEDULE" ∷ codes "ENDDECK" ∷ codes "SHOW 0 1"
        ∷ codes "SCHEDULE" ∷ codes "ENDJOB" ∷ []))
        ≡ codes "SLOT 0" ∷ codes "STORE 32" ∷ codes "DECK" ∷ codes "SLOT 3" ∷ codes "ENDDECK" ∷ [] }
    ensures second { slot_lines 3 (text (codes "KDF9 JOB 1" ∷ codes "SLOT 0" ∷ codes "STORE 32"
        ∷ codes "DECK" ∷ codes "SLOT 3" ∷ codes "ENDDECK" ∷ codes "SLOT 3" ∷ codes "STORE 64"
        ∷ codes "DECK" ∷ codes "SCHEDULE" ∷ codes "ENDDECK" ∷ codes "SHOW 0 1"
        ∷ codes "SCHEDULE" ∷ codes "ENDJOB" ∷ []))
        ≡ codes "SLOT 3" ∷ codes "STORE 64" ∷ codes "DECK" ∷ codes "SCHEDULE" ∷ codes "ENDDECK"
        ∷ codes "SHOW 0 1" ∷ [] }
    ensures absent { slot_lines 1 (text (codes "KDF9 JOB 1" ∷ codes "SLOT 0" ∷ codes "STORE 32"
        ∷ codes "DECK" ∷ codes "SLOT 1" ∷ codes "ENDDECK" ∷ codes "SCHEDULE" ∷ codes "ENDJOB"
        ∷ [])) ≡ [] }
{}
