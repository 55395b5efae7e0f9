//! Lines computed from the definitions alone, each as the contract of a function that does nothing.
#![tactic(auto, unfolding(kdf_code::specs::Code::host_of))]

ghost use Rattle.std.specs.Prelude.{◌≡◌, [], ◌∷◌, ◌++◌, true, false, map, replicate, codes, None};
ghost use Rattle.kdf_journal.specs.declared.entry.Entry.TheVariants.{Ran, Start, Answer, Fail, Ended, Take, Give, Lov, Busy, Wait, Idle, Move, End, Clock, Swap};
ghost use Rattle.kdf_journal.specs.declared.failure.Failure.TheVariants.{Claim, Nouv};
ghost use Rattle.kdf_journal.specs.declared.kind.Kind.TheVariants.{Cr, Lp, Mt, Tp, Tr};
ghost use Rattle.kdf_processor.specs.declared.registers.Life.TheVariants as life;
ghost use Rattle.kdf_processor.specs.declared.registers.Life.TheVariants.{Failed};
ghost use Rattle.kdf_processor.specs.State.{new_registers};
ghost use Rattle.kdf_qstore.specs.Triples.{with_triple, zero_triples};
ghost use Rattle.kdf_report.specs.Devices.{block_lines, device_line, device_lines, device_numbers, own_lines, stint_lines};
ghost use Rattle.kdf_report.specs.Examples.{a_program, a_slot, come, on_tape, two_blocks, wrote};
ghost use Rattle.kdf_report.specs.Summary.{entries_line, job_line, make_line, punched, slot_line};
ghost use Rattle.kdf_report.specs.Text.{entry_line, registers_lines, section, show_lines, spool_line};

/// What a line says of a device: its number and kind, HELD or FREE, its place and its flag.
pub fn devices()
    ensures reader { device_line (codes "DEVICE") 3 true Tr (come 16 false)
        ≡ codes "DEVICE 3 TR HELD PLACE 16 FLAG 0" }
    ensures cards { device_line (codes "DEVICE") 0 false Cr (come 2 true)
        ≡ codes "DEVICE 0 CR FREE PLACE 2 FLAG 1" }
    ensures punch { device_line (codes "DEVICE") 15 true Tp (wrote 200 [])
        ≡ codes "DEVICE 15 TP HELD PLACE 200 FLAG 0" }
    ensures printer { device_line (codes "DEVICE") 9 false Lp (wrote 0 [])
        ≡ codes "DEVICE 9 LP FREE PLACE 0 FLAG 0" }
    ensures tape { device_line (codes "DEVICE") 10 true Mt on_tape ≡ codes "DEVICE 10 MT HELD PLACE 1 FLAG 0" }
{}

/// The blocks of a punch, of a printer and of a tape, whose block with the mark is its LAST; a reader has none.
pub fn blocks()
    ensures reader { block_lines Tr (come 16 false) ≡ [] }
    ensures cards { block_lines Cr (come 2 true) ≡ [] }
    ensures punch { block_lines Tp (wrote 2 ((33 ∷ 34 ∷ 61 ∷ []) ∷ [] ∷ []))
        ≡ codes "BLOCK AB|" ∷ codes "BLOCK " ∷ [] }
    ensures printer { block_lines Lp (wrote 1 ((replicate 8 0 ++ 2 ∷ 33 ∷ 61 ∷ []) ∷ []))
        ≡ codes "BLOCK         ~A|" ∷ [] }
    ensures tape { block_lines Mt on_tape
        ≡ codes "BLOCK ABCDEFGH" ∷ codes "LAST 01     ~|      >" ∷ [] }
    ensures none { own_lines 4 true None on_tape ≡ [] }
{}

/// What is said of a stint: HELD until its device is given back, then FREE, and its blocks in any case.
pub fn stints()
    ensures held { stint_lines (record {
      device = 9;
      kind = Tp;
      progress = wrote 1 (replicate 8 0 ∷ []);
      given = false;
    })
        ≡ codes "POOL 9 TP HELD PLACE 1 FLAG 0" ∷ codes "BLOCK         " ∷ [] }
    ensures back { stint_lines (record {
      device = 15;
      kind = Lp;
      progress = wrote 2 ((33 ∷ []) ∷ [] ∷ []);
      given = true;
    })
        ≡ codes "POOL 15 LP FREE PLACE 2 FLAG 0" ∷ codes "BLOCK A" ∷ codes "BLOCK " ∷ [] }
    ensures none { stint_lines (record { device = 0; kind = Tp; progress = wrote 0 []; given = true })
        ≡ codes "POOL 0 TP FREE PLACE 0 FLAG 0" ∷ [] }
{}

/// What is spooled, after its stream.
pub fn spool()
    ensures text { spool_line (record { stream = 7; text = 33 ∷ 34 ∷ 61 ∷ [] })
        ≡ codes "SPOOL 7 AB|" }
    ensures empty { spool_line (record { stream = 0; text = [] }) ≡ codes "SPOOL 0 " }
{}

/// An entry of each kind.
pub fn entries()
    ensures orders { map entry_line (Ran 0 49 ∷ Answer 1 0 ∷ Fail 2 Claim ∷ Ended 3 ∷ [])
        ≡ codes "RAN 0 49" ∷ codes "ANSWER 1 0" ∷ codes "FAIL 2 CLAIM" ∷ codes "ENDED 3" ∷ [] }
    ensures holds { map entry_line (Start 0 15 10 ∷ Lov 0 2 ∷ Busy 1 6 ∷ Idle 20 ∷ [])
        ≡ codes "START 0 15 10" ∷ codes "LOV 0 2" ∷ codes "BUSY 1 6" ∷ codes "IDLE 20" ∷ [] }
    ensures events { map entry_line (Move 3 4096 ∷ End 3 ∷ Clock 50 ∷ Swap 0 3 ∷ [])
        ≡ codes "MOVE 3 4096" ∷ codes "END 3" ∷ codes "CLOCK 50" ∷ codes "SWAP 0 3" ∷ [] }
    ensures pool { map entry_line (Take 0 9 ∷ Give 0 9 ∷ Wait 1 Tp ∷ [])
        ≡ codes "TAKE 0 9" ∷ codes "GIVE 0 9" ∷ codes "WAIT 1 TP" ∷ [] }
{}

/// The lines of a summary: its first ones, and that of a slot; only what was punched counts as blocks.
pub fn summaries()
    ensures front { make_line 0 ∷ job_line 39175 ∷ entries_line (Ran 0 49 ∷ Ended 0 ∷ []) ∷ []
        ≡ codes "KDF9 MAKE 0" ∷ codes "JOB 39175" ∷ codes "ENTRIES 2" ∷ [] }
    ensures ended { slot_line 3 (record new_registers { ran = 2218; state = life.Ended }) 200 0o34231504240514
        ≡ codes "SLOT 3 ENDED ORDERS 2218 BLOCKS 200 WORD 0034231504240514" }
    ensures failed { slot_line 0 (record new_registers { ran = 18; state = Failed Nouv }) 0 0
        ≡ codes "SLOT 0 FAILED NOUV ORDERS 18 BLOCKS 0 WORD 0000000000000000" }
    ensures blocks { punched Tp (wrote 2 ((33 ∷ []) ∷ [] ∷ [])) ≡ 2 }
    ensures lines { punched Lp (wrote 1 ((33 ∷ []) ∷ [])) ≡ 0 }
{}

/// What is said of registers: the place of the next order, V and TR, the nest and the links, the top first, and the Q-stores.
pub fn registers()
    ensures new { registers_lines new_registers ≡ codes "STATE LIVE" ∷ codes "ORDERS 0"
        ∷ codes "AT 0 0" ∷ codes "FLAGS 0 0" ∷ codes "NEST 0" ∷ codes "LINKS 0" ∷ [] }
    ensures failed { registers_lines (record new_registers {
      state = Failed Nouv;
      ran = 12;
      at = 33;
      flags = record { v = true; tr = false };
      nest = 10 ∷ 0o7000000000000000 ∷ [];
      links = 32771 ∷ 8191 ∷ [];
      q = with_triple
          (with_triple zero_triples 15 (record { c = 0; i = 0; m = 1 }))
          1 (record { c = 65535; i = 32; m = 33 });
    }) ≡ codes "STATE FAILED NOUV" ∷ codes "ORDERS 12" ∷ codes "AT 5 3" ∷ codes "FLAGS 1 0"
        ∷ codes "NEST 2 0000000000000012 7000000000000000"
        ∷ codes "LINKS 2 3/4 8191/0"
        ∷ codes "Q 1 65535 32 33" ∷ codes "Q 15 0 0 1" ∷ [] }
{}

/// The section of a slot whose devices stand in another order than that of their numbers, and which took two from the pool.
pub fn whole_section()
    ensures numbers { device_numbers a_slot ≡ 0 ∷ 1 ∷ 2 ∷ [] }
    ensures words { show_lines a_program (2, 3)
        ≡ codes "WORD 2 0000000000000014" ∷ codes "WORD 3 0000000000000015" ∷ [] }
    ensures lines { section a_slot a_program ≡ codes "SLOT 2"
        ∷ codes "STATE LIVE" ∷ codes "ORDERS 7" ∷ codes "AT 1 5" ∷ codes "FLAGS 0 0"
        ∷ codes "NEST 2 0000000000000001 7777777777777777" ∷ codes "LINKS 0"
        ∷ codes "WORD 2 0000000000000014" ∷ codes "WORD 3 0000000000000015"
        ∷ codes "WORD 0 0000000000000012"
        ∷ codes "SPOOL 7 AB|" ∷ codes "SPOOL 0 "
        ∷ codes "DEVICE 0 MT HELD PLACE 1 FLAG 0"
        ∷ codes "BLOCK ABCDEFGH" ∷ codes "LAST 01     ~|      >"
        ∷ codes "DEVICE 1 CR FREE PLACE 5 FLAG 1"
        ∷ codes "DEVICE 2 TP HELD PLACE 1 FLAG 0"
        ∷ codes "BLOCK C"
        ∷ codes "POOL 3 TP FREE PLACE 1 FLAG 0"
        ∷ codes "BLOCK D"
        ∷ codes "POOL 4 LP HELD PLACE 1 FLAG 0"
        ∷ codes "BLOCK E" ∷ [] }
{}
