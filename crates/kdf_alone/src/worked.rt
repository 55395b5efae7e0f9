//! What the definitions come to for three programs with devices, from the text of their decks on.
ghost use Rattle.std.specs.Prelude.{◌≡◌, ◌++◌, [], ◌∷◌, false, true, replicate};
ghost use Rattle.kdf_processor.specs.declared.registers.Life.TheVariants.{Ended};
ghost use Rattle.kdf_alone.specs.Worked.{reads, prints, writes, seen};

/// The program reads sixteen characters of paper tape into two words, fetches the first of them,
/// and ends at its eleventh order.
pub fn reads_paper_tape()
    ensures { seen 3 32 33 (reads 11) ≡ record {
      life = Ended;
      ran = 11;
      at = 33;
      tr = false;
      nest = 0o4142434445464750 ∷ [];
      words = 0o4142434445464750 ∷ 0o5152535455565760 ∷ [];
      claimed = true;
      device = record { place = 16; flag = false; mark = false; blocks = []; recorded = [] };
    } }
{}

/// Of an area of 31 words with a text in its second word it prints what stands up to the End
/// Message, and ends at its twelfth order.
pub fn prints_up_to_end_message()
    ensures { seen 5 32 33 (prints 12) ≡ record {
      life = Ended;
      ran = 12;
      at = 42;
      tr = false;
      nest = [];
      words = 0 ∷ 0o0241754200000000 ∷ [];
      claimed = true;
      device = record {
        place = 1;
        flag = false;
        mark = false;
        blocks = (replicate 8 0 ++ 2 ∷ 33 ∷ 61 ∷ []) ∷ [];
        recorded = [];
      };
    } }
{}

/// It reads the first two words of the first block of a tape of three, writes them with a mark in
/// place of the second block, after which the tape then ends, and finds the mark.
pub fn writes_tape_with_the_mark()
    ensures { seen 6 32 33 (writes 12) ≡ record {
      life = Ended;
      ran = 12;
      at = 40;
      tr = true;
      nest = [];
      words = 0o4141414141414141 ∷ 0o4242424242424242 ∷ [];
      claimed = true;
      device = record {
        place = 2;
        flag = false;
        mark = true;
        blocks = [];
        recorded = record {
          words = 0o4141414141414141 ∷ 0o4242424242424242 ∷ 0o4343434343434343 ∷ [];
          mark = false;
        }
            ∷ record { words = 0o4141414141414141 ∷ 0o4242424242424242 ∷ []; mark = true } ∷ [];
      };
    } }
{}
