//! Examples computed from the definitions, each as the contract of a function that does nothing.
#![tactic(auto, unfolding(crate::specs::Tape::after_skip, crate::specs::Tape::after_write, crate::specs::Tape::rewound))]

ghost use Rattle.std.specs.Prelude.{◌≡◌, [], ◌∷◌, ◌++◌, true, false, Some, None};
ghost use Rattle.kdf_tape.specs.Examples.{block, blocks, empty, holding, tape};
ghost use Rattle.kdf_tape.specs.Tape.{after_skip, after_write, nearest, rewound};

/// MFRQ and MBRQ: the block after the place and the one before it, their marks, and the ends of the tape.
pub fn reads()
    ensures forward { nearest true (tape 0 false false) ≡ Some (block (1 ∷ 2 ∷ []) false) }
    ensures passed { after_skip true 1 (tape 0 false false) ≡ tape 1 false false }
    ensures marked { after_skip true 1 (tape 1 false false) ≡ tape 2 false true }
    ensures mark_goes { after_skip true 1 (tape 2 false true) ≡ tape 3 false false }
    ensures none_behind { nearest true (tape 3 false false) ≡ None }
    ensures at_end { after_skip true 1 (tape 3 false true) ≡ tape 3 true false }
    ensures backward { nearest false (tape 3 false false) ≡ Some (block (4 ∷ 5 ∷ 6 ∷ []) false) }
    ensures marked_back { after_skip false 1 (tape 2 true false) ≡ tape 1 false true }
    ensures none_before { nearest false (tape 0 false false) ≡ None }
    ensures at_begin { after_skip false 1 (tape 0 false true) ≡ tape 0 true false }
    ensures flag_goes { after_skip true 1 (tape 0 true false) ≡ tape 1 false false }
    ensures flag_goes_back { after_skip false 1 (tape 3 true false) ≡ tape 2 false false }
    ensures mark_goes_back { after_skip false 1 (tape 1 false true) ≡ tape 0 false false }
    ensures second { nearest true (after_skip true 1 (tape 0 false false))
        ≡ Some (block (3 ∷ []) true) }
    ensures second_back { nearest false (after_skip false 1 (tape 3 false false))
        ≡ Some (block (3 ∷ []) true) }
    ensures forth_and_back { nearest false (after_skip true 1 (tape 0 false false))
        ≡ Some (block (1 ∷ 2 ∷ []) false) }
    ensures nothing { after_skip true 1 (empty false true) ≡ empty true false }
    ensures nothing_back { after_skip false 1 (empty false true) ≡ empty true false }
    ensures no_block { nearest true (empty false false) ≡ None }
    ensures no_block_back { nearest false (empty false false) ≡ None }
{}

/// MFSKQ and MBSKQ: the mark is that of the block passed last, and the flag tells that there were fewer blocks.
pub fn skips()
    ensures two { after_skip true 2 (tape 0 false false) ≡ tape 2 false true }
    ensures three { after_skip true 3 (tape 0 false true) ≡ tape 3 false false }
    ensures fewer { after_skip true 4 (tape 0 false false) ≡ tape 3 true false }
    ensures fewer_marked { after_skip true 9 (holding (block [] true ∷ []) 0 false false 0)
        ≡ holding (block [] true ∷ []) 1 true true 0 }
    ensures at_end { after_skip true 2 (tape 3 false true) ≡ tape 3 true false }
    ensures second { after_skip true 1 (after_skip true 1 (tape 0 false false))
        ≡ tape 2 false true }
    ensures flag_goes { after_skip true 2 (tape 0 true false) ≡ tape 2 false true }
    ensures none { after_skip true 0 (tape 2 true true) ≡ tape 2 false false }
    ensures none_back { after_skip false 0 (tape 2 true true) ≡ tape 2 false false }
    ensures back { after_skip false 2 (tape 3 false false) ≡ tape 1 false true }
    ensures back_all { after_skip false 3 (tape 3 false true) ≡ tape 0 false false }
    ensures back_fewer { after_skip false 4 (tape 2 false true) ≡ tape 0 true false }
    ensures back_fewer_marked { after_skip false 9 (holding (block [] true ∷ []) 1 false false 0)
        ≡ holding (block [] true ∷ []) 0 true true 0 }
    ensures at_begin { after_skip false 2 (tape 0 false true) ≡ tape 0 true false }
    ensures second_back { after_skip false 1 (after_skip false 1 (tape 3 false false))
        ≡ tape 1 false true }
    ensures flag_goes_back { after_skip false 2 (tape 3 true false) ≡ tape 1 false true }
    ensures nothing { after_skip true 3 (empty false true) ≡ empty true false }
    ensures nothing_back { after_skip false 3 (empty false true) ≡ empty true false }
{}

/// MWQ and MLWQ: the later blocks go.
pub fn writes()
    ensures first { after_write (block (9 ∷ []) false) (empty true true)
        ≡ holding (block (9 ∷ []) false ∷ []) 1 false false 0 }
    ensures midst { after_write (block (9 ∷ []) false) (tape 1 true true)
        ≡ holding (block (1 ∷ 2 ∷ []) false ∷ block (9 ∷ []) false ∷ []) 2 false false 2 }
    ensures at_end { after_write (block (9 ∷ []) false) (tape 3 false false)
        ≡ holding (blocks ++ block (9 ∷ []) false ∷ []) 4 false false 0 }
    ensures first_marked { after_write (block (9 ∷ []) true) (empty true false)
        ≡ holding (block (9 ∷ []) true ∷ []) 1 false true 0 }
    ensures midst_marked { after_write (block (9 ∷ []) true) (tape 1 true false)
        ≡ holding (block (1 ∷ 2 ∷ []) false ∷ block (9 ∷ []) true ∷ []) 2 false true 2 }
    ensures marked { after_write (block [] true) (tape 3 false false)
        ≡ holding (blocks ++ block [] true ∷ []) 4 false true 0 }
    ensures second { after_write (block [] false) (after_write (block [] true) (tape 0 false false))
        ≡ holding (block [] true ∷ block [] false ∷ []) 2 false false 2 }
    ensures second_marked { after_write (block (9 ∷ []) true)
        (after_write (block (8 ∷ []) true) (tape 0 false false))
        ≡ holding (block (8 ∷ []) true ∷ block (9 ∷ []) true ∷ []) 2 false true 2 }
    ensures flag_goes { after_write (block (9 ∷ []) false) (empty true false)
        ≡ holding (block (9 ∷ []) false ∷ []) 1 false false 0 }
    ensures mark_goes { after_write (block (9 ∷ []) false) (empty false true)
        ≡ holding (block (9 ∷ []) false ∷ []) 1 false false 0 }
{}

/// MRWDQ: the begin of the tape, flag and mark 0.
pub fn rewinds()
    ensures midst { rewound (tape 2 false false) ≡ tape 0 false false }
    ensures at_end { rewound (tape 3 true true) ≡ tape 0 false false }
    ensures at_begin { rewound (tape 0 false false) ≡ tape 0 false false }
    ensures empty { rewound (empty true true) ≡ empty false false }
    ensures second { rewound (rewound (tape 2 true true)) ≡ tape 0 false false }
    ensures first_block { nearest true (rewound (tape 3 false false))
        ≡ Some (block (1 ∷ 2 ∷ []) false) }
    ensures flag_goes { rewound (tape 2 true false) ≡ tape 0 false false }
    ensures mark_goes { rewound (tape 2 false true) ≡ tape 0 false false }
{}
