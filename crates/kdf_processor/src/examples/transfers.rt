//! Examples of the orders that begin a transfer, each over a store of 8,192 words. Devices 0 to 5 are claimed: a
//! reader, a punch, cards, a printer and two tapes; devices 6 to 10 aren't: a tape and one of each other kind.
#![tactic(auto, unfolding(crate::specs::Table::transfer_of, crate::specs::Table::guarded))]

ghost use Rattle.std.specs.Prelude.{◌≡◌};
ghost use Rattle.kdf_journal.specs.declared.failure.Failure.TheVariants.{Liv, Claim};
ghost use Rattle.kdf_transfer.specs.declared.order.TransferOrder.TheVariants.{Prq, Preq, Pwq, Pweq, Crq, Lpq, Lpeq};
ghost use Rattle.kdf_transfer.specs.declared.order.TransferOrder.TheVariants.{Mfrq, Mbrq, Mwq, Mlwq, Mrwdq, Mfskq, Mbskq};
ghost use Rattle.kdf_processor.specs.Examples.{parts, transfer, begins, refuses};

/// PRQ: areas to the last word of the store and of 4,096 words, and what is refused. The claim comes before the
/// area.
pub fn prq()
    ensures area { transfer 0x70 (parts 0 40 50) ≡ begins (parts 0 40 50) Prq }
    ensures one_word { transfer 0x70 (parts 0 40 40) ≡ begins (parts 0 40 40) Prq }
    ensures longest { transfer 0x70 (parts 0 0 4095) ≡ begins (parts 0 0 4095) Prq }
    ensures too_long { transfer 0x70 (parts 0 0 4096) ≡ refuses (parts 0 0 4096) Liv }
    ensures to_the_last_word { transfer 0x70 (parts 0 4096 8191) ≡ begins (parts 0 4096 8191) Prq }
    ensures one_past { transfer 0x70 (parts 0 8000 8192) ≡ refuses (parts 0 8000 8192) Liv }
    ensures falling { transfer 0x70 (parts 0 50 49) ≡ refuses (parts 0 50 49) Liv }
    ensures other_kind { transfer 0x70 (parts 1 50 49) ≡ refuses (parts 1 50 49) Claim }
    ensures not_claimed { transfer 0x70 (parts 7 50 49) ≡ refuses (parts 7 50 49) Claim }
{}

/// PREQ: areas to the last word of the store and of 4,096 words, and what is refused. The claim comes before the
/// area.
pub fn preq()
    ensures area { transfer 0x71 (parts 0 40 50) ≡ begins (parts 0 40 50) Preq }
    ensures one_word { transfer 0x71 (parts 0 40 40) ≡ begins (parts 0 40 40) Preq }
    ensures longest { transfer 0x71 (parts 0 0 4095) ≡ begins (parts 0 0 4095) Preq }
    ensures too_long { transfer 0x71 (parts 0 0 4096) ≡ refuses (parts 0 0 4096) Liv }
    ensures to_the_last_word { transfer 0x71 (parts 0 4096 8191) ≡ begins (parts 0 4096 8191) Preq }
    ensures one_past { transfer 0x71 (parts 0 8000 8192) ≡ refuses (parts 0 8000 8192) Liv }
    ensures falling { transfer 0x71 (parts 0 50 49) ≡ refuses (parts 0 50 49) Liv }
    ensures other_kind { transfer 0x71 (parts 4 50 49) ≡ refuses (parts 4 50 49) Claim }
    ensures not_claimed { transfer 0x71 (parts 7 50 49) ≡ refuses (parts 7 50 49) Claim }
{}

/// PWQ: areas to the last word of the store and of 4,096 words, and what is refused. The claim comes before the
/// area.
pub fn pwq()
    ensures area { transfer 0x72 (parts 1 40 50) ≡ begins (parts 1 40 50) Pwq }
    ensures one_word { transfer 0x72 (parts 1 40 40) ≡ begins (parts 1 40 40) Pwq }
    ensures longest { transfer 0x72 (parts 1 0 4095) ≡ begins (parts 1 0 4095) Pwq }
    ensures too_long { transfer 0x72 (parts 1 0 4096) ≡ refuses (parts 1 0 4096) Liv }
    ensures to_the_last_word { transfer 0x72 (parts 1 4096 8191) ≡ begins (parts 1 4096 8191) Pwq }
    ensures one_past { transfer 0x72 (parts 1 8000 8192) ≡ refuses (parts 1 8000 8192) Liv }
    ensures falling { transfer 0x72 (parts 1 50 49) ≡ refuses (parts 1 50 49) Liv }
    ensures other_kind { transfer 0x72 (parts 0 50 49) ≡ refuses (parts 0 50 49) Claim }
    ensures not_claimed { transfer 0x72 (parts 8 50 49) ≡ refuses (parts 8 50 49) Claim }
{}

/// PWEQ: areas to the last word of the store and of 4,096 words, and what is refused. The claim comes before the
/// area.
pub fn pweq()
    ensures area { transfer 0x73 (parts 1 40 50) ≡ begins (parts 1 40 50) Pweq }
    ensures one_word { transfer 0x73 (parts 1 40 40) ≡ begins (parts 1 40 40) Pweq }
    ensures longest { transfer 0x73 (parts 1 0 4095) ≡ begins (parts 1 0 4095) Pweq }
    ensures too_long { transfer 0x73 (parts 1 0 4096) ≡ refuses (parts 1 0 4096) Liv }
    ensures to_the_last_word { transfer 0x73 (parts 1 4096 8191) ≡ begins (parts 1 4096 8191) Pweq }
    ensures one_past { transfer 0x73 (parts 1 8000 8192) ≡ refuses (parts 1 8000 8192) Liv }
    ensures falling { transfer 0x73 (parts 1 50 49) ≡ refuses (parts 1 50 49) Liv }
    ensures other_kind { transfer 0x73 (parts 3 50 49) ≡ refuses (parts 3 50 49) Claim }
    ensures not_claimed { transfer 0x73 (parts 8 50 49) ≡ refuses (parts 8 50 49) Claim }
{}

/// CRQ: areas to the last word of the store and of 4,096 words, and what is refused. The claim comes before the
/// area.
pub fn crq()
    ensures area { transfer 0x74 (parts 2 40 50) ≡ begins (parts 2 40 50) Crq }
    ensures one_word { transfer 0x74 (parts 2 40 40) ≡ begins (parts 2 40 40) Crq }
    ensures longest { transfer 0x74 (parts 2 0 4095) ≡ begins (parts 2 0 4095) Crq }
    ensures too_long { transfer 0x74 (parts 2 0 4096) ≡ refuses (parts 2 0 4096) Liv }
    ensures to_the_last_word { transfer 0x74 (parts 2 4096 8191) ≡ begins (parts 2 4096 8191) Crq }
    ensures one_past { transfer 0x74 (parts 2 8000 8192) ≡ refuses (parts 2 8000 8192) Liv }
    ensures falling { transfer 0x74 (parts 2 50 49) ≡ refuses (parts 2 50 49) Liv }
    ensures other_kind { transfer 0x74 (parts 0 50 49) ≡ refuses (parts 0 50 49) Claim }
    ensures not_claimed { transfer 0x74 (parts 9 50 49) ≡ refuses (parts 9 50 49) Claim }
{}

/// LPQ: areas to the last word of the store and of 4,096 words, and what is refused. The claim comes before the
/// area.
pub fn lpq()
    ensures area { transfer 0x75 (parts 3 40 50) ≡ begins (parts 3 40 50) Lpq }
    ensures one_word { transfer 0x75 (parts 3 40 40) ≡ begins (parts 3 40 40) Lpq }
    ensures longest { transfer 0x75 (parts 3 0 4095) ≡ begins (parts 3 0 4095) Lpq }
    ensures too_long { transfer 0x75 (parts 3 0 4096) ≡ refuses (parts 3 0 4096) Liv }
    ensures to_the_last_word { transfer 0x75 (parts 3 4096 8191) ≡ begins (parts 3 4096 8191) Lpq }
    ensures one_past { transfer 0x75 (parts 3 8000 8192) ≡ refuses (parts 3 8000 8192) Liv }
    ensures falling { transfer 0x75 (parts 3 50 49) ≡ refuses (parts 3 50 49) Liv }
    ensures other_kind { transfer 0x75 (parts 1 50 49) ≡ refuses (parts 1 50 49) Claim }
    ensures not_claimed { transfer 0x75 (parts 10 50 49) ≡ refuses (parts 10 50 49) Claim }
{}

/// LPEQ: areas to the last word of the store and of 4,096 words, and what is refused. The claim comes before the
/// area.
pub fn lpeq()
    ensures area { transfer 0x76 (parts 3 40 50) ≡ begins (parts 3 40 50) Lpeq }
    ensures one_word { transfer 0x76 (parts 3 40 40) ≡ begins (parts 3 40 40) Lpeq }
    ensures longest { transfer 0x76 (parts 3 0 4095) ≡ begins (parts 3 0 4095) Lpeq }
    ensures too_long { transfer 0x76 (parts 3 0 4096) ≡ refuses (parts 3 0 4096) Liv }
    ensures to_the_last_word { transfer 0x76 (parts 3 4096 8191) ≡ begins (parts 3 4096 8191) Lpeq }
    ensures one_past { transfer 0x76 (parts 3 8000 8192) ≡ refuses (parts 3 8000 8192) Liv }
    ensures falling { transfer 0x76 (parts 3 50 49) ≡ refuses (parts 3 50 49) Liv }
    ensures other_kind { transfer 0x76 (parts 2 50 49) ≡ refuses (parts 2 50 49) Claim }
    ensures not_claimed { transfer 0x76 (parts 10 50 49) ≡ refuses (parts 10 50 49) Claim }
{}

/// MFRQ: areas to the last word of the store and of 4,096 words, and what is refused. The claim comes before the
/// area.
pub fn mfrq()
    ensures area { transfer 0x77 (parts 4 40 50) ≡ begins (parts 4 40 50) Mfrq }
    ensures one_word { transfer 0x77 (parts 4 40 40) ≡ begins (parts 4 40 40) Mfrq }
    ensures longest { transfer 0x77 (parts 4 0 4095) ≡ begins (parts 4 0 4095) Mfrq }
    ensures too_long { transfer 0x77 (parts 4 0 4096) ≡ refuses (parts 4 0 4096) Liv }
    ensures to_the_last_word { transfer 0x77 (parts 4 4096 8191) ≡ begins (parts 4 4096 8191) Mfrq }
    ensures one_past { transfer 0x77 (parts 4 8000 8192) ≡ refuses (parts 4 8000 8192) Liv }
    ensures falling { transfer 0x77 (parts 4 50 49) ≡ refuses (parts 4 50 49) Liv }
    ensures other_kind { transfer 0x77 (parts 0 50 49) ≡ refuses (parts 0 50 49) Claim }
    ensures not_claimed { transfer 0x77 (parts 6 50 49) ≡ refuses (parts 6 50 49) Claim }
{}

/// MBRQ: areas to the last word of the store and of 4,096 words, and what is refused. The claim comes before the
/// area.
pub fn mbrq()
    ensures area { transfer 0x78 (parts 5 40 50) ≡ begins (parts 5 40 50) Mbrq }
    ensures one_word { transfer 0x78 (parts 5 40 40) ≡ begins (parts 5 40 40) Mbrq }
    ensures longest { transfer 0x78 (parts 5 0 4095) ≡ begins (parts 5 0 4095) Mbrq }
    ensures too_long { transfer 0x78 (parts 5 0 4096) ≡ refuses (parts 5 0 4096) Liv }
    ensures to_the_last_word { transfer 0x78 (parts 5 4096 8191) ≡ begins (parts 5 4096 8191) Mbrq }
    ensures one_past { transfer 0x78 (parts 5 8000 8192) ≡ refuses (parts 5 8000 8192) Liv }
    ensures falling { transfer 0x78 (parts 5 50 49) ≡ refuses (parts 5 50 49) Liv }
    ensures other_kind { transfer 0x78 (parts 1 50 49) ≡ refuses (parts 1 50 49) Claim }
    ensures not_claimed { transfer 0x78 (parts 6 50 49) ≡ refuses (parts 6 50 49) Claim }
{}

/// MWQ: areas to the last word of the store and of 4,096 words, and what is refused. The claim comes before the
/// area.
pub fn mwq()
    ensures area { transfer 0x79 (parts 4 40 50) ≡ begins (parts 4 40 50) Mwq }
    ensures one_word { transfer 0x79 (parts 4 40 40) ≡ begins (parts 4 40 40) Mwq }
    ensures longest { transfer 0x79 (parts 4 0 4095) ≡ begins (parts 4 0 4095) Mwq }
    ensures too_long { transfer 0x79 (parts 4 0 4096) ≡ refuses (parts 4 0 4096) Liv }
    ensures to_the_last_word { transfer 0x79 (parts 4 4096 8191) ≡ begins (parts 4 4096 8191) Mwq }
    ensures one_past { transfer 0x79 (parts 4 8000 8192) ≡ refuses (parts 4 8000 8192) Liv }
    ensures falling { transfer 0x79 (parts 4 50 49) ≡ refuses (parts 4 50 49) Liv }
    ensures other_kind { transfer 0x79 (parts 2 50 49) ≡ refuses (parts 2 50 49) Claim }
    ensures not_claimed { transfer 0x79 (parts 6 50 49) ≡ refuses (parts 6 50 49) Claim }
{}

/// MLWQ: areas to the last word of the store and of 4,096 words, and what is refused. The claim comes before the
/// area.
pub fn mlwq()
    ensures area { transfer 0x7A (parts 5 40 50) ≡ begins (parts 5 40 50) Mlwq }
    ensures one_word { transfer 0x7A (parts 5 40 40) ≡ begins (parts 5 40 40) Mlwq }
    ensures longest { transfer 0x7A (parts 5 0 4095) ≡ begins (parts 5 0 4095) Mlwq }
    ensures too_long { transfer 0x7A (parts 5 0 4096) ≡ refuses (parts 5 0 4096) Liv }
    ensures to_the_last_word { transfer 0x7A (parts 5 4096 8191) ≡ begins (parts 5 4096 8191) Mlwq }
    ensures one_past { transfer 0x7A (parts 5 8000 8192) ≡ refuses (parts 5 8000 8192) Liv }
    ensures falling { transfer 0x7A (parts 5 50 49) ≡ refuses (parts 5 50 49) Liv }
    ensures other_kind { transfer 0x7A (parts 3 50 49) ≡ refuses (parts 3 50 49) Claim }
    ensures not_claimed { transfer 0x7A (parts 6 50 49) ≡ refuses (parts 6 50 49) Claim }
{}

/// MRWDQ has no area: I and M may be any.
pub fn mrwdq()
    ensures any { transfer 0x7B (parts 4 50 49) ≡ begins (parts 4 50 49) Mrwdq }
    ensures none { transfer 0x7B (parts 4 0 0) ≡ begins (parts 4 0 0) Mrwdq }
    ensures most { transfer 0x7B (parts 4 65535 65535) ≡ begins (parts 4 65535 65535) Mrwdq }
    ensures other_kind { transfer 0x7B (parts 0 0 0) ≡ refuses (parts 0 0 0) Claim }
    ensures not_claimed { transfer 0x7B (parts 6 0 0) ≡ refuses (parts 6 0 0) Claim }
{}

/// MFSKQ has no area: I and M may be any, and M is how many blocks it passes.
pub fn mfskq()
    ensures any { transfer 0x7C (parts 5 50 49) ≡ begins (parts 5 50 49) (Mfskq 49) }
    ensures none { transfer 0x7C (parts 5 0 0) ≡ begins (parts 5 0 0) (Mfskq 0) }
    ensures most { transfer 0x7C (parts 5 65535 65535)
        ≡ begins (parts 5 65535 65535) (Mfskq 65535) }
    ensures other_kind { transfer 0x7C (parts 1 0 0) ≡ refuses (parts 1 0 0) Claim }
    ensures not_claimed { transfer 0x7C (parts 6 0 0) ≡ refuses (parts 6 0 0) Claim }
{}

/// MBSKQ has no area: I and M may be any, and M is how many blocks it passes.
pub fn mbskq()
    ensures any { transfer 0x7D (parts 4 50 49) ≡ begins (parts 4 50 49) (Mbskq 49) }
    ensures none { transfer 0x7D (parts 4 0 0) ≡ begins (parts 4 0 0) (Mbskq 0) }
    ensures most { transfer 0x7D (parts 4 65535 65535)
        ≡ begins (parts 4 65535 65535) (Mbskq 65535) }
    ensures other_kind { transfer 0x7D (parts 3 0 0) ≡ refuses (parts 3 0 0) Claim }
    ensures not_claimed { transfer 0x7D (parts 6 0 0) ≡ refuses (parts 6 0 0) Claim }
{}

/// A number that no device of the program has.
pub fn numbers()
    ensures absent { transfer 0x70 (parts 11 40 50) ≡ refuses (parts 11 40 50) Claim }
    ensures last { transfer 0x70 (parts 15 40 50) ≡ refuses (parts 15 40 50) Claim }
    ensures past { transfer 0x70 (parts 16 40 50) ≡ refuses (parts 16 40 50) Claim }
    ensures modulo_256 { transfer 0x70 (parts 256 40 50) ≡ refuses (parts 256 40 50) Claim }
    ensures greatest { transfer 0x7B (parts 65535 0 0) ≡ refuses (parts 65535 0 0) Claim }
{}
