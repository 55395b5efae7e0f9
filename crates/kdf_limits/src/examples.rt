//! The limits as the documents tell them.
ghost use Rattle.std.specs.Prelude.{◌≡◌, ◌*◌};
ghost use Rattle.kdf_limits.specs.declared.job.TheConstants.{EVENTS, TAPE_BLOCK};
ghost use Rattle.kdf_limits.specs.declared.store.TheConstants.{DIRECTOR_WORDS, GROUP_WORDS, LAST_ADDRESS, PROGRAM_WORDS, PROGRAMS_WORDS, STORE_GROUPS, STORE_WORDS};

/// The store has whole groups, of which Director has the first 32.
pub fn store()
    ensures group { GROUP_WORDS ≡ 32 }
    ensures program { PROGRAM_WORDS ≡ 8192 }
    ensures last { LAST_ADDRESS ≡ 8191 }
    ensures programs { PROGRAMS_WORDS ≡ 31744 }
    ensures director { DIRECTOR_WORDS ≡ 1024 }
    ensures words { STORE_WORDS ≡ 32768 }
    ensures groups { GROUP_WORDS * STORE_GROUPS ≡ STORE_WORDS }
{}

/// What a job may have.
pub fn job()
    ensures block { TAPE_BLOCK ≡ 32768 }
    ensures events { EVENTS ≡ 500000 }
{}
