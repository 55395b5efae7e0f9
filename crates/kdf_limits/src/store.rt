//! The store.

/// The words of a group, which is locked out as one.
pub const GROUP_WORDS: u16 = 32;

/// The most words of one program, as an address in a jump has them.
pub const PROGRAM_WORDS: u16 = 8_192;

/// The highest address of a program.
pub const LAST_ADDRESS: u16 = PROGRAM_WORDS - 1;

/// The most words of all programs together.
pub const PROGRAMS_WORDS: u32 = 31_744;

/// The words that Director keeps for itself, at the begin of the store.
pub const DIRECTOR_WORDS: u32 = 1_024;

/// The words of the store.
pub const STORE_WORDS: u32 = DIRECTOR_WORDS + PROGRAMS_WORDS;

/// The groups of the store.
pub const STORE_GROUPS: usize = (STORE_WORDS / GROUP_WORDS as u32) as usize;
