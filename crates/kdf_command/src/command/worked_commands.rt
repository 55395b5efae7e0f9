//! Lists of words with the commands that they are, each computed from the definitions, as the contract of a function that
//! does nothing.
#![tactic(auto, unfolding(crate::specs::Commands::command, kdf_text::specs::Numbers::value))]

ghost use Rattle.std.specs.Prelude.{◌≡◌, [], ◌∷◌, Some, None, codes};
ghost use Rattle.kdf_command.specs.Commands.{command, limit_by};
ghost use Rattle.kdf_command.specs.declared.command.Command.TheVariants.{Run, Resume, Check, Alone, Asm, Make, Watch};

/// A name alone.
pub fn commands_of_a_name()
    ensures run { command (codes "run" ∷ []) ≡ Some Run }
    ensures capitals { command (codes "RUN" ∷ []) ≡ None }
    ensures space { command (codes "run " ∷ []) ≡ None }
    ensures twice { command (codes "run" ∷ codes "run" ∷ []) ≡ None }
    ensures value_is_missing { command (codes "alone" ∷ []) ≡ None }
    ensures none { command [] ≡ None }
    ensures empty_word { command ([] ∷ []) ≡ None }
    ensures second_is_empty { command (codes "run" ∷ [] ∷ []) ≡ None }
    ensures flag { command (codes "-h" ∷ []) ≡ None }
{}

/// The most bytes of a text.
pub fn limits()
    ensures job { limit_by (Some Run) ≡ 4194304 }
    ensures none { limit_by None ≡ 4194304 }
    ensures more { limit_by (Some Resume) ≡ 268435456 }
    ensures report { limit_by (Some Check) ≡ 268435456 }
{}

/// A name and a slot.
pub fn commands_of_a_slot()
    ensures alone { command (codes "alone" ∷ codes "3" ∷ []) ≡ Some (Alone 3) }
    ensures asm { command (codes "asm" ∷ codes "0" ∷ []) ≡ Some (Asm 0) }
    ensures fifth { command (codes "asm" ∷ codes "4" ∷ []) ≡ None }
    ensures two_digits { command (codes "alone" ∷ codes "00" ∷ []) ≡ None }
    ensures empty_word { command (codes "alone" ∷ [] ∷ []) ≡ None }
    ensures two_slots { command (codes "alone" ∷ codes "0" ∷ codes "0" ∷ []) ≡ None }
    ensures dashes { command (codes "alone" ∷ codes "--" ∷ codes "0" ∷ []) ≡ None }
{}

/// A name and the number of a made job.
pub fn commands_of_a_number()
    ensures zero { command (codes "make" ∷ codes "0" ∷ []) ≡ Some (Make 0) }
    ensures greatest { command (codes "make" ∷ codes "65535" ∷ []) ≡ Some (Make 65535) }
    ensures above { command (codes "make" ∷ codes "65536" ∷ []) ≡ None }
    ensures leading_zeros { command (codes "make" ∷ codes "007" ∷ []) ≡ None }
    ensures minus { command (codes "make" ∷ codes "-1" ∷ []) ≡ None }
{}

/// A name, a slot and an address.
pub fn commands_of_a_slot_and_an_address()
    ensures zero { command (codes "watch" ∷ codes "0" ∷ codes "0" ∷ []) ≡ Some (Watch 0 0) }
    ensures greatest { command (codes "watch" ∷ codes "3" ∷ codes "8191" ∷ []) ≡ Some (Watch 3 8191) }
    ensures above { command (codes "watch" ∷ codes "0" ∷ codes "8192" ∷ []) ≡ None }
    ensures fifth { command (codes "watch" ∷ codes "4" ∷ codes "0" ∷ []) ≡ None }
    ensures leading_zeros { command (codes "watch" ∷ codes "0" ∷ codes "02" ∷ []) ≡ None }
    ensures slot_is_missing { command (codes "watch" ∷ codes "2" ∷ []) ≡ None }
    ensures three_values { command (codes "watch" ∷ codes "0" ∷ codes "2" ∷ codes "2" ∷ []) ≡ None }
    ensures other_name { command (codes "alone" ∷ codes "0" ∷ codes "2" ∷ []) ≡ None }
{}
