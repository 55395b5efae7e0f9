//! Decks that are worked out by computation, each as the contract of a function that does nothing.
#![tactic(auto, unfolding(crate::specs::Constants::address_item, crate::specs::Constants::number_item, crate::specs::Constants::item_form, crate::specs::Constants::triple_form, crate::specs::Constants::octal_value, crate::specs::Constants::characters_value, crate::specs::Constants::value_form, crate::specs::Constants::constant_form, crate::specs::Forms::form_in, crate::specs::Grammar::statement_faults, crate::specs::Grammar::phase_after, crate::specs::Grammar::statements_of, crate::specs::Jumps::condition_of, crate::specs::Jumps::target_form, crate::specs::Jumps::subroutine_form, crate::specs::Jumps::test_form, crate::specs::Jumps::jump_form, crate::specs::Orders::octal_order, crate::specs::Orders::order_form, crate::specs::Orders::formless, crate::specs::Phase::start, crate::specs::Stores::lettered, crate::specs::Stores::store_name, crate::specs::Stores::addressed, crate::specs::Stores::suffix_of, crate::specs::Stores::access_form, crate::specs::Stores::address_form))]

ghost use Rattle.std.specs.Prelude.{◌≡◌, codes};
ghost use Rattle.kdf_usercode.specs.declared.fault.DeckFault.TheVariants.{UnknownOrder, Floating, BadNumber, QRange, ConstantRange, BadHeading, NoSemicolon, NoFinish, AfterFinish};
ghost use Rattle.kdf_usercode.specs.Examples.{counting, counting_statements};
ghost use Rattle.kdf_usercode.specs.Faults.{found};
ghost use Rattle.kdf_usercode.specs.Grammar.{deck};

/// A deck with its statements. Comments and spaces are gone, and `*` is a statement by itself.
pub fn statements()
    ensures { deck counting ≡ Ok counting_statements }
{}

/// Statements that have no form, also one in which a comment isn't closed.
pub fn forms()
    ensures no_name { deck (codes "PROGRAM; ZERP; FINISH;") ≡ Err (found UnknownOrder 9) }
    ensures open { deck (codes "PROGRAM; ZERO(x; FINISH;") ≡ Err (found UnknownOrder 9) }
    ensures floating { deck (codes "PROGRAM; ZERO; DIVDF; FINISH;") ≡ Err (found Floating 15) }
{}

/// Numbers outside their ranges. None is too long to be read.
pub fn numbers()
    ensures long { deck (codes "PROGRAM; SET 18446744073709551617; FINISH;")
        ≡ Err (found BadNumber 9) }
    ensures shift { deck (codes "PROGRAM; SHL-65; FINISH;") ≡ Err (found BadNumber 9) }
    ensures q_store { deck (codes "PROGRAM; M1M16; FINISH;") ≡ Err (found QRange 9) }
    ensures constant { deck (codes "PROGRAM V0; V0=-140737488355329; FINISH;")
        ≡ Err (found ConstantRange 12) }
{}

/// Statements that aren't in their place, and the end of a deck.
pub fn sequence()
    ensures order { deck (codes "ZERO; PROGRAM; FINISH;") ≡ Err (found BadHeading 0) }
    ensures late { deck (codes "PROGRAM V0; ZERO; V0=1; FINISH;") ≡ Err (found BadHeading 18) }
    ensures tail { deck (codes "PROGRAM; ZERO") ≡ Err (found NoSemicolon 9) }
    ensures no_end { deck (codes "PROGRAM; ZERO;") ≡ Err (found NoFinish 14) }
    ensures text { deck (codes "PROGRAM; FINISH; ZERO;") ≡ Err (found AfterFinish 17) }
{}
