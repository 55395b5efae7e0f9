//! The tables and ranges of the code are those of the definitions. Each law is the contract of a function
//! that does nothing.

ghost use Rattle.std.specs.Prelude.{◌≡◌, map};
ghost use Rattle.kdf_usercode.specs.declared.constants.TheConstants.{VALUES, WORD_UP, WORD_DOWN, OCTAL_WORD, CHARACTERS, BITS_UP, BITS_DOWN};
ghost use Rattle.kdf_usercode.specs.declared.forms.TheConstants.{STATEMENTS};
ghost use Rattle.kdf_usercode.specs.declared.jumps.TheConstants.{CONDITIONS};
ghost use Rattle.kdf_usercode.specs.declared.order_names.TheConstants.{ORDERS, REFUSED};
ghost use Rattle.kdf_usercode.specs.declared.orders.TheConstants.{LEFT, RIGHT, EXIT, UP, DOWN, OCTAL_SET};
ghost use Rattle.kdf_usercode.specs.declared.range.TheConstants.{Q, REFERENCE, PART, OPENED, STORE};
ghost use Rattle.kdf_usercode.specs.Constants.{value_names, word_up_range, word_down_range, octal_word_range, characters_range, bits_up_range, bits_down_range};
ghost use Rattle.kdf_usercode.specs.Forms.{statement_names};
ghost use Rattle.kdf_usercode.specs.Jumps.{conditions};
ghost use Rattle.kdf_usercode.specs.OrderNames.{order_names, refused_names};
ghost use Rattle.kdf_usercode.specs.Orders.{left_range, right_range, exit_range, up_range, down_range, octal_set_range};
ghost use Rattle.kdf_usercode.specs.Range.{q_range, reference_range, part_range, opened_range, store_range};

/// Each table of names.
pub fn tables()
    ensures orders { map (λ row. (row.0.now, row.1)) ORDERS ≡ order_names }
    ensures refused { map (λ row. (row.0.now, row.1)) REFUSED ≡ refused_names }
    ensures conditions { map (λ row. (row.0.now, row.1)) CONDITIONS ≡ conditions }
    ensures statements { map (λ row. (row.0.now, row.1)) STATEMENTS ≡ statement_names }
    ensures values { map (λ row. (row.0.now, row.1)) VALUES ≡ value_names }
{}

/// The ranges of numbers that stand in several kinds of statements.
pub fn ranges()
    ensures q { Q ≡ q_range }
    ensures reference { REFERENCE ≡ reference_range }
    ensures part { PART ≡ part_range }
    ensures opened { OPENED ≡ opened_range }
    ensures store { STORE ≡ store_range }
{}

/// The ranges of what an order takes.
pub fn ranges_of_orders()
    ensures left { LEFT ≡ left_range }
    ensures right { RIGHT ≡ right_range }
    ensures exit { EXIT ≡ exit_range }
    ensures up { UP ≡ up_range }
    ensures down { DOWN ≡ down_range }
    ensures octal { OCTAL_SET ≡ octal_set_range }
{}

/// The ranges of constants.
pub fn ranges_of_constants()
    ensures word_up { WORD_UP ≡ word_up_range }
    ensures word_down { WORD_DOWN ≡ word_down_range }
    ensures octal { OCTAL_WORD ≡ octal_word_range }
    ensures characters { CHARACTERS ≡ characters_range }
    ensures bits_up { BITS_UP ≡ bits_up_range }
    ensures bits_down { BITS_DOWN ≡ bits_down_range }
{}
