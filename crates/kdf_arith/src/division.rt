//! Division that rounds down.
ghost use Rattle.std.specs.Prelude.{◌≡◌, ◌≢◌, ◌≤◌, ◌^◌, pos, ◌-ℤ◌, ◌*ℤ◌, ◌<ℤ◌, unsigned_abs};
ghost use Rattle.kdf_word.specs.Words.{signed};
ghost use Rattle.kdf_arith.specs.Rows.{quotient};

use kdf_word::Word;

/// The quotient of two words as values, rounded down, and the remainder, which has the divisor's sign. The divisor isn't 0.
pub(crate) fn divide(a: Word, divisor: Word) -> (i64, i64)
    requires { divisor ≢ 0 }
    ensures quotient { result.0 ≡ quotient (signed a) (signed divisor) }
    ensures remainder { result.1
        ≡ signed a -ℤ quotient (signed a) (signed divisor) *ℤ signed divisor }
{
    let value = a.signed();
    let by = divisor.signed();
    if by > 0 {
        divide_by_positive(value, by)
    } else {
        divide_by_negative(value, by)
    }
}

/// The same of numbers, where the divisor is positive.
fn divide_by_positive(value: i64, by: i64) -> (i64, i64)
    requires { pos 0 <ℤ by }
    ensures quotient { result.0 ≡ quotient value by }
    ensures remainder { result.1 ≡ value -ℤ quotient value by *ℤ by }
{
    (value.div_euclid(by), value.rem_euclid(by))
}

/// The same of numbers, where the divisor is negative.
fn divide_by_negative(value: i64, by: i64) -> (i64, i64)
    requires value { unsigned_abs value ≤ 2 ^ 47 }
    requires small { unsigned_abs by ≤ 2 ^ 47 }
    requires negative { by <ℤ pos 0 }
    ensures quotient { result.0 ≡ quotient value by }
    ensures remainder { result.1 ≡ value -ℤ quotient value by *ℤ by }
{
    ((-value).div_euclid(-by), -(-value).rem_euclid(-by))
}
