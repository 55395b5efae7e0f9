//! Jumps: targets, conditions, and what they say.

ghost use Rattle.std.specs.Prelude.{◌≡◌, ◌++◌, [], map};
ghost use Rattle.kdf_usercode.specs.Parse.{opt_map};
ghost use Rattle.kdf_usercode.specs.Range.{range_faults};
ghost use Rattle.kdf_usercode.specs.Jumps.{condition_of, target_form, subroutine_form, test_form, jump_form, jump_ranges, go_of};

use crate::parse::{row_in, strip};
use crate::range::{PART, Q, REFERENCE, Range, q_at, short_at};
use crate::statement::{Target, What};

/// When a jump is taken. The counts are of a Q-store, whose number stands last.
#[derive(Clone, Copy)]
pub enum Test {
    Of { c: u8 },
    CountZero,
    CountNotZero,
}

/// A target, without its numbers.
#[derive(Clone, Copy)]
pub enum TargetForm {
    Reference,
    Part,
    Both,
}

/// What stands after the target of a jump, with `0` where a number stands.
pub const CONDITIONS: [(&str, Test); 19] = [
    ("", Test::Of { c: 0x20 }),
    ("=", Test::Of { c: 0x22 }),
    ("#", Test::Of { c: 0x23 }),
    ("=Z", Test::Of { c: 0x24 }),
    ("#Z", Test::Of { c: 0x25 }),
    ("GTZ", Test::Of { c: 0x26 }),
    ("LTZ", Test::Of { c: 0x27 }),
    ("GEZ", Test::Of { c: 0x28 }),
    ("LEZ", Test::Of { c: 0x29 }),
    ("V", Test::Of { c: 0x2a }),
    ("NV", Test::Of { c: 0x2b }),
    ("TR", Test::Of { c: 0x2c }),
    ("NTR", Test::Of { c: 0x2d }),
    ("EN", Test::Of { c: 0x2e }),
    ("NEN", Test::Of { c: 0x2f }),
    ("EJ", Test::Of { c: 0x30 }),
    ("NEJ", Test::Of { c: 0x31 }),
    ("C0Z", Test::CountZero),
    ("C0NZ", Test::CountNotZero),
];

#[tactic(auto, unfolding(crate::specs::Jumps::condition_of))]
fn condition_of(shape: &[u8]) -> Option<Test>
    ensures { result ≡ condition_of shape.now }
{
    row_in(&CONDITIONS, shape)
}

/// The target in front, and what stands after it.
#[tactic(auto, unfolding(crate::specs::Jumps::target_form))]
fn target_form(shape: &[u8]) -> Option<(TargetForm, &[u8])>
    ensures { opt_map (λ x. (x.0, x.1.now)) result ≡ target_form shape.now }
{
    if let Some(rest) = strip(shape, b"0P0") {
        return Some((TargetForm::Both, rest));
    }
    if let Some(rest) = strip(shape, b"P0") {
        return Some((TargetForm::Part, rest));
    }
    let rest = strip(shape, b"0")?;
    Some((TargetForm::Reference, rest))
}

/// `JS` and a target.
#[tactic(auto, unfolding(crate::specs::Jumps::subroutine_form))]
fn subroutine_form(shape: &[u8]) -> Option<(Test, TargetForm)>
    ensures { result ≡ subroutine_form shape.now }
{
    let rest = strip(shape, b"JS")?;
    let (target, rest) = target_form(rest)?;
    if rest.is_empty() {
        Some((Test::Of { c: 0x21 }, target))
    } else {
        None
    }
}

/// `J`, a target and a condition.
#[tactic(auto, unfolding(crate::specs::Jumps::test_form))]
fn test_form(shape: &[u8]) -> Option<(Test, TargetForm)>
    ensures { result ≡ test_form shape.now }
{
    let rest = strip(shape, b"J")?;
    let (target, rest) = target_form(rest)?;
    let test = condition_of(rest)?;
    Some((test, target))
}

/// A jump with a target.
#[tactic(auto, unfolding(crate::specs::Jumps::jump_form))]
pub fn jump_form(shape: &[u8]) -> Option<(Test, TargetForm)>
    ensures { result ≡ jump_form shape.now }
{
    if let Some(jump) = subroutine_form(shape) {
        return Some(jump);
    }
    test_form(shape)
}

/// The range of each number of a jump.
pub fn jump_ranges(test: Test, target: TargetForm) -> &'static [Range]
    ensures { result.now ≡ jump_ranges test target }
{
    match (test, target) {
        (Test::Of { .. }, TargetForm::Reference) => &[REFERENCE],
        (Test::Of { .. }, TargetForm::Part) => &[PART],
        (Test::Of { .. }, TargetForm::Both) => &[REFERENCE, PART],
        (_, TargetForm::Reference) => &[REFERENCE, Q],
        (_, TargetForm::Part) => &[PART, Q],
        (_, TargetForm::Both) => &[REFERENCE, PART, Q],
    }
}

/// The jump, where each number is in its range.
pub fn go_of(test: Test, target: TargetForm, numbers: &[u64]) -> What
    requires { range_faults (jump_ranges test target) numbers.now ≡ [] }
    ensures { result ≡ go_of test target numbers.now }
{
    let first = Some(short_at(numbers, 0));
    let second = Some(short_at(numbers, 1));
    let (target, q) = match target {
        TargetForm::Reference => (Target { r: first, p: None }, 1),
        TargetForm::Part => (Target { r: None, p: first }, 1),
        TargetForm::Both => (
            Target {
                r: first,
                p: second,
            },
            2,
        ),
    };
    let c = match test {
        Test::Of { c } => c,
        Test::CountZero => q_at(numbers, q),
        Test::CountNotZero => 16 + q_at(numbers, q),
    };
    What::Go { c, target }
}
