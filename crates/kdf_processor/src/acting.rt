//! The plans that act on devices, that ask and that spool, none of whose needs is pending.
ghost use Rattle.std.specs.Prelude.{◌≡◌, ◌∷◌, ◌+◌, ◌<◌, ◌≤◌, ◌%◌, ◌^◌, None, length, false, true, find};
ghost use Rattle.kdf_transfer.specs.AtOnce.{IsArea};
ghost use Rattle.kdf_transfer.specs.declared.wanted.Wanted.TheVariants.{Kinded};
ghost use Rattle.kdf_processor.specs.Claims.{free_for, is_claimed, may_take};
ghost use Rattle.kdf_processor.specs.Effect.{Act};
ghost use Rattle.kdf_processor.specs.Outcome.{CameTo, counted};
ghost use Rattle.kdf_processor.specs.Plan.{done_plan, IsBeginning, below_top, below_two};
ghost use Rattle.kdf_processor.specs.Table.{with_nest, sets_tr};
ghost use Rattle.kdf_processor.specs.View.{groups_of, order_groups};

use crate::counting::count;
use crate::plan::{Beginning, Plan};
use crate::syllable_number::syllable_after;
use crate::{Port, Registers, Step, Test};
use kdf_journal::Kind;
use kdf_word::Word;

/// Sets TR, after an order of two syllables.
fn set_tr(registers: &mut Registers, tr: bool)
    ensures { registers.new ≡ sets_tr registers.old tr }
{
    registers.flags.tr = tr;
    registers.at = syllable_after(registers.at, 2);
}

/// Puts a word in place of the top, after OUT.
fn replace_top(registers: &mut Registers, word: Word)
    requires { 0 < length registers.old.nest }
    ensures { registers.new
        ≡ with_nest 1 (word ∷ below_top registers.old.nest) registers.old }
{
    registers.nest.pop();
    registers.nest.push(word);
    registers.at = syllable_after(registers.at, 1);
}

/// Takes two words, after OUT.
fn drop_two(registers: &mut Registers)
    requires { 1 < length registers.old.nest }
    ensures { registers.new ≡ with_nest 1 (below_two registers.old.nest) registers.old }
{
    registers.nest.pop();
    registers.nest.pop();
    registers.at = syllable_after(registers.at, 1);
}

/// Puts a word in place of two, after OUT.
fn replace_two(registers: &mut Registers, word: Word)
    requires { 1 < length registers.old.nest }
    ensures { registers.new ≡ with_nest 1 (word ∷ below_two registers.old.nest) registers.old }
{
    registers.nest.pop();
    registers.nest.pop();
    registers.nest.push(word);
    registers.at = syllable_after(registers.at, 1);
}

/// Puts a device's number in place of two words, after OUT.
pub fn take_number(registers: &mut Registers, device: u8)
    requires { 1 < length registers.old.nest }
    ensures { registers.new ≡ with_nest 1 (device ∷ below_two registers.old.nest) registers.old }
{
    replace_two(registers, Word::new(u64::from(device)));
}

/// Puts the number of orders obeyed in place of the top.
pub fn count_orders(registers: &mut Registers) -> Step
    requires ran { registers.old.ran < u32.MAX }
    requires there { 0 < length registers.old.nest }
    ensures step { result ≡ Step.Done }
    ensures registers { registers.new ≡ counted registers.old registers.old.state
        (with_nest 1 (registers.old.ran ∷ below_top registers.old.nest) registers.old) }
{
    let ran = Word::new(u64::from(registers.ran));
    replace_top(registers, ran);
    count(registers);
    Step::Done
}

/// Begins a transfer.
pub fn begin<P: Port>(registers: &mut Registers, port: &mut P, beginning: Beginning) -> Step
    requires ran { registers.old.ran < u32.MAX }
    requires sound { IsBeginning (P.shows port.old).claims beginning }
    requires idle { (P.shows port.old).is_busy beginning.device ≡ false }
    requires free { find (P.shows port.old).is_out
        (order_groups beginning.order beginning.first beginning.last) ≡ None }
    requires room { P.room port.old
        (done_plan (P.shows port.old) registers.old (Plan.Begin beginning)).act }
    ensures { CameTo P.acts (done_plan (P.shows port.old) registers.old (Plan.Begin beginning))
        port.old port.new registers.new result }
{
    let Beginning {
        device,
        order,
        first,
        last,
    } = beginning;
    port.start(device, order, first, last);
    registers.at = syllable_after(registers.at, 2);
    count(registers);
    Step::Done
}

/// Sets TR by a test of a device.
pub fn examine<P: Port>(registers: &mut Registers, port: &P, device: u8, what: Test) -> Step
    requires ran { registers.old.ran < u32.MAX }
    requires claimed { is_claimed (P.shows port.now).claims device ≡ true }
    requires idle { (P.shows port.now).is_busy device ≡ false }
    ensures step { result ≡ Step.Done }
    ensures registers { registers.new
        ≡ (done_plan (P.shows port.now) registers.old (Plan.Examine device what)).registers }
{
    set_tr(registers, port.test(device, what));
    count(registers);
    Step::Done
}

/// Goes on, where a device has no transfer.
pub fn pass(registers: &mut Registers) -> Step
    requires ran { registers.old.ran < u32.MAX }
    ensures step { result ≡ Step.Done }
    ensures registers { registers.new ≡ counted registers.old registers.old.state
        (with_nest 2 registers.old.nest registers.old) }
{
    registers.at = syllable_after(registers.at, 2);
    count(registers);
    Step::Done
}

/// Sets TR where a device has a transfer.
pub fn ask_busy<P: Port>(registers: &mut Registers, port: &mut P, device: u8) -> Step
    requires ran { registers.old.ran < u32.MAX }
    requires claimed { is_claimed (P.shows port.old).claims device ≡ true }
    requires room { P.room port.old
        (done_plan (P.shows port.old) registers.old (Plan.AskBusy device)).act }
    ensures { CameTo P.acts (done_plan (P.shows port.old) registers.old (Plan.AskBusy device))
        port.old port.new registers.new result }
{
    let answer = port.ask_busy(device);
    set_tr(registers, answer);
    count(registers);
    Step::Done
}

/// Sets TR where a group of an area is locked out.
pub fn ask_area<P: Port>(registers: &mut Registers, port: &mut P, first: u16, last: u16) -> Step
    requires ran { registers.old.ran < u32.MAX }
    requires area { IsArea first last (P.shows port.old).claims.size }
    requires room { P.room port.old
        (done_plan (P.shows port.old) registers.old (Plan.AskArea first last)).act }
    ensures { CameTo P.acts (done_plan (P.shows port.old) registers.old (Plan.AskArea first last))
        port.old port.new registers.new result }
{
    let answer = port.ask_area(first, last);
    set_tr(registers, answer);
    count(registers);
    Step::Done
}

/// Puts the time in place of the top.
pub fn ask_time<P: Port>(registers: &mut Registers, port: &mut P) -> Step
    requires ran { registers.old.ran < u32.MAX }
    requires there { 0 < length registers.old.nest }
    requires room { P.room port.old (done_plan (P.shows port.old) registers.old Plan.AskTime).act }
    ensures { CameTo P.acts (done_plan (P.shows port.old) registers.old Plan.AskTime)
        port.old port.new registers.new result }
{
    let time = Word::new(port.ask_time() % (1 << 48));
    replace_top(registers, time);
    count(registers);
    Step::Done
}

/// Puts the service's answer to a word in place of two words.
pub fn ask_service<P: Port>(registers: &mut Registers, port: &mut P, word: Word) -> Step
    requires ran { registers.old.ran < u32.MAX }
    requires there { 1 < length registers.old.nest }
    requires served { (P.shows port.old).claims.served ≡ true }
    requires room { P.room port.old
        (done_plan (P.shows port.old) registers.old (Plan.AskService word)).act }
    ensures { CameTo P.acts (done_plan (P.shows port.old) registers.old (Plan.AskService word))
        port.old port.new registers.new result }
{
    let answer = port.ask_service(word);
    replace_two(registers, answer);
    count(registers);
    Step::Done
}

/// Takes a device of a kind from the pool.
pub fn take_pool<P: Port>(registers: &mut Registers, port: &mut P, kind: Kind) -> Step
    requires ran { registers.old.ran < u32.MAX }
    requires operands { 1 < length registers.old.nest }
    requires none { free_for (Kinded kind) (P.shows port.old).claims ≡ None }
    requires may { may_take (P.shows port.old).claims kind ≡ true }
    requires free { (P.shows port.old).is_taken kind ≡ false }
    requires room { P.room port.old
        (done_plan (P.shows port.old) registers.old (Plan.ClaimKind kind)).act }
    ensures { CameTo P.acts (done_plan (P.shows port.old) registers.old (Plan.ClaimKind kind))
        port.old port.new registers.new result }
{
    let device = port.take_pool(kind);
    take_number(registers, device);
    count(registers);
    Step::Done
}

/// Gives a device back.
pub fn give_back<P: Port>(registers: &mut Registers, port: &mut P, device: u8) -> Step
    requires ran { registers.old.ran < u32.MAX }
    requires there { 1 < length registers.old.nest }
    requires claimed { is_claimed (P.shows port.old).claims device ≡ true }
    requires idle { (P.shows port.old).is_busy device ≡ false }
    requires room { P.room port.old
        (done_plan (P.shows port.old) registers.old (Plan.GiveBack device)).act }
    ensures { CameTo P.acts (done_plan (P.shows port.old) registers.old (Plan.GiveBack device))
        port.old port.new registers.new result }
{
    port.give_back(device);
    drop_two(registers);
    count(registers);
    Step::Done
}

/// Spools a text.
pub fn spool<P: Port>(
    registers: &mut Registers,
    port: &mut P,
    stream: u8,
    first: u16,
    last: u16,
) -> Step
    requires ran { registers.old.ran < u32.MAX }
    requires there { 1 < length registers.old.nest }
    requires stream { stream ≤ 7 }
    requires area { IsArea first last (P.shows port.old).claims.size }
    requires free { find (P.shows port.old).is_out (groups_of first last) ≡ None }
    requires room { P.room port.old
        (done_plan (P.shows port.old) registers.old (Plan.Spool stream first last)).act }
    ensures { CameTo P.acts
        (done_plan (P.shows port.old) registers.old (Plan.Spool stream first last))
        port.old port.new registers.new result }
{
    port.spool(stream, first, last);
    drop_two(registers);
    count(registers);
    Step::Done
}
