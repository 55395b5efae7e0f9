//! The quick way of an order: from its class straight to what it does.
//!
//! It obeys orders that change registers alone, fetch a word or keep one. Whatever fails, is held up or acts otherwise
//! it leaves to the general way, and then it has changed nothing. All of it is inlined in the loop over the orders, so
//! these functions are small and have one caller each, or two. An order that is often met has an arm with its code in
//! it: where that is inlined, nothing is left to be found out of the code.
ghost use Rattle.std.specs.Prelude.{◌≡◌, ◌≢◌, ◌+◌, ◌<◌, ◌≤◌, [], ◌∷◌, IfNone, IfOk, IfSome};
ghost use Rattle.std.specs.Result.{result_ok};
ghost use Rattle.kdf_decode.specs.Decoding.{decoded_jump, decoded_one, decoded_two, first_decoded};
ghost use Rattle.kdf_syllable.specs.declared.order.Order.TheVariants as order;
ghost use Rattle.kdf_syllable.specs.Spelling.{IsOrder, IsQ};
ghost use Rattle.kdf_processor.specs.Ahead.{IsSmall};
ghost use Rattle.kdf_processor.specs.Buffered.{Agrees, IsHeld, IsWritten};
ghost use Rattle.kdf_processor.specs.Effect.{Act};
ghost use Rattle.kdf_processor.specs.Fetch.{bytes_of};
ghost use Rattle.kdf_processor.specs.Outcome.{CameTo, outcome, try_effect};
ghost use Rattle.kdf_processor.specs.Plan.{IsHalf, try_decoded, try_order};
ghost use Rattle.kdf_processor.specs.Table.{fetches, guarded, keeps};

use crate::access::{direct_access, indirect_access};
use crate::buffer::{bring, write_word};
use crate::copies::copy;
use crate::counting::count;
use crate::exit::exit;
use crate::fetch::fetch_from;
use crate::jump::jump;
use crate::moves::{kept_in, pop_kept, push_fetched};
use crate::plain::plain;
use crate::plan::Access;
use crate::push::set;
use crate::shift::shift;
use crate::single::single;
use crate::{Buffer, Port, Registers, Reserve, Step};
use kdf_decode::{BadCode, decode_jump, decode_one, decode_store, decode_two};
use kdf_nest::DEPTH;
use kdf_syllable::{Amount, Order};

/// An order of one syllable other than OUT.
#[inline(always)]
fn obey_plain<P: Port>(registers: &mut Registers, port: &P, code: u8) -> Option<()>
    requires ran { registers.old.ran < u32.MAX }
    requires order { IsOrder (order.Plain code) }
    requires not_out { code ≢ 0x21 }
    ensures obeyed { IfSome result (λ _. CameTo P.acts
        (try_order (P.shows port.now) registers.old (order.Plain code)) port.now port.now registers.new Step.Done) }
    ensures left { IfNone result (registers.new ≡ registers.old) }
{
    match plain(registers, code) {
        Ok(()) => {
            count(registers);
            Some(())
        }
        Err(_) => None,
    }
}

/// An order on one Q-store.
#[inline(always)]
fn obey_single<P: Port>(registers: &mut Registers, port: &P, code: u8, q: u8) -> Option<()>
    requires ran { registers.old.ran < u32.MAX }
    requires order { IsOrder (order.Single code q) }
    ensures obeyed { IfSome result (λ _. CameTo P.acts
        (try_order (P.shows port.now) registers.old (order.Single code q)) port.now port.now registers.new Step.Done) }
    ensures left { IfNone result (registers.new ≡ registers.old) }
{
    match single(registers, code, q) {
        Ok(()) => {
            count(registers);
            Some(())
        }
        Err(_) => None,
    }
}

/// A copy of parts of a Q-store.
#[inline(always)]
fn obey_copies<P: Port>(registers: &mut Registers, port: &P, code: u8, q: u8, k: u8) -> Option<()>
    requires ran { registers.old.ran < u32.MAX }
    requires order { IsOrder (order.Copies code q k) }
    ensures obeyed { IfSome result (λ _. CameTo P.acts
        (try_order (P.shows port.now) registers.old (order.Copies code q k)) port.now port.now registers.new
        Step.Done) }
    ensures left { IfNone result (registers.new ≡ registers.old) }
{
    match copy(registers, code, q, k) {
        Ok(()) => {
            count(registers);
            Some(())
        }
        Err(_) => None,
    }
}

/// A shift.
#[inline(always)]
fn obey_shift<P: Port>(registers: &mut Registers, port: &P, code: u8, by: Amount) -> Option<()>
    requires ran { registers.old.ran < u32.MAX }
    requires order { IsOrder (order.Shift code by) }
    ensures obeyed { IfSome result (λ _. CameTo P.acts
        (try_order (P.shows port.now) registers.old (order.Shift code by)) port.now port.now registers.new Step.Done) }
    ensures left { IfNone result (registers.new ≡ registers.old) }
{
    match shift(registers, code, by) {
        Ok(()) => {
            count(registers);
            Some(())
        }
        Err(_) => None,
    }
}

/// A jump.
#[inline(always)]
fn obey_jump<P: Port>(registers: &mut Registers, port: &P, c: u8, target: u16) -> Option<()>
    requires ran { registers.old.ran < u32.MAX }
    requires order { IsOrder (order.Jump c target) }
    ensures obeyed { IfSome result (λ _. CameTo P.acts
        (try_order (P.shows port.now) registers.old (order.Jump c target)) port.now port.now registers.new Step.Done) }
    ensures left { IfNone result (registers.new ≡ registers.old) }
{
    match jump(registers, c, target) {
        Ok(()) => {
            count(registers);
            Some(())
        }
        Err(_) => None,
    }
}

/// EXIT.
#[inline(always)]
fn obey_exit<P: Port>(registers: &mut Registers, port: &P, n: u8) -> Option<()>
    requires ran { registers.old.ran < u32.MAX }
    requires order { IsOrder (order.Exit n) }
    ensures obeyed { IfSome result (λ _. CameTo P.acts
        (try_order (P.shows port.now) registers.old (order.Exit n)) port.now port.now registers.new Step.Done) }
    ensures left { IfNone result (registers.new ≡ registers.old) }
{
    match exit(registers, n) {
        Ok(()) => {
            count(registers);
            Some(())
        }
        Err(_) => None,
    }
}

/// SET.
#[inline(always)]
fn obey_set<P: Port>(registers: &mut Registers, port: &P, constant: u16) -> Option<()>
    requires ran { registers.old.ran < u32.MAX }
    requires order { IsOrder (order.Set constant) }
    ensures obeyed { IfSome result (λ _. CameTo P.acts
        (try_order (P.shows port.now) registers.old (order.Set constant)) port.now port.now registers.new Step.Done) }
    ensures left { IfNone result (registers.new ≡ registers.old) }
{
    match set(registers, constant) {
        Ok(()) => {
            count(registers);
            Some(())
        }
        Err(_) => None,
    }
}

/// Pushes the word at an address, or a half of it.
#[tactic(auto, unfolding(crate::specs::Table::guarded))]
#[inline(always)]
fn fetch<P: Port>(registers: &mut Registers, port: &P, access: Access) -> Option<()>
    requires ran { registers.old.ran < u32.MAX }
    requires half { IsHalf access.half }
    requires q { IsQ access.q }
    ensures obeyed { IfSome result (λ _. CameTo P.acts (try_effect (P.shows port.now) registers.old
        (guarded (P.shows port.now).claims
        (fetches registers.old access.size access.address access.half access.u access.q)))
        port.now port.now registers.new Step.Done) }
    ensures left { IfNone result (registers.new ≡ registers.old) }
{
    if registers.nest.depth() == DEPTH || access.address >= port.size() {
        return None;
    }
    match port.read(access.address) {
        Ok(word) => {
            push_fetched(registers, access, word);
            count(registers);
            Some(())
        }
        Err(_) => None,
    }
}

/// Takes the top, and keeps it at an address, or its first half in a half of the word there.
#[tactic(auto, unfolding(crate::specs::Table::guarded))]
#[inline(always)]
fn keep<P: Reserve>(
    registers: &mut Registers,
    port: &mut P,
    held: &mut Buffer,
    access: Access,
) -> Option<()>
    requires ran { registers.old.ran < u32.MAX }
    requires half { IsHalf access.half }
    requires q { IsQ access.q }
    requires small { (act : Act) → IsSmall act → P.room port.old act }
    requires agrees { Agrees (P.shows port.old) held.old }
    ensures obeyed { IfSome result (λ _. CameTo P.acts (try_effect (P.shows port.old) registers.old
        (guarded (P.shows port.old).claims
        (keeps registers.old access.size access.address access.half access.u access.q)))
        port.old port.new registers.new Step.Done) }
    ensures left { IfNone result ((registers.new ≡ registers.old) × (port.new ≡ port.old)) }
    ensures agrees { Agrees (P.shows port.new) held.new }
    ensures wrote { IfSome result (λ _. IsWritten P.acts port.old port.new) }
{
    if registers.nest.depth() == 0 || access.address >= port.size() {
        return None;
    }
    let there = match port.read(access.address) {
        Ok(word) => word,
        Err(_) => return None,
    };
    let word = kept_in(there, access.half, registers.nest.peek(0));
    write_word(port, held, access.address, word);
    pop_kept(registers, access);
    count(registers);
    Some(())
}

/// A store order at this address and M of Qq.
#[inline(always)]
fn obey_modified<P: Reserve>(
    registers: &mut Registers,
    port: &mut P,
    held: &mut Buffer,
    t: bool,
    u: bool,
    q: u8,
    a: u16,
) -> Option<()>
    requires ran { registers.old.ran < u32.MAX }
    requires q { IsQ q }
    requires small { (act : Act) → IsSmall act → P.room port.old act }
    requires agrees { Agrees (P.shows port.old) held.old }
    ensures obeyed { IfSome result (λ _. CameTo P.acts
        (try_order (P.shows port.old) registers.old (order.Direct t u q a)) port.old port.new registers.new Step.Done) }
    ensures left { IfNone result ((registers.new ≡ registers.old) × (port.new ≡ port.old)) }
    ensures agrees { Agrees (P.shows port.new) held.new }
    ensures wrote { IfSome result (λ _. IsWritten P.acts port.old port.new) }
{
    let access = direct_access(registers, u, q, a);
    if t {
        keep(registers, port, held, access)
    } else {
        fetch(registers, port, access)
    }
}

/// A store order. One that names no Q-store has an arm of its own.
#[inline(always)]
fn obey_direct<P: Reserve>(
    registers: &mut Registers,
    port: &mut P,
    held: &mut Buffer,
    t: bool,
    u: bool,
    q: u8,
    a: u16,
) -> Option<()>
    requires ran { registers.old.ran < u32.MAX }
    requires q { IsQ q }
    requires small { (act : Act) → IsSmall act → P.room port.old act }
    requires agrees { Agrees (P.shows port.old) held.old }
    ensures obeyed { IfSome result (λ _. CameTo P.acts
        (try_order (P.shows port.old) registers.old (order.Direct t u q a)) port.old port.new registers.new Step.Done) }
    ensures left { IfNone result ((registers.new ≡ registers.old) × (port.new ≡ port.old)) }
    ensures agrees { Agrees (P.shows port.new) held.new }
    ensures wrote { IfSome result (λ _. IsWritten P.acts port.old port.new) }
{
    match q {
        0 => obey_modified(registers, port, held, t, u, 0, a),
        _ => obey_modified(registers, port, held, t, u, q, a),
    }
}

/// MkMq and =MkMq.
#[inline(always)]
fn obey_indirect<P: Reserve>(
    registers: &mut Registers,
    port: &mut P,
    held: &mut Buffer,
    code: u8,
    k: u8,
    q: u8,
) -> Option<()>
    requires ran { registers.old.ran < u32.MAX }
    requires k { IsQ k }
    requires q { IsQ q }
    requires small { (act : Act) → IsSmall act → P.room port.old act }
    requires agrees { Agrees (P.shows port.old) held.old }
    ensures obeyed { IfSome result (λ _. CameTo P.acts
        (try_order (P.shows port.old) registers.old (order.Indirect code k q)) port.old port.new registers.new
        Step.Done) }
    ensures left { IfNone result ((registers.new ≡ registers.old) × (port.new ≡ port.old)) }
    ensures agrees { Agrees (P.shows port.new) held.new }
    ensures wrote { IfSome result (λ _. IsWritten P.acts port.old port.new) }
{
    let access = indirect_access(registers, code, k, q);
    if code / 8 % 2 == 1 {
        keep(registers, port, held, access)
    } else {
        fetch(registers, port, access)
    }
}

/// An order of one syllable.
#[inline(always)]
fn obey_one<P: Port>(
    registers: &mut Registers,
    port: &P,
    decoded: Result<Order, BadCode>,
) -> Option<()>
    requires ran { registers.old.ran < u32.MAX }
    requires order { IfOk decoded (λ o. IsOrder o) }
    ensures obeyed { IfSome result (λ _. CameTo P.acts
        (try_decoded (P.shows port.now) registers.old (result_ok decoded)) port.now port.now registers.new Step.Done) }
    ensures left { IfNone result (registers.new ≡ registers.old) }
{
    match decoded {
        Ok(Order::Plain { code }) if code != 0x21 => obey_plain(registers, port, code),
        _ => None,
    }
}

/// The order of one syllable of this code.
#[inline(always)]
fn obey_code<P: Port>(registers: &mut Registers, port: &P, code: u8) -> Option<()>
    requires ran { registers.old.ran < u32.MAX }
    ensures obeyed { IfSome result (λ _. CameTo P.acts
        (try_decoded (P.shows port.now) registers.old (decoded_one code)) port.now port.now registers.new Step.Done) }
    ensures left { IfNone result (registers.new ≡ registers.old) }
{
    obey_one(registers, port, decode_one(code))
}

/// An order of one syllable. Each code has an arm of its own, so that one jump by the code leads to what it does.
#[inline(always)]
fn obey_by_code<P: Port>(registers: &mut Registers, port: &P, code: u8) -> Option<()>
    requires ran { registers.old.ran < u32.MAX }
    ensures obeyed { IfSome result (λ _. CameTo P.acts
        (try_decoded (P.shows port.now) registers.old (decoded_one code)) port.now port.now registers.new Step.Done) }
    ensures left { IfNone result (registers.new ≡ registers.old) }
{
    match code {
        0x01 => obey_code(registers, port, 0x01),
        0x02 => obey_code(registers, port, 0x02),
        0x03 => obey_code(registers, port, 0x03),
        0x04 => obey_code(registers, port, 0x04),
        0x05 => obey_code(registers, port, 0x05),
        0x06 => obey_code(registers, port, 0x06),
        0x07 => obey_code(registers, port, 0x07),
        0x08 => obey_code(registers, port, 0x08),
        0x09 => obey_code(registers, port, 0x09),
        0x0a => obey_code(registers, port, 0x0a),
        0x0b => obey_code(registers, port, 0x0b),
        0x0c => obey_code(registers, port, 0x0c),
        0x0d => obey_code(registers, port, 0x0d),
        0x0e => obey_code(registers, port, 0x0e),
        0x0f => obey_code(registers, port, 0x0f),
        0x10 => obey_code(registers, port, 0x10),
        0x11 => obey_code(registers, port, 0x11),
        0x12 => obey_code(registers, port, 0x12),
        0x14 => obey_code(registers, port, 0x14),
        0x15 => obey_code(registers, port, 0x15),
        0x16 => obey_code(registers, port, 0x16),
        0x17 => obey_code(registers, port, 0x17),
        0x18 => obey_code(registers, port, 0x18),
        0x19 => obey_code(registers, port, 0x19),
        0x1a => obey_code(registers, port, 0x1a),
        0x1b => obey_code(registers, port, 0x1b),
        0x1c => obey_code(registers, port, 0x1c),
        0x1d => obey_code(registers, port, 0x1d),
        0x1e => obey_code(registers, port, 0x1e),
        0x1f => obey_code(registers, port, 0x1f),
        0x20 => obey_code(registers, port, 0x20),
        _ => None,
    }
}

/// An order of two syllables.
#[inline(always)]
fn obey_two<P: Reserve>(
    registers: &mut Registers,
    port: &mut P,
    held: &mut Buffer,
    decoded: Result<Order, BadCode>,
) -> Option<()>
    requires ran { registers.old.ran < u32.MAX }
    requires order { IfOk decoded (λ o. IsOrder o) }
    requires small { (act : Act) → IsSmall act → P.room port.old act }
    requires agrees { Agrees (P.shows port.old) held.old }
    ensures obeyed { IfSome result (λ _. CameTo P.acts
        (try_decoded (P.shows port.old) registers.old (result_ok decoded)) port.old port.new registers.new Step.Done) }
    ensures left { IfNone result ((registers.new ≡ registers.old) × (port.new ≡ port.old)) }
    ensures agrees { Agrees (P.shows port.new) held.new }
    ensures wrote { IfSome result (λ _. IsWritten P.acts port.old port.new) }
{
    match decoded {
        Ok(Order::Indirect { code, k, q }) => obey_indirect(registers, port, held, code, k, q),
        Ok(Order::Single { code, q }) => obey_single(registers, port, code, q),
        Ok(Order::Copies { code, q, k }) => obey_copies(registers, port, code, q, k),
        Ok(Order::Shift { code, by }) => obey_shift(registers, port, code, by),
        _ => None,
    }
}

/// The order of two syllables.
#[inline(always)]
fn obey_pair<P: Reserve>(
    registers: &mut Registers,
    port: &mut P,
    held: &mut Buffer,
    code: u8,
    second: u8,
) -> Option<()>
    requires ran { registers.old.ran < u32.MAX }
    requires small { (act : Act) → IsSmall act → P.room port.old act }
    requires agrees { Agrees (P.shows port.old) held.old }
    ensures obeyed { IfSome result (λ _. CameTo P.acts
        (try_decoded (P.shows port.old) registers.old (decoded_two code second)) port.old port.new registers.new Step.Done) }
    ensures left { IfNone result ((registers.new ≡ registers.old) × (port.new ≡ port.old)) }
    ensures agrees { Agrees (P.shows port.new) held.new }
    ensures wrote { IfSome result (λ _. IsWritten P.acts port.old port.new) }
{
    obey_two(registers, port, held, decode_two(code, second))
}

/// An order of two syllables. Shifts and JCqNZS have arms of their own.
#[inline(always)]
fn obey_by_pair<P: Reserve>(
    registers: &mut Registers,
    port: &mut P,
    held: &mut Buffer,
    code: u8,
    second: u8,
) -> Option<()>
    requires ran { registers.old.ran < u32.MAX }
    requires small { (act : Act) → IsSmall act → P.room port.old act }
    requires agrees { Agrees (P.shows port.old) held.old }
    ensures obeyed { IfSome result (λ _. CameTo P.acts
        (try_decoded (P.shows port.old) registers.old (decoded_two code second)) port.old port.new registers.new Step.Done) }
    ensures left { IfNone result ((registers.new ≡ registers.old) × (port.new ≡ port.old)) }
    ensures agrees { Agrees (P.shows port.new) held.new }
    ensures wrote { IfSome result (λ _. IsWritten P.acts port.old port.new) }
{
    match code {
        0x6a => obey_pair(registers, port, held, 0x6a, second),
        0x6b => obey_pair(registers, port, held, 0x6b, second),
        0x6c => obey_pair(registers, port, held, 0x6c, second),
        0x6d => obey_pair(registers, port, held, 0x6d, second),
        0x6e => obey_pair(registers, port, held, 0x6e, second),
        0x6f => obey_pair(registers, port, held, 0x6f, second),
        _ => obey_pair(registers, port, held, code, second),
    }
}

/// A jump, or EXIT.
#[inline(always)]
fn obey_going<P: Port>(
    registers: &mut Registers,
    port: &P,
    decoded: Result<Order, BadCode>,
) -> Option<()>
    requires ran { registers.old.ran < u32.MAX }
    requires order { IfOk decoded (λ o. IsOrder o) }
    ensures obeyed { IfSome result (λ _. CameTo P.acts
        (try_decoded (P.shows port.now) registers.old (result_ok decoded)) port.now port.now registers.new Step.Done) }
    ensures left { IfNone result (registers.new ≡ registers.old) }
{
    match decoded {
        Ok(Order::Jump { c, target }) => obey_jump(registers, port, c, target),
        Ok(Order::Exit { n }) => obey_exit(registers, port, n),
        _ => None,
    }
}

/// The jump, or EXIT, of three syllables.
#[inline(always)]
fn obey_triple<P: Port>(
    registers: &mut Registers,
    port: &P,
    first: u8,
    second: u8,
    third: u8,
) -> Option<()>
    requires ran { registers.old.ran < u32.MAX }
    ensures obeyed { IfSome result (λ _. CameTo P.acts
        (try_decoded (P.shows port.now) registers.old (decoded_jump first second third)) port.now port.now registers.new
        Step.Done) }
    ensures left { IfNone result (registers.new ≡ registers.old) }
{
    obey_going(registers, port, decode_jump(first, second, third))
}

/// A jump, or EXIT. The jump that is always taken has an arm of its own.
#[inline(always)]
fn obey_by_triple<P: Port>(
    registers: &mut Registers,
    port: &P,
    first: u8,
    second: u8,
    third: u8,
) -> Option<()>
    requires ran { registers.old.ran < u32.MAX }
    ensures obeyed { IfSome result (λ _. CameTo P.acts
        (try_decoded (P.shows port.now) registers.old (decoded_jump first second third)) port.now port.now registers.new
        Step.Done) }
    ensures left { IfNone result (registers.new ≡ registers.old) }
{
    match first {
        0xa0 => obey_triple(registers, port, 0xa0, second, third),
        _ => obey_triple(registers, port, first, second, third),
    }
}

/// A store order, or SET.
#[inline(always)]
fn obey_store<P: Reserve>(
    registers: &mut Registers,
    port: &mut P,
    held: &mut Buffer,
    decoded: Result<Order, BadCode>,
) -> Option<()>
    requires ran { registers.old.ran < u32.MAX }
    requires order { IfOk decoded (λ o. IsOrder o) }
    requires small { (act : Act) → IsSmall act → P.room port.old act }
    requires agrees { Agrees (P.shows port.old) held.old }
    ensures obeyed { IfSome result (λ _. CameTo P.acts
        (try_decoded (P.shows port.old) registers.old (result_ok decoded)) port.old port.new registers.new Step.Done) }
    ensures left { IfNone result ((registers.new ≡ registers.old) × (port.new ≡ port.old)) }
    ensures agrees { Agrees (P.shows port.new) held.new }
    ensures wrote { IfSome result (λ _. IsWritten P.acts port.old port.new) }
{
    match decoded {
        Ok(Order::Direct { t, u, q, a }) => obey_direct(registers, port, held, t, u, q, a),
        Ok(Order::Set { constant }) => obey_set(registers, port, constant),
        _ => None,
    }
}

/// The order that three syllables begin with.
#[inline(always)]
fn obey_spelt<P: Reserve>(
    registers: &mut Registers,
    port: &mut P,
    held: &mut Buffer,
    first: u8,
    second: u8,
    third: u8,
) -> Option<()>
    requires ran { registers.old.ran < u32.MAX }
    requires small { (act : Act) → IsSmall act → P.room port.old act }
    requires agrees { Agrees (P.shows port.old) held.old }
    ensures obeyed { IfSome result (λ _. CameTo P.acts
        (try_decoded (P.shows port.old) registers.old (first_decoded (first ∷ second ∷ third ∷ [])))
        port.old port.new registers.new Step.Done) }
    ensures left { IfNone result ((registers.new ≡ registers.old) × (port.new ≡ port.old)) }
    ensures agrees { Agrees (P.shows port.new) held.new }
    ensures wrote { IfSome result (λ _. IsWritten P.acts port.old port.new) }
{
    match first {
        0x00..=0x3f => obey_by_code(registers, port, first),
        0x40..=0x7f => obey_by_pair(registers, port, held, first, second),
        0x80..=0xbf => obey_by_triple(registers, port, first, second, third),
        0xc0..=0xff => obey_store(registers, port, held, decode_store(first, second, third)),
    }
}

/// The order that 24 bits begin with.
#[inline(always)]
fn obey_bits<P: Reserve>(
    registers: &mut Registers,
    port: &mut P,
    held: &mut Buffer,
    bits: u32,
) -> Option<()>
    requires ran { registers.old.ran < u32.MAX }
    requires small { (act : Act) → IsSmall act → P.room port.old act }
    requires agrees { Agrees (P.shows port.old) held.old }
    ensures obeyed { IfSome result (λ _. CameTo P.acts
        (try_decoded (P.shows port.old) registers.old (first_decoded (bytes_of bits)))
        port.old port.new registers.new Step.Done) }
    ensures left { IfNone result ((registers.new ≡ registers.old) × (port.new ≡ port.old)) }
    ensures agrees { Agrees (P.shows port.new) held.new }
    ensures wrote { IfSome result (λ _. IsWritten P.acts port.old port.new) }
{
    let (first, second) = ((bits / 65_536 % 256) as u8, (bits / 256 % 256) as u8);
    obey_spelt(registers, port, held, first, second, (bits % 256) as u8)
}

/// An order at this one of the six syllables of the word at hand.
#[inline(always)]
fn obey_from<P: Reserve>(
    registers: &mut Registers,
    port: &mut P,
    held: &mut Buffer,
    place: u32,
) -> Option<()>
    requires ran { registers.old.ran < u32.MAX }
    requires small { (act : Act) → IsSmall act → P.room port.old act }
    requires agrees { Agrees (P.shows port.old) held.old }
    requires held { IsHeld (P.shows port.old) held.old }
    requires place { registers.old.at ≡ held.old.first + place }
    requires six { place < 6 }
    ensures obeyed { IfSome result (λ _. CameTo P.acts (outcome (P.shows port.old) registers.old)
        port.old port.new registers.new Step.Done) }
    ensures left { IfNone result ((registers.new ≡ registers.old) × (port.new ≡ port.old)) }
    ensures agrees { Agrees (P.shows port.new) held.new }
    ensures wrote { IfSome result (λ _. IsWritten P.acts port.old port.new) }
{
    match fetch_from(port, held, registers.at, place) {
        Some(bits) => obey_bits(registers, port, held, bits),
        None => None,
    }
}

/// Obeys the next order of a live program, or answers None and changes nothing: then it is for the general way.
/// A syllable of the word at hand is taken from that.
#[inline(always)]
pub fn obey_quickly<P: Reserve>(
    registers: &mut Registers,
    port: &mut P,
    held: &mut Buffer,
) -> Option<()>
    requires ran { registers.old.ran < u32.MAX }
    requires small { (act : Act) → IsSmall act → P.room port.old act }
    requires agrees { Agrees (P.shows port.old) held.old }
    ensures obeyed { IfSome result (λ _. CameTo P.acts (outcome (P.shows port.old) registers.old)
        port.old port.new registers.new Step.Done) }
    ensures left { IfNone result ((registers.new ≡ registers.old) × (port.new ≡ port.old)) }
    ensures agrees { Agrees (P.shows port.new) held.new }
    ensures wrote { IfSome result (λ _. IsWritten P.acts port.old port.new) }
{
    match bring(port, held, registers.at) {
        Some(place) => obey_from(registers, port, held, place),
        None => None,
    }
}
