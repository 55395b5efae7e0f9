//! Single orders over a port of which groups, devices and the pool may be out of reach.
mod trial_port;

use self::trial_port::{Call, TrialPort};
use kdf_journal::Kind;
use kdf_nest::Nest;
use kdf_processor::{Failure, Life, Need, Registers, Step, obey};
use kdf_qstore::Triple;
use kdf_transfer::TransferOrder;
use kdf_word::Word;
use std::process::Abort;

/// What is out of reach: a group; a device with a transfer of another program, and one with a transfer of this program, or
/// 16; and whether each device of the pool has a holder.
type Reach = (u16, u8, u8, bool);

/// An order, which is at the first syllable of each word.
#[derive(Drop)]
struct Case {
    name: &'static str,
    word: u64,
    nest: &'static [u64],
    /// The acting call where the order is obeyed.
    call: Call,
    /// How it goes where so much is out of reach.
    tries: &'static [(Reach, Step)],
}

/// Orders, and what each needs, in its order. Q1 has 90 and 170 as I and M.
const ORDERS: [Case; 5] = [
    Case {
        name: "a transfer needs its own words, then its device, then the groups of its area",
        word: 0x7210_0000_0000,
        nest: &[],
        call: Call::Starts(0, TransferOrder::Pwq, 90, 170),
        tries: &[
            ((0, 0, 5, false), Step::Held(Need::Group(0))),
            ((2, 0, 5, false), Step::Held(Need::Device(0))),
            ((2, 5, 5, false), Step::Held(Need::Group(2))),
            ((6, 5, 5, true), Step::Done),
        ],
    },
    Case {
        name: "BUSYQ asks, and needs nothing",
        word: 0x7e10_0000_0000,
        nest: &[],
        call: Call::AsksBusy(0),
        tries: &[
            ((0, 16, 16, false), Step::Held(Need::Group(0))),
            ((3, 0, 0, true), Step::Done),
        ],
    },
    Case {
        name: "OUT 5 waits for a punch of the pool, and for nothing else",
        word: 0x2100_0000_0000,
        nest: &[5, 1],
        call: Call::Takes(2),
        tries: &[
            ((0, 16, 16, true), Step::Held(Need::Group(0))),
            ((1, 0, 0, true), Step::Held(Need::Pool(Kind::Tp))),
            ((1, 0, 0, false), Step::Done),
        ],
    },
    Case {
        name: "an order that fails waits for the transfers of its program",
        word: 0x7010_0000_0000,
        nest: &[],
        call: Call::Nothing,
        tries: &[
            ((2, 5, 2, false), Step::Held(Need::Device(2))),
            ((2, 5, 16, false), Step::Fails(Failure::Claim)),
        ],
    },
    Case {
        name: "=E65",
        word: 0xd000_4100_0000,
        nest: &[7],
        call: Call::Writes(65, 7),
        tries: &[
            ((2, 16, 16, false), Step::Held(Need::Group(2))),
            ((1, 0, 0, true), Step::Done),
        ],
    },
];

/// A port with this word at each address.
fn port(word: u64, reach: Reach) -> TrialPort {
    let (out, busy, mine, taken) = reach;
    TrialPort {
        word: Word::new(word % (1 << 48)),
        out,
        busy,
        mine,
        taken,
        call: Call::Nothing,
    }
}

/// The registers of a program before an order, after 41 others.
fn registers(nest: &[u64]) -> Registers {
    let mut registers = Registers::new();
    registers.q.keep(
        1,
        Triple {
            c: 0,
            i: 90,
            m: 170,
        },
    );
    registers.ran = 41;
    fill(&mut registers.nest, nest);
    registers
}

/// Pushes words, the first of which comes to the top.
fn fill(nest: &mut Nest, words: &[u64]) {
    for place in 0..words.len() {
        push(nest, words[words.len() - 1 - place]);
    }
}

/// Pushes a word, where there is room.
fn push(nest: &mut Nest, bits: u64) {
    if nest.depth() < 16 {
        nest.push(Word::new(bits % (1 << 48)));
    }
}

/// Tries an order, and compares.
fn check(rt: &impl Abort, case: &Case, reach: Reach, due: Step) {
    let mut bench = port(case.word, reach);
    let mut program = registers(case.nest);
    assert!(rt; program.state == Life::Live && program.ran == 41);
    let step = obey(&mut program, &mut bench);
    compare(rt, case, due, step, bench.call);
    compare_registers(rt, case, due, &program);
}

/// The acting call of a case that goes so.
fn call_of(case: &Case, due: Step) -> Call {
    match due {
        Step::Done => case.call,
        Step::Held(_) | Step::Fails(_) | Step::Ends => Call::Nothing,
    }
}

/// Compares how an order went, and its acting call.
fn compare(rt: &impl Abort, case: &Case, due: Step, step: Step, call: Call) {
    let name = case.name;
    assert!(rt; step == due, "{name}");
    assert!(rt; call == call_of(case, due), "{name}");
}

/// Whether a program goes on, how many orders it has obeyed, and its state, where the last one went so.
fn life_after(due: Step) -> (bool, u32, Life) {
    match due {
        Step::Done => (true, 42, Life::Live),
        Step::Held(_) => (false, 41, Life::Live),
        Step::Fails(failure) => (false, 42, Life::Failed(failure)),
        Step::Ends => (true, 42, Life::Ended),
    }
}

/// Compares the registers after an order.
fn compare_registers(rt: &impl Abort, case: &Case, due: Step, after: &Registers) {
    let name = case.name;
    let (goes_on, ran, state) = life_after(due);
    assert!(rt; after.state == state && after.ran == ran, "{name}");
    assert!(rt; goes_on == (after.at != 0), "{name}");
    assert!(rt; goes_on || after.nest.depth() == case.nest.len(), "{name}");
}

/// Tries an order with each thing out of reach.
fn check_case(rt: &impl Abort, case: &Case) {
    for (reach, due) in case.tries {
        check(rt, case, *reach, *due);
    }
}

#[test]
fn orders_are_held_up_by_their_needs_in_order(rt: HostRuntime) {
    for case in &ORDERS {
        check_case(&rt, case);
    }
}
