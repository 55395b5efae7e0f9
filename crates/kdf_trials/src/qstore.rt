//! Calls on Q-stores. What is written to Q0 is lost.
ghost use Rattle.std.specs.Prelude.{◌<◌};

use kdf_qstore::{Part, QStores};
use kdf_word::Word;

/// Sets a Q-store, steps it, counts it down, and sets its increment.
fn change(q: &mut QStores, number: u8)
    requires { number < 16 }
{
    q.set(number, Word::new(0x0001_ffff_0002));
    q.step(number);
    q.count_down(number);
    q.set_part(number, Part::I, 7);
}

#[test]
fn parts_and_steps(rt: HostRuntime) {
    let mut q = QStores::new();
    change(&mut q, 0);
    change(&mut q, 15);
    assert!(rt; q.get(0).bits() == 0);
    assert!(rt; q.get(15).bits() == 0xffff_0007_0001);
    assert!(rt; q.part(15, Part::C) == 65_535);
}
