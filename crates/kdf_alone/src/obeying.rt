//! Obeying one order over a lone port.
ghost use Rattle.std.specs.Prelude.{◌≡◌, ◌<◌, ◌≤◌, IfOk, OnOk, OnErr};
ghost use Rattle.kdf_processor.specs.Buffered.{Agrees};
ghost use Rattle.kdf_processor.specs.Row.{next_of, row};
ghost use Rattle.kdf_alone.specs.LonePort.{shown, state_with};

use crate::lone_port::LonePort;
use kdf_processor::{Buffer, Life, Registers, Step, obey_buffered};
use std::alloc::AllocError;

/// Obeys the next order of a live program. It is inlined in the loop over the orders, so what it answers goes through no memory.
#[inline(always)]
pub fn obey_next(
    registers: &mut Registers,
    bench: &mut LonePort,
    held: &mut Buffer,
    answer: u64,
) -> Result<Step, AllocError>
    requires live { registers.old.state ≡ Life.Live }
    requires ran { registers.old.ran < u32.MAX }
    requires asked { bench.old.asked ≤ registers.old.ran }
    requires agrees { Agrees (shown bench.old) held.old }
    ensures state { OnOk result (state_with registers.new bench.new
        ≡ row (state_with registers.old bench.old) (λ _. answer)) }
    ensures step { IfOk result (λ s.
        s ≡ (next_of (state_with registers.old bench.old) (λ _. answer)).step) }
    ensures asked { bench.new.asked ≤ registers.new.ran }
    ensures agrees { Agrees (shown bench.new) held.new }
    ensures err { OnErr result (state_with registers.new bench.new
        ≡ state_with registers.old bench.old) }
{
    bench.prepare(answer);
    let step = obey_buffered(registers, bench, held)?;
    Ok(step)
}
