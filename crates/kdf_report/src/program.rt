//! What a section is written from.
ghost use Rattle.std.specs.Prelude.{◌≡◌, ◌<◌, length, IfSome, is_some, slice_get, true};
ghost use Rattle.std.specs.Option.{option_copied};
ghost use Rattle.kdf_processor.specs.Claims.{is_claimed};
ghost use Rattle.kdf_processor.specs.State.{State, device_limit, lendings, own_fixture_at, word_at};
ghost use Rattle.kdf_processor.specs.Stints.{IsStint};
ghost use Rattle.kdf_alone.specs.Program.{IsDeviceAt};

use kdf_alone::Alone;
use kdf_processor::{Registers, Spooled};
use kdf_transfer::Device;
use kdf_word::Word;

/// A program as it is seen from outside.
pub trait Program {
    /// Its state.
    ghost state: { Self → State };

    /// The registers.
    fn registers(&self) -> &Registers
        ensures { result.now ≡ (state self.now).registers };

    /// The word at an address.
    fn word(&self, address: u16) -> Word
        requires { address < (state self.now).stock.claims.size }
        ensures { result ≡ word_at (state self.now) address };

    /// The device of this number, below 16, if the program has one of its own.
    fn device(&self, d: u8) -> Option<&Device>
        requires { d < device_limit }
        ensures { IsDeviceAt (state self.now) d (option_copied result) };

    /// Whether the program has claimed the device of this number, which is one of its own.
    fn claimed(&self, d: u8) -> bool
        requires { is_some (own_fixture_at (state self.now).stock.claims d) ≡ true }
        ensures { result ≡ is_claimed (state self.now).stock.claims d };

    /// How many stints it has: how often it took a device from the pool.
    fn stints(&self) -> usize
        ensures { result ≡ length (lendings (state self.now).stock) };

    /// The stint that began after `i` others: the number of its device, whether that was given back, and the device.
    fn stint(&self, i: usize) -> (u8, bool, &Device)
        requires { i < length (lendings (state self.now).stock) }
        ensures { IfSome (slice_get (lendings (state self.now).stock) i) (λ x.
            IsStint x result.0 result.1 result.2.now) };

    /// What it spooled, the oldest first.
    fn spooled(&self) -> &[Spooled]
        ensures { result.now ≡ (state self.now).stock.spooled };
}

impl Program for Alone {
    ghost state = { λ s. s };

    fn registers(&self) -> &Registers {
        Alone::registers(self)
    }

    fn word(&self, address: u16) -> Word {
        Alone::word(self, address)
    }

    fn device(&self, d: u8) -> Option<&Device> {
        Alone::device(self, d)
    }

    fn claimed(&self, d: u8) -> bool {
        Alone::claimed(self, d)
    }

    fn stints(&self) -> usize {
        Alone::stints(self)
    }

    fn stint(&self, i: usize) -> (u8, bool, &Device) {
        Alone::stint(self, i)
    }

    fn spooled(&self) -> &[Spooled] {
        Alone::spooled(self)
    }
}
