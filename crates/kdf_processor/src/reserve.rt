//! Ports that take memory before an order is obeyed.
ghost use Rattle.std.specs.Prelude.{◌≡◌, ◌≢◌, ℕ, OnOk};
ghost use Rattle.kdf_journal.specs.declared.kind.Kind.{Kind};
ghost use Rattle.kdf_processor.specs.Ahead.{IsSmall};
ghost use Rattle.kdf_processor.specs.Buffered.{IsThere};
ghost use Rattle.kdf_processor.specs.Effect.{Act, Writes, Starts, Asks, FreeOf, Spools};

use crate::Port;
use kdf_transfer::TransferOrder;
use std::alloc::AllocError;

/// A port whose acts keep something, for which memory is taken beforehand.
pub trait Reserve: Port {
    /// Nothing but spare memory differs.
    ghost keeps: { Self → Self → Type 0 };

    /// The next order may be obeyed.
    ghost ready: { Self → Type 0 };

    /// Takes the memory that a transfer wants. Without it nothing else has changed either.
    fn reserve_transfer(
        &mut self,
        device: u8,
        order: TransferOrder,
        first: u16,
        last: u16,
    ) -> Result<(), AllocError>
        requires { ready self.old }
        ensures keeps { keeps self.old self.new }
        ensures shows { Self.shows self.new ≡ Self.shows self.old }
        ensures room { OnOk result (Self.room self.new (Starts device order first last)) };

    /// Takes the memory that a text wants. Without it nothing else has changed either.
    fn reserve_text(&mut self, first: u16, last: u16) -> Result<(), AllocError>
        requires { ready self.old }
        ensures keeps { keeps self.old self.new }
        ensures shows { Self.shows self.new ≡ Self.shows self.old }
        ensures room { OnOk result ((stream : ℕ) → Self.room self.new (Spools stream first last)) };

    /// Takes the memory that a stint wants. Without it nothing else has changed either.
    fn reserve_stint(&mut self) -> Result<(), AllocError>
        requires { ready self.old }
        ensures keeps { keeps self.old self.new }
        ensures shows { Self.shows self.new ≡ Self.shows self.old }
        ensures ready { ready self.new }
        ensures room { OnOk result ((kind : Kind) (answer : ℕ) → Self.room self.new (Asks (FreeOf kind) answer)) };

    /// A port that nothing was done to is as it was.
    ghost itself: { (p : Self) → keeps p p };

    /// No other act wants memory.
    ghost little: { (p : Self) (act : Act) → ready p → IsSmall act → Self.room p act };

    /// A word that is written leaves the others as they can be read.
    ghost beside: { (p : Self) (a w b x : ℕ) (new : Self) → Self.acts p (Writes a w) new → b ≢ a
        → IsThere (Self.shows p) b x → IsThere (Self.shows new) b x };
}
