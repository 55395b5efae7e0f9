//! A watch: a rule about moments.
ghost use Rattle.std.specs.Prelude.{◌≡◌};
ghost use Rattle.kdf_watch.specs.Rules.{IsLook, IsWatch};

use crate::Look;
use std::marker::Model;

/// A rule about moments. Contracts see it as the rule itself: `G.post watch.now look b` says that `b` is one of its answers to `look`.
#[derive(Drop)]
pub struct Watch<G: Fn(Look) -> bool> {
    rule: G,
}

impl<G: Fn(Look) -> bool> Model for Watch<G> {
    ghost Value = { G };

    ghost view = { λ s. s.rule };
}

impl<G: Fn(Look) -> bool> Watch<G> {
    /// The watch of a rule that may be called on every look, and of which any two answers to one look are equal.
    pub fn new(rule: G) -> Watch<G>
        requires { IsWatch (G.pre rule) (G.post rule) }
        ensures { result ≡ rule }
    {
        Watch { rule }
    }

    /// An answer of the rule to a look.
    pub fn sees(&self, look: Look) -> bool
        requires watch { IsWatch (G.pre self.now) (G.post self.now) }
        requires look { IsLook look }
        ensures { G.post self.now look result }
    {
        (self.rule)(look)
    }
}
