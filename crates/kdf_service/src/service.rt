//! A service by its rule.
ghost use Rattle.std.specs.Prelude.{◌≡◌};
ghost use Rattle.kdf_service.specs.Rules.{IsService};

use kdf_word::Word;
use std::marker::Model;

/// A rule from words to words. Contracts see it as the rule itself: `F.post service.now n a` says that `a` is one of its answers
/// to `n`.
#[derive(Drop)]
pub struct Service<F: Fn(u64) -> u64> {
    rule: F,
}

impl<F: Fn(u64) -> u64> Model for Service<F> {
    ghost Value = { F };

    ghost view = { λ s. s.rule };
}

impl<F: Fn(u64) -> u64> Service<F> {
    /// The service of a rule that may be called on every number below 2^48, each of whose answers to such a number is below
    /// 2^48, and of which any two answers to one such number are equal.
    pub fn new(rule: F) -> Service<F>
        requires { IsService (F.pre rule) (F.post rule) }
        ensures { result ≡ rule }
    {
        Service { rule }
    }

    /// An answer of the rule to a word.
    pub fn ask(&self, word: Word) -> Word
        requires { IsService (F.pre self.now) (F.post self.now) }
        ensures { F.post self.now word result }
    {
        let number = word.bits();
        Word::new((self.rule)(number))
    }
}
