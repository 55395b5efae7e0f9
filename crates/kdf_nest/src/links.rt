//! The subroutine jump nesting store.
ghost use Rattle.std.specs.Prelude.{◌≡◌, ◌<◌, ◌≤◌, [], ◌∷◌, length, slice_index};

use crate::DEPTH;
use arrayvec::ArrayVec;
use std::marker::Model;

/// The subroutine jump nesting store: at most sixteen links, the top first. The top stands last in `links`.
#[derive(Drop)]
pub struct Links {
    links: ArrayVec<u16, DEPTH>,
}

impl Model for Links {
    ghost use Rattle.std.specs.Prelude.{◌≤◌, List, ℕ, length, reverse};

    ghost Value = { List ℕ };

    ghost view = { λ n. reverse n.links.items };

    ghost invariant = { λ n. length n.links.items ≤ 16 };
}

impl Links {
    /// The empty nest.
    pub fn new() -> Self
        ensures { result ≡ [] }
    {
        Links {
            links: ArrayVec::new(),
        }
    }

    /// How many links it has, from 0 to 16.
    pub fn depth(&self) -> usize
        ensures value { result ≡ length self.now }
        ensures most { length self.now ≤ 16 }
    {
        self.links.len()
    }

    /// Puts a link on top of fewer than sixteen.
    pub fn push(&mut self, item: u16)
        requires { length self.old < 16 }
        ensures { self.new ≡ item ∷ self.old }
    {
        self.links.push(item);
    }

    /// Takes the top off.
    pub fn pop(&mut self) -> u16
        requires { 0 < length self.old }
        ensures item { self.old ≡ result ∷ self.new }
        ensures most { length self.new < 16 }
    {
        self.links.pop().unwrap()
    }

    /// Item `i` from the top, which is item 0.
    pub fn peek(&self, i: usize) -> u16
        requires { i < length self.now }
        ensures { result ≡ slice_index self.now i }
    {
        let links = self.links.as_slice();
        links[links.len() - 1 - i]
    }
}
