//! A lease.
ghost use Rattle.std.specs.Prelude.{◌≡◌, ℕ, ◌+◌, ◌-◌, ◌*◌, ◌/◌, ◌%◌, ◌<◌, ◌≤◌, nat_le, nat_lt, ◌&&◌};
ghost use Rattle.std.specs.Prelude.{[], All, length, map, slice_index_or, take};
ghost use Rattle.kdf_word.specs.Characters.{words_of};
ghost use Rattle.kdf_lockout.specs.Groups.{Lent, lent_word, with_lent_word, with_lent_words};
ghost use Rattle.kdf_lockout.specs.Groups.{is_lent, IsLent, words_in, AreAllHere};

use crate::Group;
use arrayvec::ArrayVec;
use kdf_word::Word;
use std::marker::Model;

/// Groups that follow one another and are out of their store, with their words. It can't be cloned or dropped: `Store::unlock` spends it.
pub struct Lease {
    first: usize,
    groups: ArrayVec<Option<Group>, 129>,
}

impl Model for Lease {
    ghost Value = { Lent };

    ghost view = { λ l. record { first = l.first; groups = map words_in l.groups.items } };

    ghost invariant = { λ l. AreAllHere l.groups.items };
}

impl Lease {
    /// The lease of these groups, of which none is missing.
    pub(crate) fn new(first: usize, groups: ArrayVec<Option<Group>, 129>) -> Lease
        requires { AreAllHere groups.items }
        ensures { result ≡ record { first = first; groups = map words_in groups.items } }
    {
        Lease { first, groups }
    }

    /// The number of the first group, and the groups.
    pub(crate) fn parts(self) -> (usize, ArrayVec<Option<Group>, 129>)
        ensures first { result.0 ≡ self.first }
        ensures groups { map words_in result.1.items ≡ self.groups }
        ensures here { AreAllHere result.1.items }
    {
        let Lease { first, groups } = self;
        (first, groups)
    }

    /// How many groups it has.
    pub fn count(&self) -> usize
        ensures { result ≡ length self.now.groups }
    {
        self.groups.len()
    }

    /// Group `i` of them in rising order, from 0.
    pub fn group(&self, i: usize) -> &Group
        requires { i < length self.now.groups }
        ensures { result.now ≡ slice_index_or self.now.groups i [] }
    {
        match &self.groups[i] {
            Some(group) => group,
            None => unreachable!(),
        }
    }

    /// Whether it has the group of a place of the store.
    pub fn has(&self, place: usize) -> bool
        ensures { result ≡ is_lent self.now place }
    {
        place / 32 >= self.first && place / 32 - self.first < self.groups.len()
    }

    /// The word at a place of the store whose group is in the lease.
    pub fn read(&self, place: usize) -> Word
        requires { IsLent self.now place }
        ensures { result ≡ lent_word self.now place }
    {
        match &self.groups[place / 32 - self.first] {
            Some(group) => group.word(place % 32),
            None => unreachable!(),
        }
    }

    /// Writes a word at a place of the store whose group is in the lease.
    pub fn write(&mut self, place: usize, word: Word)
        requires { IsLent self.old place }
        ensures written { self.new ≡ with_lent_word self.old place word }
        ensures first { self.new.first ≡ self.old.first }
        ensures count { length self.new.groups ≡ length self.old.groups }
    {
        match &mut self.groups[place / 32 - self.first] {
            Some(group) => group.set_word(place % 32, word),
            None => unreachable!(),
        }
    }

    /// Writes the first `count` words that these characters make from a place on, all of them in one group, which is
    /// in the lease.
    pub fn write_codes(&mut self, place: usize, codes: &[u8], count: usize)
        requires lent { IsLent self.old place }
        requires group { place % 32 + count ≤ 32 }
        requires small { All (λ c. c < 64) codes.now }
        requires given { 8 * count < length codes.now + 8 }
        ensures written { self.new
            ≡ with_lent_words self.old place (take count (words_of codes.now)) }
        ensures first { self.new.first ≡ self.old.first }
        ensures count { length self.new.groups ≡ length self.old.groups }
    {
        match &mut self.groups[place / 32 - self.first] {
            Some(group) => group.set_codes(place % 32, codes, count),
            None => unreachable!(),
        }
    }
}
