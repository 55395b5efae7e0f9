//! The store.
ghost use Rattle.std.specs.Prelude.{◌≡◌, [], ℕ, ◌+◌, ◌/◌, ◌<◌, ◌≤◌, ◌++◌, List, length, take, drop, replicate, map};
ghost use Rattle.std.specs.Prelude.{Option, Some, None, IfOk, IfErr, IfSome, if◌then◌else◌};
ghost use Rattle.kdf_lockout.specs.Groups.{is_out, word_here, with_word, first_out_of, without_groups, lent_groups, with_groups, touched, IsOut};
ghost use Rattle.arrayvec.specs.ArrayVec.{array_vec_len};

use crate::{Group, Lease};
use arrayvec::ArrayVec;
use kdf_word::Word;
use std::alloc::{AllocError, Global};
use std::marker::Model;

/// The group that is out.
#[derive(Clone, Copy, Debug, PartialEq, Eq)]
pub struct Locked {
    pub group: usize,
}

/// A store of groups, which contracts see as a list: the words of a group that is here, and None for one that is out.
#[derive(Drop)]
pub struct Store {
    groups: Vec<Option<Group>>,
}

impl Model for Store {
    ghost Value = { List (Option (List ℕ)) };

    ghost view = { λ s. s.groups.items };
}

impl Store {
    /// A store of so many groups, all words zero, none out.
    pub fn new(alloc: Global, groups: usize) -> Result<Store, AllocError>
        ensures { IfOk result (λ s. s ≡ replicate groups (Some (replicate 32 0))) }
    {
        let mut cells = Vec::with_capacity(alloc, groups)?;
        for _i in 0..groups {
            cells.push(Some(Group::zeros(alloc)?))?;
        }
        Ok(Store { groups: cells })
    }

    /// A store without a group. It takes no memory.
    pub fn none(alloc: Global) -> Store
        ensures { result ≡ [] }
    {
        Store {
            groups: Vec::new(alloc),
        }
    }

    /// The word at a place, unless its group is out.
    pub fn read(&self, place: usize) -> Result<Word, Locked>
        requires { place / 32 < length self.now }
        ensures { result ≡
            (if is_out self.now (place / 32) then Err (record { group = place / 32 })
            else Ok (word_here self.now place)) }
    {
        match &self.groups[place / 32] {
            Some(group) => Ok(group.word(place % 32)),
            None => Err(Locked { group: place / 32 }),
        }
    }

    /// Writes a word, unless its group is out.
    pub fn write(&mut self, place: usize, word: Word) -> Result<(), Locked>
        requires { place / 32 < length self.old }
        ensures result { result
            ≡ (if is_out self.old (place / 32) then Err (record { group = place / 32 }) else Ok tt) }
        ensures written { self.new ≡
            (if is_out self.old (place / 32) then self.old else with_word self.old place word) }
        ensures size { length self.new ≡ length self.old }
    {
        match &mut self.groups[place / 32] {
            Some(group) => {
                group.set_word(place % 32, word);
                Ok(())
            }
            None => Err(Locked { group: place / 32 }),
        }
    }

    /// The least group of the places from `from` to `to` that is out.
    pub fn first_out(&self, from: usize, to: usize) -> Option<usize>
        requires order { from ≤ to }
        requires inside { to / 32 < length self.now }
        ensures value { result ≡ first_out_of self.now (from / 32) (touched from to) }
        ensures within { IfSome result (λ g. g ≤ to / 32) }
    {
        first_empty(&self.groups, from / 32, to / 32 + 1 - from / 32)
    }

    /// Moves the groups of the places from `from` to `to` into a lease: at most 129 of them, without memory. Where one is out, it answers the
    /// least that is, and nothing moves.
    pub fn lock(&mut self, from: usize, to: usize) -> Result<Lease, Locked>
        requires order { from ≤ to }
        requires inside { to / 32 < length self.old }
        requires few { to / 32 < from / 32 + 129 }
        ensures lease { IfOk result (λ l. l ≡ lent_groups self.old (from / 32) (touched from to)) }
        ensures groups { IfOk result
            (λ _. self.new ≡ without_groups self.old (from / 32) (touched from to)) }
        ensures taken { IfOk result (λ l. IsOut self.new l) }
        ensures first { IfOk result (λ l. l.first ≡ from / 32) }
        ensures count { IfOk result (λ l. length l.groups ≡ touched from to) }
        ensures free { IfOk result
            (λ _. first_out_of self.old (from / 32) (touched from to) ≡ None) }
        ensures out { IfErr result
            (λ e. first_out_of self.old (from / 32) (touched from to) ≡ Some e.group) }
        ensures size { length self.new ≡ length self.old }
        ensures kept { IfErr result (λ _. self.new ≡ self.old) }
    {
        let first = from / 32;
        let count = to / 32 + 1 - first;
        match first_empty(&self.groups, first, count) {
            Some(group) => Err(Locked { group }),
            None => Ok(Lease::new(first, take_groups(&mut self.groups, first, count))),
        }
    }

    /// Moves the groups of a lease, which are out of this store, back into it with their words. It takes no memory.
    pub fn unlock(&mut self, lease: Lease)
        requires { IsOut self.old lease }
        ensures back { self.new ≡ with_groups self.old lease }
        ensures size { length self.new ≡ length self.old }
    {
        let (first, groups) = lease.parts();
        put_groups(&mut self.groups, first, groups);
    }
}

/// The first of `count` groups from `first` on that is out.
fn first_empty(groups: &[Option<Group>], first: usize, count: usize) -> Option<usize>
    requires { first + count ≤ length groups.now }
    ensures value { result ≡ first_out_of groups.now first count }
    ensures within { IfSome result (λ g. g < first + count) }
{
    for k in 0..count {
        if groups[first + k].is_none() {
            return Some(first + k);
        }
    }
    None
}

/// Moves `count` groups out of the store.
fn take_groups(
    groups: &mut [Option<Group>],
    first: usize,
    count: usize,
) -> ArrayVec<Option<Group>, 129>
    requires inside { first + count ≤ length groups.old }
    requires few { count ≤ 129 }
    ensures taken { result.items ≡ take count (drop first groups.old) }
    ensures left { groups.new ≡
        take first groups.old ++ (replicate count None ++ drop (first + count) groups.old) }
{
    let mut taken = ArrayVec::new();
    for k in 0..count {
        taken.push(groups[first + k].take());
    }
    taken
}

/// Moves groups into the store.
fn put_groups(groups: &mut [Option<Group>], first: usize, mut back: ArrayVec<Option<Group>, 129>)
    requires inside { first + array_vec_len back ≤ length groups.old }
    ensures { groups.new ≡
        take first groups.old ++ (back.items ++ drop (first + array_vec_len back) groups.old) }
{
    while let Some(group) = back.pop() {
        groups[first + back.len()] = group;
    }
}
