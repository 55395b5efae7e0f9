ghost use Rattle.std.specs.Prelude.{◌≡◌, ◌≤◌, [], Some, vec_len};

use crate::calls::Calls;
use crate::faults::Faults;
use crate::{Failed, Source};

/// A source that gives bytes of memory, and fails as it is asked to.
#[derive(Drop)]
pub struct MemorySource {
    bytes: Vec<u8>,
    at: usize,
    most: usize,
    calls: Calls,
    faults: Faults,
    ghost within: { at ≤ vec_len bytes },
    ghost gives: { 1 ≤ most },
}

impl MemorySource {
    ghost use Rattle.kdf_io.specs.Memory.{input_of};

    /// A source of `bytes` that gives at most `most` of them a read, at least 1, and fails at exactly
    /// the calls whose numbers, counted from 1, are in `fail`.
    pub fn new(bytes: Vec<u8>, most: usize, fail: Vec<u32>) -> MemorySource
        requires { 1 ≤ most }
        ensures input { input_of result ≡ record {
          left = bytes.items;
          most = most;
          fail = fail.items;
          calls = 0;
          faults = 0;
        } }
        ensures left { ⟦<MemorySource as Source>⟧.left result ≡ Some bytes.items }
        ensures faults { ⟦<MemorySource as Source>⟧.faults result ≡ 0 }
        ensures steady { fail.items ≡ [] → ⟦<MemorySource as Source>⟧.steady result }
    {
        MemorySource {
            bytes,
            at: 0,
            most,
            calls: Calls::new(fail),
            faults: Faults::new(),
        }
    }
}

impl Source for MemorySource {
    ghost use Rattle.std.specs.Prelude.{◌≡◌, ◌<◌, ◌↔◌, [], ◌++◌, Some, min, length, take, drop, Contains, IsErr, IfOk, OnErr};
    ghost use Rattle.kdf_io.specs.Counts.{one_more};
    ghost use Rattle.kdf_io.specs.Memory.{input_of};

    ghost left = { λ s. Some (input_of s).left };

    ghost faults = { λ s. (input_of s).faults };

    ghost steady = { λ s. (input_of s).fail ≡ [] };

    ghost bounded = { λ s. s.faults.bounded };

    fn read(&mut self, into: &mut [u8]) -> Result<usize, Failed>
        ensures fails { IsErr result
            ↔ Contains (input_of self.old).fail (one_more (input_of self.old).calls) }
        ensures gives { IfOk result (λ n.
            n ≡ min (min (length into.old) (input_of self.old).most) (length (input_of self.old).left)) }
        ensures took { IfOk result
            (λ n. (input_of self.old).left ≡ take n into.new ++ (input_of self.new).left) }
        ensures ended { IfOk result
            (λ n. n ≡ 0 → 0 < length into.new → (input_of self.new).left ≡ []) }
        ensures ok { IfOk result (λ n. input_of self.new ≡ record (input_of self.old) {
          left = drop n (input_of self.old).left;
          calls = one_more (input_of self.old).calls;
        }) }
        ensures err { OnErr result (input_of self.new ≡ record (input_of self.old) {
          calls = one_more (input_of self.old).calls;
          faults = one_more (input_of self.old).faults;
        }) }
    {
        if self.calls.is_next_to_fail() {
            return Err(self.faults.fail());
        }
        let left = &self.bytes[self.at..];
        let given = into.len().min(self.most).min(left.len());
        into[..given].copy_from_slice(&left[..given]);
        self.at += given;
        Ok(given)
    }
}
