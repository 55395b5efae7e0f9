ghost use Rattle.std.specs.Prelude.{◌≡◌, ◌≤◌, [], Some, IfOk, vec_len, vec_capacity};

use crate::calls::Calls;
use crate::faults::Faults;
use crate::{Failed, Sink};
use std::alloc::{AllocError, Global};

/// A sink that keeps its bytes in memory, and fails as it is asked to.
#[derive(Drop)]
pub struct MemorySink {
    bytes: Vec<u8>,
    room: usize,
    most: usize,
    calls: Calls,
    faults: Faults,
    ghost fits: { room ≤ vec_capacity bytes },
    ghost within: { vec_len bytes ≤ room },
    ghost takes: { 1 ≤ most },
}

impl MemorySink {
    ghost use Rattle.kdf_io.specs.Memory.{output_of};

    /// A sink with room for `room` bytes in all that takes at most `most` of them a put, at least 1.
    ///
    /// It fails at exactly the calls whose numbers, counted from 1, are in `fail`, and at those that
    /// bring a nonempty piece when the room is used up.
    ///
    /// # Errors
    ///
    /// There was no memory for the room.
    pub fn new(
        alloc: Global,
        room: usize,
        most: usize,
        fail: Vec<u32>,
    ) -> Result<MemorySink, AllocError>
        requires { 1 ≤ most }
        ensures output { IfOk result (λ sink. output_of sink ≡ record {
          written = [];
          room = room;
          most = most;
          fail = fail.items;
          calls = 0;
          faults = 0;
        }) }
        ensures written { IfOk result (λ sink. ⟦<MemorySink as Sink>⟧.written sink ≡ Some []) }
        ensures faults { IfOk result (λ sink. ⟦<MemorySink as Sink>⟧.faults sink ≡ 0) }
        ensures room { fail.items ≡ []
            → IfOk result (λ sink. ⟦<MemorySink as Sink>⟧.room sink ≡ room) }
    {
        Ok(MemorySink {
            bytes: Vec::with_capacity(alloc, room)?,
            room,
            most,
            calls: Calls::new(fail),
            faults: Faults::new(),
        })
    }

    /// The bytes that were written.
    pub fn bytes(&self) -> &[u8]
        ensures { ⟦<MemorySink as Sink>⟧.written self.now ≡ Some result.now }
    {
        self.bytes.as_slice()
    }
}

impl Sink for MemorySink {
    ghost use Rattle.std.specs.Prelude.{◌≡◌, ◌-◌, ◌<◌, ◌⊎◌, ◌↔◌, ◌++◌, Some, min, length, take, Contains, IsErr, IfOk, OnErr};
    ghost use Rattle.kdf_io.specs.Counts.{one_more};
    ghost use Rattle.kdf_io.specs.Memory.{output_of, sure_room};

    ghost written = { λ s. Some (output_of s).written };

    ghost faults = { λ s. (output_of s).faults };

    ghost room = { λ s. sure_room (output_of s).fail ((output_of s).room - length (output_of s).written) };

    ghost bounded = { λ s. s.faults.bounded };

    fn put(&mut self, piece: &[u8]) -> Result<usize, Failed>
        ensures fails { IsErr result
            ↔ (Contains (output_of self.old).fail (one_more (output_of self.old).calls)
            ⊎ ((0 < length piece.now)
            × (length (output_of self.old).written ≡ (output_of self.old).room))) }
        ensures takes { IfOk result (λ n.
            n ≡ min (min (length piece.now) (output_of self.old).most)
            ((output_of self.old).room - length (output_of self.old).written)) }
        ensures ok { IfOk result (λ n. output_of self.new ≡ record (output_of self.old) {
          written = (output_of self.old).written ++ take n piece.now;
          calls = one_more (output_of self.old).calls;
        }) }
        ensures err { OnErr result (output_of self.new ≡ record (output_of self.old) {
          calls = one_more (output_of self.old).calls;
          faults = one_more (output_of self.old).faults;
        }) }
    {
        let numbered = self.calls.is_next_to_fail();
        let room = self.room - self.bytes.len();
        if numbered || (room == 0 && !piece.is_empty()) {
            return Err(self.faults.fail());
        }
        let taken = piece.len().min(self.most).min(room);
        self.bytes.extend_from_slice(&piece[..taken]).unwrap();
        Ok(taken)
    }
}
