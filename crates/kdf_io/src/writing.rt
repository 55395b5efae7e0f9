ghost use Rattle.std.specs.Prelude.{◌≡◌, ◌+◌, ◌≤◌, length, IsOk, OnOk, OnErr};
ghost use Rattle.kdf_io.specs.Outside.{HasRisen, Added, AddedFront};

use crate::{Failed, Sink};

/// Writes all of `bytes`, in as many calls as the sink needs.
///
/// # Errors
///
/// `Failed` comes only where the count of faults rose. A front of the bytes may be written then.
pub fn write_all<K: Sink>(sink: &mut K, bytes: &[u8]) -> Result<(), Failed>
    ensures all { OnOk result (Added (K.written sink.old) bytes.now (K.written sink.new)) }
    ensures failed { OnErr result (HasRisen (K.faults sink.old) (K.faults sink.new)) }
    ensures front { OnErr result (AddedFront (K.written sink.old) bytes.now (K.written sink.new)) }
    ensures never_falls { K.faults sink.old ≤ K.faults sink.new }

    // Bytes that there is room for go without a fault, and take no more room than they are.
    ensures room_takes { length bytes.now ≤ K.room sink.old → IsOk result }
    ensures room_count { length bytes.now ≤ K.room sink.old
        → K.faults sink.new ≡ K.faults sink.old }
    ensures room_left { OnOk result (K.room sink.old ≤ K.room sink.new + length bytes.now) }
{
    let mut done = 0;
    while done < bytes.len() {
        done += sink.put(&bytes[done..])?;
    }
    Ok(())
}
