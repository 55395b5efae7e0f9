ghost use Rattle.std.specs.Prelude.{◌≡◌, ◌≢◌, ◌+◌, ◌≤◌, Err, length, take, IfOk, IfErr, IfSome, OnOk, IsErrOf};
ghost use Rattle.kdf_io.specs.Outside.{HasRisen, Advances, NothingLeft};
ghost use Rattle.kdf_io.specs.Reading.{TakesAtMost, TookBefore};

use crate::{ReadEnd, Source};
use std::alloc::Global;

// Bytes asked for at a read.
const PIECE: usize = 4096;

/// Reads all bytes that are left, if they are at most `limit`.
///
/// It takes at most `limit + 1` bytes from the source.
///
/// # Errors
///
/// - `Fault` comes only where the source's count of faults rose.
/// - `Large` comes exactly where more than `limit` bytes came.
/// - `Memory` comes where there was no memory for the bytes.
///
/// The bytes that came before are taken then, and are given up.
pub fn read_all<S: Source>(alloc: Global, source: &mut S, limit: usize) -> Result<Vec<u8>, ReadEnd>
    ensures took { IfOk result
        (λ bytes. Advances (S.left source.old) bytes.items (S.left source.new)) }
    ensures ended { OnOk result (NothingLeft (S.left source.new)) }
    ensures all { IfOk result (λ bytes. IfSome (S.left source.old) (λ all. bytes.items ≡ all)) }
    ensures within { IfOk result (λ bytes. length bytes.items ≤ limit) }

    ensures fault { IsErrOf result ReadEnd.Fault
        → HasRisen (S.faults source.old) (S.faults source.new) }
    ensures took_before { IfErr result
        (λ end. TookBefore end limit (S.left source.old) (S.left source.new)) }
    ensures at_most { TakesAtMost (limit + 1) (S.left source.old) (S.left source.new) }
    ensures never_falls { S.faults source.old ≤ S.faults source.new }

    // A steady source gives its bytes, and goes on so.
    ensures steady_gives { S.steady source.old → result ≢ Err ReadEnd.Fault }
    ensures steady_count { S.steady source.old → S.faults source.new ≡ S.faults source.old }
    ensures steady_stays { S.steady source.old → S.steady source.new }
{
    let mut bytes = Vec::new(alloc);
    let mut buffer = [0; PIECE];
    loop {
        let taken = read_piece(source, &mut buffer, limit - bytes.len())?;
        if taken == 0 {
            return Ok(bytes);
        }
        bytes.extend_from_slice(&buffer[..taken])?;
    }
}

/// Reads once, and tells apart more bytes than are allowed.
fn read_piece<S: Source>(
    source: &mut S,
    buffer: &mut [u8; PIECE],
    allowed: usize,
) -> Result<usize, ReadEnd>
    ensures fits { IfOk result (λ n. n ≤ PIECE) }
    ensures within { IfOk result (λ n. n ≤ allowed) }
    ensures took { IfOk result
        (λ n. Advances (S.left source.old) (take n buffer.new) (S.left source.new)) }
    ensures ended { IfOk result (λ n. n ≡ 0 → NothingLeft (S.left source.new)) }
    ensures fault { IsErrOf result ReadEnd.Fault
        → HasRisen (S.faults source.old) (S.faults source.new) }
    ensures took_before { IfErr result
        (λ end. TookBefore end allowed (S.left source.old) (S.left source.new)) }
    ensures no_memory { result ≢ Err ReadEnd.Memory }
    ensures never_falls { S.faults source.old ≤ S.faults source.new }
    ensures steady_gives { S.steady source.old → result ≢ Err ReadEnd.Fault }
    ensures steady_count { S.steady source.old → S.faults source.new ≡ S.faults source.old }
    ensures steady_stays { S.steady source.old → S.steady source.new }
{
    let room = PIECE.min(allowed.saturating_add(1));
    match source.read(&mut buffer[..room]) {
        Ok(taken) if taken > allowed => Err(ReadEnd::Large),
        Ok(taken) => Ok(taken),
        Err(_) => Err(ReadEnd::Fault),
    }
}
