//! The snapshot of a job that ran.
ghost use Rattle.std.specs.Prelude.{◌≡◌, All, IfOk, map};
ghost use Rattle.kdf_theory.specs.MachineView.{state_at};
ghost use Rattle.kdf_job.specs.Shows.{shown_job, shown_slot};
ghost use Rattle.kdf_report.specs.MadeFrom.{HasProgram};
ghost use Rattle.kdf_top.specs.Snapshots.{ended, is_ended, sealed_with, snapshot_with};

use kdf_director::Machine;
use kdf_job::Job;
use kdf_report::{journal_text, sections};
use kdf_snapshot::dump;
use kdf_text::LINE_END;
use std::alloc::{AllocError, Global};

/// The snapshot of a job of these bytes and of a machine that was loaded from it: the bytes, the journal, and what is sealed. The
/// machine has the program of each slot.
pub fn snapshot(
    alloc: Global,
    job_bytes: &[u8],
    job: &Job,
    machine: &Machine,
) -> Result<Vec<u8>, AllocError>
    requires { All (HasProgram machine.now) (map shown_slot job.now.slots.items) }
    ensures { IfOk result (λ bytes. bytes.items
        ≡ snapshot_with job_bytes.now (shown_job job.now) machine.now.journal (state_at machine.now)) }
{
    let mut out = ended(alloc, job_bytes)?;
    out.extend_from_slice(b"JOURNAL\n".as_slice())?;
    out.extend_from_slice(&journal_text(alloc, machine.journal())?)?;
    out.extend_from_slice(b"SEAL\n".as_slice())?;
    out.extend_from_slice(&sealed_text(alloc, job, machine)?)?;
    Ok(out)
}

/// A text, with the end of its last line, which that may lack.
fn ended(alloc: Global, bytes: &[u8]) -> Result<Vec<u8>, AllocError>
    ensures { IfOk result (λ out. out.items ≡ ended bytes.now) }
{
    let mut out = Vec::new(alloc);
    out.extend_from_slice(bytes)?;
    if !is_ended(bytes) {
        out.extend_from_slice(b"\n".as_slice())?;
    }
    Ok(out)
}

/// Whether the last line of a text has its end.
fn is_ended(bytes: &[u8]) -> bool
    ensures { result ≡ is_ended bytes.now }
{
    !bytes.is_empty() && bytes[bytes.len() - 1] == LINE_END
}

/// What is sealed: the sections of all slots of a job, the words of its programs, and the line that ends a snapshot. The machine was
/// loaded from the job, and has the program of each slot.
pub fn sealed_text(alloc: Global, job: &Job, machine: &Machine) -> Result<Vec<u8>, AllocError>
    requires { All (HasProgram machine.now) (map shown_slot job.now.slots.items) }
    ensures { IfOk result (λ bytes. bytes.items ≡ sealed_with (shown_job job.now) (state_at machine.now)) }
{
    let mut out = sections(alloc, job, machine)?;
    out.extend_from_slice(&dump(alloc, job, machine)?)?;
    out.extend_from_slice(b"ENDSNAPSHOT\n".as_slice())?;
    Ok(out)
}
