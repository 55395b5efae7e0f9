//! A served program is put away before its answer and after it, resumed, and checked.
ghost use Rattle.kdf_service.specs.Rules.{IsService};

use super::{JOB, Outside, REPORT, answer_with};
use kdf_service::Service;
use kdf_snapshot::SnapshotFault;
use kdf_top::Status;
use std::alloc::{AllocError, Global};
use std::process::Abort;
use std::test::Fail;

/// The job up to its schedule.
const FRONT: &[u8] = b"KDF9 JOB 1\n\
    SLOT 0\nSTORE 32\nDECK\nPROGRAM; SET 7; SETB100; OUT; ZERO; OUT; FINISH;\nENDDECK\nSERVICE\n\
    SCHEDULE\n";

/// Schedules that are saved, and the rest of each: before the order that asks, and after it.
const CUTS: [(&[u8], &[u8]); 2] = [
    (b"ORDERS 3\nENDJOB\n", b"ORDERS 7\nENDJOB\n"),
    (b"ORDERS 4\nENDJOB\n", b"ORDERS 6\nENDJOB\n"),
];

/// The verdict on a report that is right.
const VERDICT: &[u8] = b"KDF9 CHECK\nYES\nENDREPORT\n";

/// The line of the answer isn't what another service answers.
const REFUSED: Status = Status::Snapshot {
    fault: SnapshotFault::JournalDiffers,
    line: 13,
};

/// Nothing fails, and there is room for all.
const WHOLE: Outside = Outside {
    read: 0,
    put: 0,
    room: 10_000,
};

/// One text after the other.
fn joined(alloc: Global, first: &[u8], second: &[u8]) -> Result<Vec<u8>, AllocError> {
    let mut text = Vec::from_slice(alloc, first)?;
    text.extend_from_slice(second)?;
    Ok(text)
}

/// What a command that is done writes over a text.
fn done<F: Fn(u64) -> u64>(
    rt: &impl Abort,
    alloc: Global,
    word: &str,
    text: &[u8],
    service: &Service<F>,
) -> Result<Vec<u8>, AllocError>
    requires { IsService (F.pre service.now) (F.post service.now) }
{
    let (status, bytes) = answer_with(alloc, &[word], text, WHOLE, service)?;
    assert!(rt; status == Status::Done, "{word}");
    Ok(bytes)
}

/// The snapshot of the job with this schedule, and further lines after it.
fn saved(rt: &impl Abort, alloc: Global, cut: (&[u8], &[u8])) -> Result<Vec<u8>, AllocError> {
    let service = Service::new(|_word: u64| 12);
    let job = joined(alloc, FRONT, cut.0)?;
    let snapshot = done(rt, alloc, "save", &job, &service)?;
    joined(alloc, &snapshot, cut.1)
}

/// The run goes on to the report of the whole.
fn resumes(rt: &impl Abort, alloc: Global, cut: (&[u8], &[u8])) -> Result<(), AllocError> {
    let service = Service::new(|_word: u64| 12);
    let text = saved(rt, alloc, cut)?;
    let report = done(rt, alloc, "resume", &text, &service)?;
    assert_eq!(rt; report.as_slice(), REPORT.as_bytes());
    Ok(())
}

#[test]
fn a_served_program_is_resumed(rt: HostRuntime) -> Result<(), Fail> {
    for cut in CUTS {
        resumes(&rt, rt.alloc(), cut)?;
    }
    Ok(())
}

#[test]
fn a_served_program_is_resumed_with_its_service(rt: HostRuntime) -> Result<(), Fail> {
    let service = Service::new(|_word: u64| 13);
    let text = saved(&rt, rt.alloc(), CUTS[1])?;
    let (status, _line) = answer_with(rt.alloc(), &["resume"], &text, WHOLE, &service)?;
    assert!(rt; status == REFUSED);
    Ok(())
}

#[test]
fn the_report_of_a_served_program_is_checked(rt: HostRuntime) -> Result<(), Fail> {
    let service = Service::new(|_word: u64| 12);
    let text = joined(rt.alloc(), JOB.as_bytes(), REPORT.as_bytes())?;
    let verdict = done(&rt, rt.alloc(), "check", &text, &service)?;
    assert_eq!(rt; verdict.as_slice(), VERDICT);
    Ok(())
}
