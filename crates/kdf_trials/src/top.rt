//! Whole calls over memory, with a source and a sink that fail at every call, and with several services; and a served program that is put
//! away, resumed and checked.
ghost use Rattle.kdf_service.specs.Rules.{IsService};

mod saved;
mod services;

use kdf_io::{MemorySink, MemorySource};
use kdf_service::Service;
use kdf_top::{Status, run_with};
use std::alloc::{AllocError, Global};
use std::process::Abort;
use std::test::Fail;

/// Its program asks the service about 7.
const JOB: &str = "KDF9 JOB 1\n\
    SLOT 0\n\
    STORE 32\n\
    DECK\n\
    PROGRAM; SET 7; SETB100; OUT; ZERO; OUT; FINISH;\n\
    ENDDECK\n\
    SERVICE\n\
    SCHEDULE\n\
    ORDERS 10\n\
    ENDJOB\n";

/// Its report, if the service answers 12.
const REPORT: &str = "KDF9 REPORT 1\n\
    RAN 0 4\n\
    ANSWER 0 12\n\
    RAN 0 2\n\
    ENDED 0\n\
    SLOT 0\n\
    STATE ENDED\n\
    ORDERS 6\n\
    AT 2 3\n\
    FLAGS 0 0\n\
    NEST 1 0000000000000014\n\
    LINKS 0\n\
    ENDREPORT\n";

/// Commands that read a job.
const READING: [&[&str]; 4] = [
    &["run"],
    &["alone", "0"],
    &["asm", "0"],
    &["watch", "0", "2"],
];

/// Words with the front of what is written for them.
const FRONTS: [(&[&str], &str); 3] = [
    (&["ran"], "USAGE k"),
    (&["make", "0"], "KDF9 MAKE 0\nJOB"),
    (&["watch", "0", "2"], "KDF9 WATCH 0 2\nSTOP"),
];

/// The numbers of the read and of the put that fail, or 0, and for how many bytes the sink has room.
#[derive(Clone, Copy)]
struct Outside {
    read: u32,
    put: u32,
    room: usize,
}

/// A command line.
fn line_of(alloc: Global, list: &[&str]) -> Result<Vec<String>, AllocError> {
    let mut words = Vec::new(alloc);
    for word in list {
        words.push(String::from_str(alloc, word)?)?;
    }
    Ok(words)
}

/// A job, of which a read gives one byte.
fn source_of(alloc: Global, job: &[u8], read: u32) -> Result<MemorySource, AllocError> {
    let job = Vec::from_slice(alloc, job)?;
    let fail = Vec::from_slice(alloc, &[read])?;
    Ok(MemorySource::new(job, 1, fail))
}

/// A sink of which a put takes one byte.
fn sink_of(alloc: Global, outside: Outside) -> Result<MemorySink, AllocError> {
    let fail = Vec::from_slice(alloc, &[outside.put])?;
    MemorySink::new(alloc, outside.room, 1, fail)
}

/// What a call answers, over a source and a sink of memory.
fn status_of<F: Fn(u64) -> u64>(
    alloc: Global,
    list: &[&str],
    source: &mut MemorySource,
    sink: &mut MemorySink,
    service: &Service<F>,
) -> Result<Status, AllocError>
    requires { IsService (F.pre service.now) (F.post service.now) }
{
    let words = line_of(alloc, list)?;
    let outcome = run_with(alloc, &words, source, sink, service);
    let status = outcome.status;
    outcome.close();
    Ok(status)
}

/// What a call answers, and what it writes, with a service.
fn answer_with<F: Fn(u64) -> u64>(
    alloc: Global,
    list: &[&str],
    job: &[u8],
    outside: Outside,
    service: &Service<F>,
) -> Result<(Status, Vec<u8>), AllocError>
    requires { IsService (F.pre service.now) (F.post service.now) }
{
    let mut source = source_of(alloc, job, outside.read)?;
    let mut sink = sink_of(alloc, outside)?;
    let status = status_of(alloc, list, &mut source, &mut sink, service)?;
    Ok((status, Vec::from_slice(alloc, sink.bytes())?))
}

/// What a call answers, and what it writes, where the service answers 12.
fn answer(alloc: Global, list: &[&str], outside: Outside) -> Result<(Status, Vec<u8>), AllocError> {
    let service = Service::new(|_word: u64| 12);
    answer_with(alloc, list, JOB.as_bytes(), outside, &service)
}

/// A call answers and writes this.
fn expect(
    rt: &impl Abort,
    alloc: Global,
    list: &[&str],
    outside: Outside,
    due: (Status, &[u8]),
) -> Result<(), AllocError> {
    let (status, bytes) = answer(alloc, list, outside)?;
    assert!(rt; status == due.0, "{list:?}");
    assert!(rt; bytes.as_slice() == due.1, "{list:?}");
    Ok(())
}

/// A read of the job fails.
fn read_fails(rt: &impl Abort, alloc: Global, list: &[&str], read: u32) -> Result<(), AllocError> {
    let outside = Outside {
        read,
        put: 0,
        room: 1000,
    };
    expect(rt, alloc, list, outside, (Status::ReadFault, b""))
}

/// Each read of the job fails, and the one after its last byte.
fn each_read_fails(rt: &impl Abort, alloc: Global, list: &[&str]) -> Result<(), AllocError> {
    for read in 1..=JOB.len() as u32 + 1 {
        read_fails(rt, alloc, list, read)?;
    }
    Ok(())
}

#[test]
fn each_read_of_a_job_may_fail(rt: HostRuntime) -> Result<(), Fail> {
    for list in READING {
        each_read_fails(&rt, rt.alloc(), list)?;
    }
    assert!(rt; Status::ReadFault.code() == 5);
    assert!(rt; Status::Memory.code() == 7);
    Ok(())
}

/// The put after this text fails.
fn put_fails(rt: &impl Abort, alloc: Global, list: &[&str], text: &[u8]) -> Result<(), AllocError> {
    assert!(rt; text.len() < 1000);
    let outside = Outside {
        read: 0,
        put: text.len() as u32 + 1,
        room: 1000,
    };
    expect(rt, alloc, list, outside, (Status::WriteFault, text))
}

/// There is room for this text alone.
fn room_ends(rt: &impl Abort, alloc: Global, list: &[&str], text: &[u8]) -> Result<(), AllocError> {
    let outside = Outside {
        read: 0,
        put: 0,
        room: text.len(),
    };
    expect(rt, alloc, list, outside, (Status::WriteFault, text))
}

/// Each put of the report fails, and there is room for less than the report.
fn each_put_fails(rt: &impl Abort, alloc: Global) -> Result<(), AllocError> {
    for size in 0..REPORT.len() {
        let text = &REPORT.as_bytes()[..size];
        put_fails(rt, alloc, &["run"], text)?;
        room_ends(rt, alloc, &["run"], text)?;
    }
    Ok(())
}

/// With room for just the report it is written.
fn report_fits(rt: &impl Abort, alloc: Global) -> Result<(), AllocError> {
    let outside = Outside {
        read: 0,
        put: 0,
        room: REPORT.len(),
    };
    let due = (Status::Done, REPORT.as_bytes());
    expect(rt, alloc, &["run"], outside, due)
}

#[test]
fn each_put_of_a_text_may_fail(rt: HostRuntime) -> Result<(), Fail> {
    report_fits(&rt, rt.alloc())?;
    each_put_fails(&rt, rt.alloc())?;
    for (list, front) in FRONTS {
        put_fails(&rt, rt.alloc(), list, front.as_bytes())?;
        room_ends(&rt, rt.alloc(), list, front.as_bytes())?;
    }
    assert!(rt; Status::WriteFault.code() == 6);
    Ok(())
}
