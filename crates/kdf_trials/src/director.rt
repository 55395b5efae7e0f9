//! A machine whose calls are made one by one.
use crate::jobs::{images_of, job_of};
use kdf_director::{Machine, Progress};
use kdf_journal::CALL_LIMIT;
use kdf_processor::Need;
use kdf_service::Service;
use std::alloc::{AllocError, Global};
use std::process::Abort;
use std::test::Fail;

/// Its program reads two words of a tape and asks for the time, then fetches the first word, and ends. Two events may be entered.
const JOB: &str = "KDF9 JOB 1\n\
    SLOT 0\n\
    STORE 64\n\
    DECK\n\
    PROGRAM V0; V0=Q0/32/33; SET 2; SET 5; OUT; V0; =Q1; =C1; PRQ1; SET 9; OUT; E32; ZERO; OUT; FINISH;\n\
    ENDDECK\n\
    DEVICE 3 TR\n\
    +ABCDEFGHIJKLMNOP\n\
    SCHEDULE\n\
    CLOCK 50\n\
    END 3\n\
    ENDJOB\n";

/// So many calls, each of which comes to this.
fn call(
    rt: &impl Abort,
    machine: &mut Machine,
    count: u32,
    due: Progress,
) -> Result<(), AllocError> {
    let service = Service::new(|word: u64| word);
    for _ in 0..count {
        assert!(rt; machine.journal().calls() < CALL_LIMIT);
        let progress = machine.order_with(&service)?;
        assert!(rt; progress == due);
    }
    Ok(())
}

/// It is 50.
fn set_clock(rt: &impl Abort, machine: &mut Machine) {
    assert!(rt; machine.room() == 2 && machine.journal().clock() == 0);
    machine.clock(50);
}

/// The transfer of device 3 ends.
fn end_transfer(rt: &impl Abort, machine: &mut Machine) {
    assert!(rt; machine.room() == 1);
    machine.end(3);
}

/// The program waits for the word that it fetches.
fn comes_to_its_wait(rt: &impl Abort, machine: &mut Machine) -> Result<(), AllocError> {
    call(rt, machine, 10, Progress::Ran(0))?;
    call(rt, machine, 1, Progress::Held(0, Need::Group(1)))?;
    call(rt, machine, 2, Progress::Idle)
}

/// Its transfer has two words to move, in one group, of which none has moved.
fn is_in_flight(rt: &impl Abort, machine: &Machine) {
    assert!(rt; machine.journal().pending(3) == Some((0, 8)));
    assert!(rt; machine.journal().moved(3) == 0);
    let Some(transfer) = machine.transfer(3) else {
        panic!(rt; "a transfer is in flight");
    };
    assert!(rt; transfer.total() == 2 && transfer.moved() == 0);
    assert!(rt; transfer.lease().map(|lease| lease.count()) == Some(1));
}

/// The program goes on to its end.
fn comes_to_its_end(rt: &impl Abort, machine: &mut Machine) -> Result<(), AllocError> {
    call(rt, machine, 3, Progress::Ran(0))?;
    call(rt, machine, 2, Progress::AllEnded)
}

/// Of the program the journal has 13 orders, and the time that it was answered.
fn is_told(rt: &impl Abort, alloc: Global, machine: &Machine) -> Result<(), AllocError> {
    let journal = machine.journal();
    let answers = journal.answers(alloc, 0)?;
    assert!(rt; journal.ran(0) == 13);
    assert!(rt; answers.as_slice() == [50].as_slice());
    Ok(())
}

/// The whole run.
fn run(rt: &impl Abort, alloc: Global, machine: &mut Machine) -> Result<(), AllocError> {
    set_clock(rt, machine);
    comes_to_its_wait(rt, machine)?;
    is_in_flight(rt, machine);
    end_transfer(rt, machine);
    comes_to_its_end(rt, machine)?;
    is_told(rt, alloc, machine)
}

#[test]
fn calls_are_made_one_by_one(rt: HostRuntime) -> Result<(), Fail> {
    let job = job_of(&rt, rt.alloc(), JOB)?;
    let images = images_of(rt.alloc(), &job)?;
    let mut machine = Machine::load(rt.alloc(), &job, &images)?;
    let ended = run(&rt, rt.alloc(), &mut machine);
    machine.close();
    ended?;
    Ok(())
}
