//! The fields of a machine and of what it is made of, by patterns that name each field and each variant: with one more,
//! or one of another name, this doesn't compile.
use crate::Machine;
use kdf_job::Job;
use kdf_places::Place;
use kdf_yard::{Loaded, Program, Stint};
use std::test::Fail;

/// Takes a slot apart.
fn of_slot(slot: &Loaded) {
    let Loaded {
        p: _,
        size: _,
        words: _,
        devices: _,
        pool: _,
        served: _,
    } = slot;
}

/// Takes a stint apart.
fn of_stint(stint: &Stint) {
    let Stint {
        d: _,
        given: _,
        device: _,
    } = stint;
}

/// Takes a program apart, and its stints.
fn of_program(program: &Program) {
    let Program {
        p: _,
        registers: _,
        claimed: _,
        spooled: _,
        stints,
        hold: _,
    } = program;
    for stint in stints {
        of_stint(stint);
    }
}

/// Takes a place apart.
fn of_place(place: &Place) {
    match place {
        Place::Absent => {}
        Place::Idle { device: _, ring: _ } => {}
        Place::Busy { p: _, transfer: _ } => {}
    }
}

/// Takes a machine apart, and what it is made of.
fn of_machine(machine: &Machine) {
    let Machine {
        alloc: _,
        slots,
        windows: _,
        store: _,
        programs,
        devices,
        journal: _,
        room: _,
    } = machine;
    for slot in slots {
        of_slot(slot);
    }
    for program in programs {
        of_program(program);
    }
    for place in devices {
        of_place(place);
    }
}

#[test]
fn fields(rt: HostRuntime) -> Result<(), Fail> {
    let alloc = rt.alloc();
    let job = Job {
        slots: Vec::new(alloc),
        events: Vec::new(alloc),
        pool: Vec::new(alloc),
    };
    let machine = Machine::load(alloc, &job, &[])?;
    of_machine(&machine);
    machine.close();
    Ok(())
}
