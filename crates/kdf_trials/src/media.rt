//! Punches and printers with a block are copied.
use kdf_media::{Printer, Punch};
use std::alloc::{AllocError, Global};
use std::process::Abort;
use std::test::Fail;

/// The codes of a block.
const CODES: [u8; 3] = [0o41, 0o42, 0o75];

/// A punch with a block.
fn punched(alloc: Global) -> Result<Punch, AllocError> {
    let mut punch = Punch::new(alloc);
    punch.reserve()?;
    punch.finish(Vec::from_slice(alloc, &CODES)?);
    Ok(punch)
}

/// A printer with a block.
fn printed(alloc: Global) -> Result<Printer, AllocError> {
    let mut printer = Printer::new(alloc);
    printer.reserve()?;
    printer.finish(Vec::from_slice(alloc, &CODES)?);
    Ok(printer)
}

/// The copy of the punch has its block.
fn punches_are_copied(rt: &impl Abort, alloc: Global) -> Result<(), AllocError> {
    let punch = punched(alloc)?.copy(alloc)?;
    assert!(rt; punch.blocks().len() == 1);
    assert!(rt; punch.blocks()[0].codes() == CODES.as_slice());
    Ok(())
}

/// The copy of the printer has its block.
fn printers_are_copied(rt: &impl Abort, alloc: Global) -> Result<(), AllocError> {
    let printer = printed(alloc)?.copy(alloc)?;
    assert!(rt; printer.blocks().len() == 1);
    assert!(rt; printer.blocks()[0].codes() == CODES.as_slice());
    Ok(())
}

#[test]
fn copies_have_the_blocks(rt: HostRuntime) -> Result<(), Fail> {
    punches_are_copied(&rt, rt.alloc())?;
    printers_are_copied(&rt, rt.alloc())?;
    Ok(())
}
