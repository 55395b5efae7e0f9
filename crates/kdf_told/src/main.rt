//! A program for tests: writes the facts that the words after its name ask for, over the job that stands in standard input.
#![tactic(auto)]

use kdf_facts::facts;
use kdf_service::Service;
use std::io::{Read, Write};
use std::process::ExitCode;
use std::{env, io};

/// The bits of a half word.
const HALF_WORD: u64 = 0o7777_7777;

fn main(rt: HostRuntime) -> ExitCode {
    match tell(&rt) {
        Ok(()) => ExitCode::from(0),
        Err(_) => ExitCode::from(1),
    }
}

/// Reads all of standard input, and writes its facts.
fn tell(rt: &HostRuntime) -> io::Result<()> {
    let mut words = Vec::new(rt.alloc());
    let mut args = env::args(rt)?;
    args.next();
    for word in args {
        words.push(word)?;
    }
    let mut bytes = Vec::new(rt.alloc());
    rt.stdin().read_to_end(&mut bytes)?;
    // It exchanges the two half words.
    let service = Service::new(|word: u64| (word & HALF_WORD) << 24 | word >> 24);
    let (_status, text) = facts(rt.alloc(), &words, &bytes, &service)?;
    rt.stdout().write_all(&text)
}
