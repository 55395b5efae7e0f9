//! The program `kdf9`: hands the words after its name, standard input, standard output and the service of this installation to
//! the top call, and ends with the number of its status.
#![tactic(auto)]

use kdf_io::{ReadFrom, WriteTo};
use kdf_service::Service;
use kdf_top::{Status, run_with};
use std::alloc::AllocError;
use std::env;
use std::io::ErrorKind;
use std::process::ExitCode;
use std::rt::Env;

/// The bits of a half word.
const HALF_WORD: u64 = 0o7777_7777;

fn main(rt: HostRuntime) -> ExitCode {
    let Ok(words) = words(&rt) else {
        return ExitCode::from(Status::Memory.code());
    };
    let mut source = ReadFrom::new(rt.stdin());
    let mut sink = WriteTo::new(rt.stdout());
    // It exchanges the two half words.
    let service = Service::new(|word: u64| (word & HALF_WORD) << 24 | word >> 24);
    let outcome = run_with(rt.alloc(), &words, &mut source, &mut sink, &service);
    let code = outcome.status.code();
    outcome.close();
    ExitCode::from(code)
}

/// The words after the program's name. Words of which one is no text are no command, and are taken
/// as no words at all.
fn words(rt: &(impl Env + AllocGlobal)) -> Result<Vec<String>, AllocError> {
    match env::args(rt) {
        Ok(mut args) => {
            args.next();
            args.collect(rt.alloc())
        }
        Err(error) if error.kind() == ErrorKind::OutOfMemory => Err(AllocError),
        Err(_) => Ok(Vec::new(rt.alloc())),
    }
}
