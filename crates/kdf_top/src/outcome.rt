//! What a call of `run_with` answers.

use crate::Status;
use kdf_director::Machine;

/// How a call of `run_with` ended, and the machine that ran the job, where it is done.
pub struct Outcome {
    /// How it ended.
    pub status: Status,
    /// The machine after its last order.
    pub machine: Option<Machine>,
}

impl Outcome {
    /// Gives up the machine.
    pub fn close(self) {
        let Outcome { status: _, machine } = self;
        if let Some(machine) = machine {
            machine.close();
        }
    }
}
