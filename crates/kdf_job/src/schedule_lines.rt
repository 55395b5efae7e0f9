//! Lines of a schedule, each taken after the events so far.
ghost use Rattle.std.specs.Prelude.{◌≡◌, ◌∷◌, [], Ok, OnOk, codes};
ghost use Rattle.kdf_schedule.specs.Events.{IsInRange};
ghost use Rattle.kdf_job.specs.Forms.{AnEndJob, AnEvent, alone, first_told, told_at};
ghost use Rattle.kdf_job.specs.Taking.{TakesEvent};
ghost use Rattle.kdf_job.specs.WellFormed.{IsSchedule};
ghost use Rattle.kdf_job.specs.declared.line_place.LinePlace.TheVariants.{InSchedule};

use crate::forms::is;
use crate::schedule::Schedule;
use crate::{JobFault, LineError, LinePlace};
use kdf_schedule::{Event, EventFault, read_event};

impl Schedule {
    /// Takes a line: an event that may stand after the others, or the end. The answer is where the next line stands.
    pub fn take_line(&mut self, line: &[u8]) -> Result<LinePlace, LineError>
        requires sound { IsSchedule self.old.events.items }
        ensures taken { TakesEvent (told_at InSchedule line.now)
            self.old.events.items self.new.events.items result }
        ensures sound { OnOk result (IsSchedule self.new.events.items) }
    {
        match read_event(line) {
            Ok(event) => self.take_event(event),
            Err(EventFault::Number) => Err(LineError::Fault(JobFault::BadNumber)),
            Err(EventFault::Form) => self.take_end(line),
        }
    }

    /// Takes an event.
    fn take_event(&mut self, event: Event) -> Result<LinePlace, LineError>
        requires in_range { IsInRange event }
        requires sound { IsSchedule self.old.events.items }
        ensures taken { TakesEvent (Ok (AnEvent event))
            self.old.events.items self.new.events.items result }
        ensures sound { OnOk result (IsSchedule self.new.events.items) }
    {
        match self.add(event) {
            Ok(()) => Ok(LinePlace::InSchedule),
            Err(error) => Err(error),
        }
    }

    /// Takes the end of the schedule.
    fn take_end(&self, line: &[u8]) -> Result<LinePlace, LineError>
        ensures { TakesEvent (first_told (alone (codes "ENDJOB") AnEndJob line.now ∷ []))
            self.now.events.items self.now.events.items result }
    {
        if is(line, b"ENDJOB") {
            Ok(LinePlace::BehindEnd)
        } else {
            Err(LineError::Fault(JobFault::BadLine))
        }
    }
}
