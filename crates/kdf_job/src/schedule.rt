//! The schedule, as far as it is read.
ghost use Rattle.std.specs.Prelude.{◌≡◌, ◌+◌, ◌≤◌, ◌∷◌, ◌++◌, [], IfOk, OnOk, length};
ghost use Rattle.kdf_schedule.specs.Calls.{order_count, orders_in};
ghost use Rattle.kdf_schedule.specs.Events.{IsInRange};
ghost use Rattle.kdf_job.specs.Adding.{IsChecked};
ghost use Rattle.kdf_job.specs.Draft.{clock_behind, clock_of, count_fault, event_fault};
ghost use Rattle.kdf_job.specs.Limits.{most_orders};
ghost use Rattle.kdf_job.specs.WellFormed.{IsSchedule};

use crate::{JobFault, LineError};
use kdf_limits::EVENTS;
use kdf_schedule::{Event, MOST_ORDERS};
use std::alloc::{AllocError, Global};

/// The schedule, as far as it is read.
#[derive(Drop)]
pub struct Schedule {
    pub events: Vec<Event>,
    /// How many orders they have.
    orders: u32,
    /// The time that was set last, or 0.
    clock: u64,
    ghost orders_counted: { orders ≡ order_count events.items },
    ghost clock_set: { clock ≡ clock_of events.items },
    ghost few: { orders ≤ most_orders },
}

impl Schedule {
    /// A schedule without events.
    pub fn new(alloc: Global) -> Schedule
        ensures { result.events.items ≡ [] }
    {
        Schedule {
            events: Vec::new(alloc),
            orders: 0,
            clock: 0,
        }
    }

    /// A schedule with these events.
    pub fn of(alloc: Global, events: &[Event]) -> Result<Schedule, AllocError>
        requires { IsSchedule events.now }
        ensures { IfOk result (λ s. s.events.items ≡ events.now) }
    {
        let mut schedule = Schedule::new(alloc);
        for event in events.iter() {
            schedule.push(*event)?;
        }
        Ok(schedule)
    }

    /// Adds an event, if it may stand after the others.
    #[tactic(auto, using(crate::proofs::Schedules::schedule_push, crate::proofs::Schedules::few_orders))]
    pub fn add(&mut self, event: Event) -> Result<(), LineError>
        requires in_range { IsInRange event }
        requires sound { IsSchedule self.old.events.items }
        ensures added { IsChecked (event_fault event self.old.events.items)
            (self.old.events.items ++ event ∷ []) self.new.events.items result }
        ensures sound { OnOk result (IsSchedule self.new.events.items) }
    {
        if let Some(fault) = self.fault(event) {
            return Err(LineError::Fault(fault));
        }
        self.push(event)?;
        Ok(())
    }

    /// Puts an event after the others.
    #[tactic(auto, using(crate::proofs::Schedules::order_count_push, crate::proofs::Schedules::clock_push))]
    fn push(&mut self, event: Event) -> Result<(), AllocError>
        requires { order_count self.old.events.items + orders_in event ≤ MOST_ORDERS }
        ensures { OnOk result (self.new.events.items ≡ self.old.events.items ++ event ∷ []) }
    {
        self.events.push(event)?;
        self.orders += orders_in(event);
        self.clock = clock_behind(self.clock, event);
        Ok(())
    }

    /// What is wrong with an event after the others.
    fn fault(&self, event: Event) -> Option<JobFault>
        requires { IsInRange event }
        ensures { result ≡ event_fault event self.now.events.items }
    {
        match event {
            Event::Orders(n) if self.orders + n > MOST_ORDERS => Some(JobFault::TooManyOrders),
            Event::Clock(t) if t < self.clock => Some(JobFault::ClockFalls),
            _ => self.count_fault(),
        }
    }

    /// What is wrong with one event more.
    fn count_fault(&self) -> Option<JobFault>
        ensures { result ≡ count_fault self.now.events.items }
    {
        if self.events.len() < EVENTS as usize {
            None
        } else {
            Some(JobFault::TooManyEvents)
        }
    }
}

/// How many orders an event has.
fn orders_in(event: Event) -> u32
    ensures { result ≡ orders_in event }
{
    match event {
        Event::Orders(n) => n,
        _ => 0,
    }
}

/// The time after an event.
fn clock_behind(clock: u64, event: Event) -> u64
    ensures { result ≡ clock_behind clock event }
{
    match event {
        Event::Clock(t) => t,
        _ => clock,
    }
}
