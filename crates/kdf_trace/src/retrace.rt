//! A machine that goes through a journal once more, to look at it at any entry.
ghost use Rattle.kdf_service.specs.Rules.{IsService};

use kdf_account::Unlocked;
use kdf_director::Machine;
use kdf_journal::{CALL_LIMIT, Entry};
use kdf_json::count_of;
use kdf_lockout::Lease;
use kdf_qstore::Triple;
use kdf_relocate::Window;
use kdf_service::Service;
use kdf_word::Word;
use std::alloc::AllocError;

/// A store has so many groups, each of so many words.
const GROUPS: u16 = 256;

const LAST_GROUP: u32 = 255;

const GROUP: u16 = 32;

/// A machine that was loaded from the same job, how many calls of the entries are still to be made, and how often it will still be looked at. After the
/// last look it stands still.
pub struct Retrace {
    pub machine: Machine,
    pub due: u32,
    pub looks: u32,
}

/// A program before an order: the syllable of the order, the top word of its nest and the next one.
#[derive(Clone, Copy)]
pub struct Before {
    pub at: u16,
    pub top: Option<Word>,
    pub next: Option<Word>,
}

/// A transfer that goes on: how many words it moves, how many it has moved, and the groups that it has locked out.
#[derive(Clone, Copy)]
pub struct Going {
    pub total: u16,
    pub moved: u16,
    pub locked: Option<Unlocked>,
}

impl Retrace {
    /// Makes the calls that are due, but for so many.
    pub fn catch_up<F: Fn(u64) -> u64>(
        &mut self,
        but: u32,
        service: &Service<F>,
    ) -> Result<(), AllocError>
        requires { IsService (F.pre service.now) (F.post service.now) }
    {
        let n = self.due.saturating_sub(but);
        let made = u64::from(self.machine.journal().calls());
        if n > 0 && made + u64::from(n) <= u64::from(CALL_LIMIT) {
            self.machine.orders_with(n, service)?;
        }
        self.due -= n;
        Ok(())
    }

    /// So many calls more are due.
    pub fn owe(&mut self, n: u32) {
        self.due = self.due.saturating_add(n);
    }

    /// The program of a slot before the last of the calls that are due, which stays so: most looks are at nothing behind it.
    pub fn before_last<F: Fn(u64) -> u64>(
        &mut self,
        p: u8,
        service: &Service<F>,
    ) -> Result<Option<Before>, AllocError>
        requires { IsService (F.pre service.now) (F.post service.now) }
    {
        self.catch_up(1, service)?;
        self.looked();
        Ok(look(&self.machine, p))
    }

    /// It was looked at once more.
    pub fn looked(&mut self) {
        self.looks = self.looks.saturating_sub(1);
    }

    /// The transfer of a device, for a program.
    pub fn going(&self, p: u8, d: u8) -> Option<Going> {
        let transfer = self.machine.transfer(d)?;
        let locked = match transfer.lease() {
            Some(lease) => locked_by(&self.machine, lease, p),
            None => None,
        };
        Some(Going {
            total: transfer.total(),
            moved: transfer.moved(),
            locked,
        })
    }

    /// A Q-store of a program.
    pub fn q_store(&self, p: u8, q: u8) -> Option<Triple> {
        let registers = self.machine.seen(p)?;
        if q < 16 {
            Some(registers.q.triple(q))
        } else {
            None
        }
    }

    /// Makes the calls that are due, if it will be looked at.
    pub fn go<F: Fn(u64) -> u64>(&mut self, service: &Service<F>) -> Result<(), AllocError>
        requires { IsService (F.pre service.now) (F.post service.now) }
    {
        if self.looks > 0 {
            self.catch_up(0, service)
        } else {
            Ok(())
        }
    }

    /// Enters what the schedule did, if it will be looked at.
    pub fn enter(&mut self, entry: Entry) {
        if self.looks > 0 {
            enter(&mut self.machine, entry);
        }
    }

    /// Gives the machine up.
    pub fn close(self) {
        let Retrace {
            machine,
            due: _,
            looks: _,
        } = self;
        machine.close();
    }
}

/// What is seen of a program.
fn look(machine: &Machine, p: u8) -> Option<Before> {
    let registers = machine.seen(p)?;
    let depth = registers.nest.depth();
    Some(Before {
        at: registers.at,
        top: (depth > 0).then(|| registers.nest.peek(0)),
        next: (depth > 1).then(|| registers.nest.peek(1)),
    })
}

/// Enters what the schedule did, if the machine may be asked for it.
fn enter(machine: &mut Machine, entry: Entry) {
    if machine.room() == 0 {
        return;
    }
    match entry {
        Entry::Move { d, n } if d < 16 && n > 0 && n <= 4096 => machine.move_words(d, n),
        Entry::End { d } if d < 16 => machine.end(d),
        Entry::Clock { t } if machine.journal().clock() <= t => machine.clock(t),
        Entry::Swap { p, q } if p < 4 && q < 4 => machine.swap(p, q),
        _ => {}
    }
}

/// The groups of a program's store that a lease has, which follow one another.
fn locked_by(machine: &Machine, lease: &Lease, p: u8) -> Option<Unlocked> {
    let first = first_in(machine.window(p)?, lease)?;
    let more = count_of(lease.count()).saturating_sub(1).min(LAST_GROUP);
    let last = first.saturating_add(more as u16);
    Some(Unlocked { p, first, last })
}

/// The first group of a window that a lease has.
fn first_in(window: Window, lease: &Lease) -> Option<u16> {
    for group in 0..GROUPS {
        match window.real(group * GROUP) {
            Ok(place) if lease.has(place) => return Some(group),
            _ => {}
        }
    }
    None
}
