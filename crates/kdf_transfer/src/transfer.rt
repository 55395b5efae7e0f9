//! Transfers.
ghost use Rattle.std.specs.Prelude.{◌≡◌, ◌+◌, ◌-◌, ◌*◌, ◌^◌, ◌<◌, ◌≤◌, [], length, min, is_some, true};
ghost use Rattle.std.specs.Vec.{vec_capacity};
ghost use Rattle.std.specs.Option.{option_map};
ghost use Rattle.kdf_transfer.specs.AtOnce.{kind_of, is_output, has_area, blocks_out};
ghost use Rattle.kdf_transfer.specs.Devices.{fixture_of, progress_of, room_of};
ghost use Rattle.kdf_transfer.specs.InFlight.{moved_by, total_of, ring_of, ended_progress, Covers};

use crate::flight::{Flight, count_words, fill};
use crate::{Area, Device, Ring, TransferOrder};
use kdf_lockout::Lease;
use std::marker::Model;

/// A transfer in flight, which owns its device, its lease, its ring and the block that isn't finished. Contracts see what it was begun
/// with, the lease as it is, and how many words have moved: the rest follows from these.
pub struct Transfer {
    flight: Flight,
}

impl Model for Transfer {
    ghost use Rattle.kdf_transfer.specs.InFlight.{Motion};

    ghost Value = { Motion };

    ghost use Rattle.kdf_transfer.specs.Flying.{IsFlying, motion_of};

    ghost view = { λ t. motion_of t.flight };

    ghost invariant = { λ t. IsFlying t.flight };
}

impl Transfer {
    /// Begins a transfer.
    pub fn begin(
        device: Device,
        order: TransferOrder,
        area: Area,
        lease: Option<Lease>,
        block: Vec<u8>,
        ring: Ring,
    ) -> Transfer
        requires kind { (fixture_of device).kind ≡ kind_of order }
        requires spare { blocks_out order ≤ room_of device }
        requires few { (progress_of device).place + blocks_out order < 2 ^ 32 }
        requires lease { is_some lease ≡ has_area order }
        requires area { has_area order ≡ true → Covers lease area.first area.last }
        requires block { block.items ≡ [] }
        requires room { is_output order ≡ true
            → 8 * (area.last + 1 - area.first) ≤ vec_capacity block }
        requires ring { ring ≡ [] }
        ensures { result ≡ record {
          order = order;
          first = area.first;
          last = area.last;
          fixture = fixture_of device;
          progress = progress_of device;
          lease = lease;
          moved = 0;
        } }
    {
        let total = count_words(&device, order, area, &lease);
        let mut ring = ring;
        fill(&device, order, area, &lease, &mut ring, total);
        Transfer {
            flight: Flight {
                device,
                order,
                area,
                lease,
                block,
                ring,
                total,
                moved: 0,
            },
        }
    }

    /// Moves the next `n` words, or those that remain.
    pub fn move_words(&mut self, n: u16)
        ensures { self.new ≡ moved_by n self.old }
    {
        self.flight.run(n);
    }

    /// How many words have moved.
    pub fn moved(&self) -> u16
        ensures value { result ≡ self.now.moved }
        ensures within { result ≤ total_of self.now }
    {
        self.flight.moved
    }

    /// How many words the order moves.
    pub fn total(&self) -> u16
        ensures { result ≡ total_of self.now }
    {
        self.flight.total
    }

    /// How many words are in the ring.
    pub fn ahead(&self) -> u16
        ensures { result ≡ min 8 (total_of self.now - self.now.moved) }
    {
        self.flight.ring.len() as u16
    }

    /// The ring: the next words.
    pub fn ring(&self) -> &Ring
        ensures { result.now ≡ ring_of self.now }
    {
        &self.flight.ring
    }

    /// The device as at the begin.
    pub fn device(&self) -> &Device
        ensures fixture { fixture_of result.now ≡ self.now.fixture }
        ensures progress { progress_of result.now ≡ self.now.progress }
    {
        &self.flight.device
    }

    /// The lease.
    pub fn lease(&self) -> Option<&Lease>
        ensures value { option_map (λ l. l.now) result ≡ self.now.lease }
        ensures some { is_some result ≡ has_area self.now.order }
    {
        match &self.flight.lease {
            Some(lease) => Some(lease),
            None => None,
        }
    }

    /// Moves the rest. The device has its new state.
    pub fn end(self) -> (Device, Option<Lease>, Ring)
        ensures fixture { fixture_of result.0 ≡ self.fixture }
        ensures progress { progress_of result.0 ≡ ended_progress self }
        ensures lease { result.1 ≡ (moved_by (total_of self) self).lease }
        ensures some { is_some result.1 ≡ has_area self.order }
        ensures covers { has_area self.order ≡ true → Covers result.1 self.first self.last }
        ensures ring { result.2 ≡ [] }
    {
        let Transfer { mut flight } = self;
        flight.run_out();
        flight.finish()
    }

    /// Gives all back, with the device as at the begin.
    pub fn cancel(self) -> (Device, Option<Lease>, Ring)
        ensures fixture { fixture_of result.0 ≡ self.fixture }
        ensures progress { progress_of result.0 ≡ self.progress }
        ensures lease { result.1 ≡ self.lease }
        ensures ring { result.2 ≡ [] }
    {
        let Transfer { flight } = self;
        flight.give_back()
    }
}
