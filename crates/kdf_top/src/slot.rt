//! The slot of a number.
ghost use Rattle.std.specs.Prelude.{◌≡◌, None, map, IfNone, IfSome};
ghost use Rattle.kdf_job.specs.Shows.{shown_slot};
ghost use Rattle.kdf_job.specs.WellFormed.{AreSlots};
ghost use Rattle.kdf_top.specs.Loaded.{HasImages, IsFound, slot_numbered};

use kdf_job::SlotJob;
use kdf_place::Image;

/// The slot of this number, with the image of its deck.
pub fn find_slot<'a>(
    slots: &'a [SlotJob],
    images: &'a [Image],
    p: u8,
) -> Option<(&'a SlotJob, &'a Image)>
    requires slots { AreSlots (map shown_slot slots.now) }
    requires images { HasImages (map shown_slot slots.now) images.now }
    ensures none { IfNone result (slot_numbered (map shown_slot slots.now) p ≡ None) }
    ensures some { IfSome result (λ found. IsFound (map shown_slot slots.now) p found.0.now found.1.now) }
{
    for i in 0..slots.len() {
        let slot = &slots[i];
        if slot.p == p {
            return Some((slot, &images[i]));
        }
    }
    None
}
