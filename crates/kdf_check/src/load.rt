//! Loading: the programs of a job before their first orders.
ghost use Rattle.std.specs.Prelude.{◌≡◌, ℕ, ◌<◌, ◌≤◌, [], length, map, IfOk};
ghost use Rattle.kdf_job.specs.Shows.{shown_slot};
ghost use Rattle.kdf_job.specs.WellFormed.{AreSlots};
ghost use Rattle.kdf_place.specs.declared.image.Image.{Image};
ghost use Rattle.kdf_alone.specs.Program.{IsApart};
ghost use Rattle.kdf_theory.specs.Loading.{HaveImages, load_of, loaded_slot, slots_of};
ghost use Rattle.kdf_check.specs.Begun.{IsBegun};
ghost use Rattle.kdf_check.specs.Keeps.{place_at, IsKeptAt};

use crate::program::Program;
use kdf_alone::load_bench;
use kdf_job::SlotJob;
use kdf_place::Image;
use kdf_processor::Registers;
use std::alloc::{AllocError, Global};

/// A program before its first order, over the image of its slot.
fn first(alloc: Global, slot: &SlotJob, image: &Image) -> Result<Program, AllocError>
    requires fits { length image.now.words.items ≤ slot.now.size }
    requires apart { IsApart (shown_slot slot.now) }
    ensures { IfOk result (IsBegun (loaded_slot (load_of (shown_slot slot.now) image.now.words.items))) }
{
    let bench = load_bench(alloc, slot, image)?;
    Ok(Program {
        p: slot.p,
        registers: Registers::new(),
        bench,
        hold: None,
    })
}

/// The programs of a job's slots by number, before their first orders, each over its image.
pub fn load(
    alloc: Global,
    slots: &[SlotJob],
    images: &[Image],
) -> Result<Vec<Option<Program>>, AllocError>
    requires slots { AreSlots (map shown_slot slots.now) }
    requires images { HaveImages (map shown_slot slots.now) (map (λ (x : Image). x.words.items) images.now) }
    ensures kept { IfOk result (λ programs. (p : ℕ) → IsKeptAt (slots_of (map shown_slot slots.now)
        (map (λ (x : Image). x.words.items) images.now)) [] p (place_at programs.items p)) }
    ensures four { IfOk result (λ programs. length programs.items ≡ 4) }
{
    let mut programs = Vec::from_array(alloc, [None, None, None, None])?;
    for i in (0..slots.len()).rev() {
        let slot = &slots[i];
        let program = first(alloc, slot, &images[i])?;
        programs[usize::from(slot.p)] = Some(program);
    }
    Ok(programs)
}
