//! The yard: the programs over the store and the devices that they share, while calls of a machine are made.
use crate::{Loaded, Place, Program};
use kdf_lockout::Store;
use kdf_relocate::Window;
use std::alloc::Global;
use std::marker::Model;

/// What a machine has beside its journal. Contracts see how things stand: the slots, what each reaches, the programs,
/// what holds each of them, and what they share.
pub struct Yard {
    pub alloc: Global,
    pub windows: [Window; 4],
    pub slots: Vec<Loaded>,
    pub store: Store,
    pub programs: Vec<Program>,
    pub places: Vec<Place>,
}

impl Model for Yard {
    ghost use Rattle.kdf_yard.specs.Fields.Standing.{Standing, standing, IsYard};

    ghost Value = { Standing };

    ghost view = { λ y. standing y.slots.items y.windows y.store y.programs.items y.places.items };

    ghost invariant = { λ y. IsYard y.slots.items y.windows y.store y.programs.items y.places.items };
}
