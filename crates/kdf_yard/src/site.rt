//! Where programs have their turns.
use crate::Loaded;
use kdf_relocate::Window;
use std::alloc::Global;

/// One slot of a machine as it was loaded.
#[derive(Drop)]
pub struct Stand<'a> {
    pub alloc: Global,
    pub windows: &'a [Window; 4],
    pub slot: &'a Loaded,
}
