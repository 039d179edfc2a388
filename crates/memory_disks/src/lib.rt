//! Disks in memory, which tell what they hold and fail where they are told to.
//!
//! Each call of a [`MemDisk`] is done at once, so a crash leaves what is there, and it keeps each content that it had. It counts its
//! calls from 1: those of given numbers fail, and each from a given one on, as if the power had been cut. [`MemStores`] is one such
//! disk under one name, which can be opened once, as a [`MemStore`], and given back.
#![tactic(auto)]

mod mem_disk;
mod mem_stores;

pub use mem_disk::MemDisk;
pub use mem_stores::{MemStore, MemStores};
