//! The files of the system, as rows and tests write them: nothing is asked of a path.
//!
//! No part of a [`DiskOver`] is ever lent. So it may be written at each path but `/`, and [`DiskOver::act`] refuses that one.
//!
//! A [`Hooked`] is the system of a test: the host's, with a [`Hook`] that names only the calls that it changes.
//!
//! Proved: no part of the files is ever lent, whatever calls are made on them.
#![tactic(auto)]

mod disks;
mod hooked;

pub use disks::{Act, DiskOver, WholeDisk};
pub use hooked::{Asked, Hook, Hooked};
