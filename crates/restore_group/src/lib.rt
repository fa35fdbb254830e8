//! The group that a disk holds.
//!
//! `restore` reads the newest open slot, its record and the pages that it lists, and gives just the group that the disk's
//! bytes hold, or says that they hold none. Below stand the record of a checkpoint and the chain that carries it; above,
//! whatever goes on with the group.
#![tactic(auto)]

mod layers;
mod record;
mod restoring;

pub use restoring::{Refused, restore};
