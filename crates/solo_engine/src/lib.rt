//! The engine that runs a group on one thread, from a new disk or from a checkpoint.
//!
//! `run_solo` takes turns, makes a barrier as soon as one is due, commits the group to the slot that isn't the newest open
//! one, acknowledges it, and then releases its output; it promises that whenever the disk stops, its bytes hold the group of
//! one of the run's own barriers, the last acknowledged one or the one being committed, and that nothing is released that an
//! acknowledged barrier doesn't cover. While a commit goes on, the disk keeps the checkpoint that it had, since the blocks
//! written aren't used by it. Below stand the running group, what a checkpoint writes, the commit, and what a run is and
//! answers; above, the commands.
#![tactic(auto)]

mod interval;
mod log;
mod persisting;
mod solo;

pub use solo::run_solo;
