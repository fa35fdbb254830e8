//! The commit of a checkpoint, step by step. Each step's type owns the disk, so no step can be left out
//! or made twice, and says what a stop may leave while the next step is on its way.
//!
//! In order: the target's gate is closed where it reads 1 (`start`), blocks are written (`Closed::write`)
//! and synced (`Closed::laid`), the slot's body is written and synced (`Laid::body`), and byte 1 is written
//! to the gate and synced (`Bodied::gate`). `commit` does all of it for a caller that has its blocks in a
//! list, and says what a stop at any moment leaves. No call takes memory. Below stand the disk's trait and
//! the slots; above, whatever writes a checkpoint.
#![tactic(auto)]

mod laws;
mod states;
mod whole;
mod written;

pub use laws::{
    finished_opens_the_target, steps_are_unfinished_or_finished, unfinished_keeps_the_other_slot,
};
pub use states::{BadDisk, Bodied, Closed, DiskFault, Laid, Opened, start};
pub use whole::{Block, are_placed, commit};
pub use written::Written;
