//! What a checkpoint writes, and where: the plan of a commit's blocks, and what a disk keeps meanwhile.
//!
//! `plan_commit` lays the pages and the record of a group into blocks that the kept checkpoint doesn't use, the least ones
//! that are free, and refuses exactly where fewer are free than it needs; the laws say that a stop during such a commit
//! leaves what was kept or the new group. It knows no process. Below stand the records, the commit and the free blocks; above,
//! the engines.
#![tactic(auto)]

mod kept;
mod laws;
mod plan;

pub use kept::KeptBlocks;
pub use laws::{commits_keep_or_replace, committed_slot_is_newest};
pub use plan::{Plan, PlanRefused, plan_commit};
