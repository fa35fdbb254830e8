//! A group of processes while it runs: the group as tables and faces, its log, and the checkpoint of its last barrier.
//!
//! Workers take processes as leases and give them back; a barrier freezes all objects, and a fetch hands out what they have
//! over the barrier before. Each call says which mark it logs, and the group is the one after the log, but for the private
//! parts that are on lease. Below stand leases, the calls of processes, the tables and the records' types; above, the engines.
#![tactic(auto)]

mod calls;
mod checkpointing;
mod ckpt;
mod ending;
mod frames;
mod group_tables;
mod kernel;
pub mod laws;
mod leasing;
mod log;
mod objects;
mod placing;
mod row;
mod starting;
mod stepping;

pub use ckpt::Ckpt;
pub use kernel::Kernel;
pub use leasing::GiveRefused;
