//! What processes do with memory that they share, and with each other: the calls on processes, mappings and forks, and an
//! instruction that reaches shared memory.
//!
//! `shared_access` does one instruction on all that a process sees. Below stand the instructions of `rv64_isa` and the
//! memory of `group_defs`; the kernel that keeps the group stands above.
#![tactic(auto)]

mod access;
mod loading;
mod shared;

pub use access::Access;
pub use shared::shared_access;
