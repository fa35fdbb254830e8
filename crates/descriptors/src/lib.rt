//! Descriptors of processes, and the open file descriptions that they are at.
//!
//! A `DescTable` is seen as a process's list of descriptors, `Opens` as the list of a group's
//! descriptions with their owners: the descriptors of all processes at each, and the holds on it.
//! A hold is an owner that is no descriptor, as a message that carries the description. Below
//! stands `tables`, above stand the groups and the system calls.
#![tactic(auto)]

mod counted;
mod description_table;
mod descriptor_table;
mod opens;
mod refusals;

pub use counted::Counted;
pub use description_table::Opens;
pub use descriptor_table::DescTable;
pub use opens::{Open, OpenKind};
pub use refusals::{BadFd, Closed, DescRefused, OpensRefused};
