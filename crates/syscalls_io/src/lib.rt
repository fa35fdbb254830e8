//! What processes do with descriptors: the system calls on them, over the tables of a whole group.
//!
//! `io_call` carries one call out, and answers what the caller is to write into x10, or that the call waits; `must_wait`
//! says beforehand whether it does. So far `write` is served, to the outside. Below stand the tables of descriptions, pipes,
//! pairs and files, and the memory of `group_defs`; the kernel that keeps the group stands above.
#![tactic(auto)]

mod answer;
mod call;
mod io_tables;
mod output;
mod outside;

pub use answer::CallAnswer;
pub use call::io_call;
pub use io_tables::IoTables;
pub use output::{last_of, move_mark};
pub use outside::must_wait;
