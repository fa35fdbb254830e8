//! Leases: a process that was taken out of its group with its private part, and its local steps; and the memory that it sees
//! when it was given back.
//!
//! A `Process` has registers, mappings, and a face for each private object that they show. As a `Space` it has the cells
//! of private mappings alone, so no shared page is reached by a local step; what is stored comes into the faces, and
//! the pages that it lies in into their sets. `Lease::run` does local steps up to a quantum, and says why it stopped.
//! `CallerMemory` is a process together with the faces of the objects that processes may share: the memory of a step that
//! isn't local, as `UserMem`.
//! Below stand `rv64_core`, `address_maps` and `shadow_chains`; the kernel that hands leases out stands above.
#![tactic(auto)]

mod caller_memory;
pub mod laws;
mod lease;
mod objects;
mod places;
mod process;

pub use caller_memory::{CallerMemory, is_at_call, word_at};
pub use lease::{Halt, Lease};
pub use process::Process;
