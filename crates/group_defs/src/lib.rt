//! Groups of processes: their types, and the definitions by which every layer above says what it does.
//!
//! It says what a group is, which ones are valid, what a process sees, and what a step and each call do. `group_valid` tests the
//! rules of valid groups, `group_laws` shows what holds of the definitions. Below stand the instructions and the tables, whose
//! entries a group is made of; above stands everything that keeps, runs or stores a group.
#![tactic(auto)]

pub mod calls;
mod frame;
mod keyed;
mod order;
mod user_mem;

pub use address_maps::Mapping;
pub use descriptors::{Open, OpenKind};
pub use frame::{Frame, Next, ObjectRec, Out, Proc, ProcState};
pub use group_files::FileRec;
pub use order::{lists_rise, names_rise, own_lists_rise};
pub use pipes_socks::{Message, Pair, Pipe};
pub use user_mem::{Fault, OutRefused, UserMem};
