//! A group of one process while it runs, over flat memory of its own. The engine runs on it until it runs on `group_kernel`.
//!
//! It takes turns, makes the barrier, and gives the group's frame and pages as they stand at a barrier; each call is the
//! definition's own step, turn or barrier. It knows no disk. Below stand the local step, the definitions of groups and runs,
//! and the records' types; above, the engines.
#![tactic(auto)]

mod calls;
mod engine_group;
mod freezing;
pub mod laws;
mod loading;
mod mapped_byte;
mod process_memory;
mod turns;

pub use engine_group::{EngineGroup, Fixed};
pub use freezing::{frame_of, mark_output, pages_of};
pub use loading::engine_group as group_from;
pub use process_memory::ProcessMemory;
pub use turns::{is_ready, turn};
