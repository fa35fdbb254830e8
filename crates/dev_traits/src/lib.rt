//! The outside as the program sees it: a disk, a sink, files and a gate, each with what it means.
//!
//! A program is written over these traits alone, so what is proved of it holds on every disk that keeps
//! to the model: what was written, or failed to be written, may be torn until a sync answers Ok.
//! `mem` has devices in memory, which tell their content. Below stand the lists; the commit, the readers
//! of checkpoints and the engines stand above.
#![tactic(auto)]

mod disk;
mod files;
mod gate;
pub mod mem;
mod sink;
mod word;

pub use disk::{Disk, Failed};
pub use files::{Files, FilesFailed};
pub use gate::{Gate, Place};
pub use sink::{Sink, put_all};
pub use word::Word;
