//! The files of a group, by name.
//!
//! A `FileTable` is seen as the list of its files, which rise by name, and the room beside it. It
//! looks a name up, creates empty files and sets their lengths; the bytes are in objects that stand
//! elsewhere. Below stand `lists` and `tables`, above stand a group's definitions and the system
//! calls on files.
#![tactic(auto)]

mod file_table;
mod named;
mod named_files;
mod refusals;
mod search;

pub use file_table::FileTable;
pub use named_files::{FileRec, FileRef};
pub use refusals::{CreateRefused, TooBig};
