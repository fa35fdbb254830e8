//! The command line: the grammar of a command's words, and the status and the line of each end.
//!
//! `command_of` reads exactly what the words spell, and takes no memory; `say_line` puts exactly the line of an end. Below
//! stand the limits of a run and the sinks; above, the commands.
#![tactic(auto)]

mod end;
mod options;
mod said;
mod say;
pub mod spelling;
mod words;

pub use end::{End, status_of};
pub use say::say_line;
pub use words::{Beginning, Command, Mode, command_of, mode_of};
