//! What a run is and answers, whichever engine makes it.
//!
//! It has the words in which every engine says that its disk is safe whenever it stops, what its output got, and why it
//! ended. Below stand the definitions of runs and of what a disk holds; above, the engines.
#![tactic(auto)]

mod run;

pub use run::{Run, RunAnswer};
