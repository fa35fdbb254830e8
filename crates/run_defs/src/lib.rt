//! Runs of a group: their marks, what stands after some of them, which traces are legal, how runs end, the one trace of a run
//! on one thread, the pages that an interval touches, and the output.
//!
//! It promises nothing of code but its types. Below stands what a group is and what a step does to it; above stand the laws
//! of runs, and everything that makes or judges a run.
#![tactic(auto)]

mod run;

pub use run::{AckMark, Limits, Mark, RunEnd};
