//! What holds of runs, whatever the group: what stands after a legal trace is what its marks say by counting and searching,
//! a run keeps its group valid, output only grows, and there is one trace of a run on one thread. The definitions are shown by
//! the two smallest runs.
//!
//! Below stand the definitions of runs and the laws of steps; engines and commands above call these laws.
#![tactic(auto)]

pub mod laws;
