//! What holds of the definitions of a step, whatever the group.
//!
//! It promises that a step keeps a group valid and leaves what isn't its own, as laws that need no run. Below stand the
//! definitions of a group; above stand the definitions of a run and everything that runs one.
#![tactic(auto)]

pub mod laws;
