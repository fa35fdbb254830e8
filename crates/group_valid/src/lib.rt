//! Whether a frame is one of a valid group.
//!
//! It promises that `frame_valid` answers the rules of valid groups, rule by rule as `group_defs` has them. Below stand the
//! definitions of a group; above stands what reads a group from a disk.
#![tactic(auto)]

mod built;
mod descriptions;
mod held;
mod mappings;
mod numbers;
mod objects;
mod processes;
mod sizes;
mod stream_ends;
mod valid;

pub use valid::{frame_valid, rules_hold};
