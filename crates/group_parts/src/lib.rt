//! A group as one public part and one private part for each running process, and what holds of these parts whatever the
//! group: a step of one process leaves every other's private part, local steps are steps of the private part alone, and a
//! lease commutes with what others do.
//!
//! Below stand the definitions and laws of groups and runs; leases and the kernel above call these laws.
#![tactic(auto)]

pub mod laws;
