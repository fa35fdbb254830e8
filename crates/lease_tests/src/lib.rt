//! Tests of leases: what a run of a process's local steps leaves, and why it stops.
//!
//! A crate is proved again together with its tests. These need public calls alone, so they stand in a crate of their
//! own, and the crate of leases is proved once.
#![tactic(auto)]

#[cfg(test)]
mod tests;
