//! Tests of the group that a disk holds.
//!
//! A crate is proved again together with its tests. These need public calls alone, so they stand in a crate of their
//! own, and `restore_group` is proved once.
#![tactic(auto)]

#[cfg(test)]
mod tests;
