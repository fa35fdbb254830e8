//! Tests of what a disk is and has: memory devices, pages, free blocks, slots and chains, and the commit.
//!
//! A crate is proved again together with its tests. These need public calls alone, so they stand in a crate of their
//! own, and each crate below is proved once.
#![tactic(auto)]

#[cfg(test)]
mod tests;
