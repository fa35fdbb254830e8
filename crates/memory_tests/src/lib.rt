//! Tests of the memory of objects: faces and their tables.
//!
//! A crate is proved again together with its tests. These need public calls alone, so they stand in a crate of their
//! own, and each crate below is proved once.
#![tactic(auto)]

#[cfg(test)]
mod tests;
