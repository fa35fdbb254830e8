//! Tests of what a commit is planned to write, and where.
//!
//! A crate is proved again together with its tests. These need public calls alone, so they stand in a crate of their
//! own, and the crate of plans is proved once.
#![tactic(auto)]

#[cfg(test)]
mod tests;
