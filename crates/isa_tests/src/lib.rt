//! Tests of instructions: their words, their arithmetic, and the local steps that they make.
//!
//! A crate is proved again together with its tests. These need public calls alone, so they stand in a crate of their
//! own, and each crate of instructions is proved once.
#![tactic(auto)]

#[cfg(test)]
mod tests;
