//! Tests of the command line: the commands that words spell, and the lines of ends.
//!
//! A crate is proved again together with its tests. These need public calls alone, so they stand in a crate of their
//! own, and the crate of words is proved once.
#![tactic(auto)]

#[cfg(test)]
mod tests;
