//! Tests of a checkpoint's record, both ways and in both formats.
//!
//! A crate is proved again together with its tests. These need public calls alone, so they stand in a crate of their
//! own, and `ckpt_records` is proved once.
#![tactic(auto)]

#[cfg(test)]
mod tests;
