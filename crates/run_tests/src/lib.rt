//! Tests of whole commands on memory devices: how runs end, what they say and put out, and why commands are refused.
//!
//! A crate is proved again together with its tests. These need public calls alone, so they stand in a crate of their
//! own, and `aurora_top` is proved once.
#![tactic(auto)]

#[cfg(test)]
mod tests;
