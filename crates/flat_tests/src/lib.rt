//! Tests of `flat_kernel`: the parts that it is made from, its memory, and its turns.
//!
//! A crate is proved again together with its tests. These need public calls alone, so they stand in a crate of their
//! own, and the crate of the group is proved once.
#![tactic(auto)]

#[cfg(test)]
mod tests;
