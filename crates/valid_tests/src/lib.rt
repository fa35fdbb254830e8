//! Tests of the test of valid frames.
//!
//! They need public items alone, and nothing stands on them: so `group_valid` is proved without them.
#![tactic(auto)]

#[cfg(test)]
mod tests;
