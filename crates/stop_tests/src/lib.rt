//! Tests of commands whose disk stops, or whose devices fail: what each image holds, and what is restored of it.
//!
//! A crate is proved again together with its tests. These need public calls alone, so they stand in a crate of their
//! own, and `aurora_top` is proved once; beside `run_tests` the two are proved side by side.
#![tactic(auto)]

#[cfg(test)]
mod tests;
