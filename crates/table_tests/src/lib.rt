//! Tests of the tables: entries by number, mappings, descriptors and open files, files by name, pipes and pairs.
//!
//! A crate is proved again together with its tests. These need public calls alone, so they stand in a crate of their
//! own, and each crate of tables is proved once.
#![tactic(auto)]

#[cfg(test)]
mod tests;
