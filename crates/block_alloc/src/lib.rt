//! Free blocks of a disk.
//!
//! `Blocks` keeps one flag for each block: which are free, which is the least, and how many there
//! are. Nothing stands below but the want of memory; above, whatever plans what a commit writes.
#![tactic(auto)]

mod blocks;

pub use blocks::{Blocks, rebuild};
