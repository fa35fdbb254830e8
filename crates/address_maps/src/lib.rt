//! The mappings of a process: sorted, and no two share an address.
//!
//! A `Map` is seen as the list of its mappings and the room beside it. It finds what an address
//! shows, adds mappings, cuts ranges of pages out of them, and finds free pages. Below stand
//! `lists` and `tables`, above stand a group's definitions and what a process's memory is made of.
#![tactic(auto)]

mod address_map;
mod cutting;
mod gaps;
pub mod laws;
mod maps;
mod refusals;
mod search;

pub use address_map::Map;
pub use maps::{Mapping, Place};
pub use refusals::{AddRefused, CutRefused};
