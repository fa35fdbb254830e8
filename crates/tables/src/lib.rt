//! Lists of entries that rise by a number, with room for more.
//!
//! A `Table` is seen as the list of its entries and the room beside it; the functions on slices and
//! `Vec`s do the same for a list that a type of its own holds. Entries are found by binary search.
//! Below stands `lists`, above stand the tables of a group.
#![tactic(auto)]

mod keyed;
mod rising;
mod table;

pub use keyed::Keyed;
pub use rising::{find_in, insert_in, remove_in, rises};
pub use table::Table;
