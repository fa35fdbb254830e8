//! Pipes and socket pairs of a group: the bytes and the messages that wait in them.
//!
//! A `PipeTable` is seen as the group's list of pipes with their bytes, a `PairTable` as its list
//! of pairs with the messages that wait at each end, and either with the room beside. Which ends
//! are open is the caller's to say. Below stand `tables` and `circular_buffer`, above stand the
//! groups and the system calls.
#![tactic(auto)]

mod answers;
mod channel;
mod keyed;
mod open_list;
mod pairs;
mod pipes;
mod queues;
mod streams;

pub use answers::{Got, Pull, Push, Sending, TableRefused};
pub use open_list::OpenList;
pub use pairs::PairTable;
pub use pipes::PipeTable;
pub use streams::{Message, Pair, Pipe};
