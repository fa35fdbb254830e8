//! The two slots of a disk, and the chain of meta blocks that carries a checkpoint's record.
//!
//! `read_slots` and `read_stream` give what the disk's bytes say, on every disk that tells them; what
//! `lay_stream` gives, put on its blocks, is read as the stream. Below stands the disk's trait; above, the
//! records, the commit and whatever restores a group.
#![tactic(auto)]

mod laws;
mod lay;
mod slot;
mod stream;

pub use laws::kept_is_read;
pub use lay::{PageBytes, laid_is_read, lay_stream};
pub use slot::{Slot, SlotBody, Slots, open_slot, read_slot, read_slots, slot_text};
pub use stream::{Stream, StreamRefused, read_block, read_stream};
