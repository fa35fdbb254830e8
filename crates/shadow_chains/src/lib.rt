//! Faces: what the owner of a memory object sees of it.
//!
//! A face is a layer of its own over immutable layers that other faces and a checkpoint may share, over a
//! base, the object of the last freeze. It is seen as the bytes of its pages, one after another, and beside
//! them its base, and the layers since that freeze with the set of pages that stand in them. A freeze and
//! a fork share layers and copy no page; a store copies a page the first time after either.
//! Below stand `mem_objects` and `tables`; above stand the memory of processes and files, and the kernel that
//! freezes them.
#![tactic(auto)]

mod entry;
mod face;
mod flattening;
mod layers;
mod own;
mod pieces;
mod table;

pub use entry::Entry;
pub use face::{Face, Frozen};
pub use layers::Layers;
pub use table::FaceTable;
