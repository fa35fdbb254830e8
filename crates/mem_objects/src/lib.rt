//! Pages of 4,096 bytes, and layers: lists of pages that rise by their numbers.
//!
//! A page is seen as the list of its bytes, a layer as the list of its pages' numbers with their bytes.
//! Below stands `lists`; above stand the faces of memory objects and the records of checkpoints.
#![tactic(auto)]

mod layer;
mod page_buf;
mod slots;

pub use layer::Layer;
pub use page_buf::{PageBuf, is_zero};
pub use slots::{add, find, get_in, write_in};
