//! The record of a checkpoint: a group without the bytes of its pages, and where these pages lie.
//!
//! `read_meta` gives what the bytes spell in format 1 or 2, and nothing where they spell nothing; `read_listing` does so with
//! the runs of the pages alone, so that a frame can be tested before pages are listed. `write_meta` gives the one
//! spelling in format 2, in which runs list the pages and messages name what they carry. `specs/Holds` says which group the
//! bytes of a whole disk hold: at most one. Below stand the types of groups, the chain of meta blocks and the layers of
//! pages; above, whatever restores or commits a group.
#![tactic(auto)]

mod counted;
mod error;
mod field;
mod fields;
mod laws;
mod listed;
mod meta;
mod numbers;
mod origin;
mod record;
mod runs;

pub use error::ReadError;
pub use laws::{kept_is_held, metas_suffice, one_held, one_spelled, written_is_held};
pub use meta::{Listing, Meta, Page, PagePlace, PageRun};
pub use numbers::num_at;
pub use origin::{Ckpt, Frozen, Origin, Parts, Placement, has_size, is_unworn, is_within};
pub use record::{is_in_form, read_listing, read_meta, write_meta};
