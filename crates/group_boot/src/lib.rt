//! The first group of a run: the manifest, the image that it names, and the group that they make.
//!
//! It promises that the origin of a flat image is the group that the definition makes of its bytes, and says why a manifest
//! or an image was refused. Below stand the groups, the records' types and the files; above, the commands.
#![tactic(auto)]

mod flat;
mod manifest;

pub use flat::flat_origin;
pub use manifest::{LoadRefused, load};
