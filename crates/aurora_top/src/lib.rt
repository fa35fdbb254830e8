//! The top calls: a command's words, the devices that it was given, and how it ended.
//!
//! `aurora_solo` runs a group with `solo_engine`: one flat program's, or the one that the disk holds. It returns on every
//! list of words and on every device that keeps to the traits, and says why it ended. The program stands above; the engine,
//! the reader of checkpoints, the devices' traits and the group's types stand below.
#![tactic(auto)]

mod causes;
mod ending;
mod opening;
mod solo;
mod starting;

pub use ending::Ending;
pub use solo::aurora_solo;
