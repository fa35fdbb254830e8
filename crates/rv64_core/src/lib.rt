//! Local steps of a process: instructions on its private memory alone.
//!
//! `local_step` does the instruction at pc where that neither calls nor traps and stays within private memory, and
//! leaves everything as it was where it doesn't; `local_steps` does so many of them, one after another, and says why
//! there were no more. By the law of `local_is_the_step` such a step is the step that the process does on all its
//! memory. A `DecodeCache` keeps words with their instructions, so that a word is decoded once; the word itself is fetched
//! at each step. What an instruction is, and what comes of it, stands in `rv64_isa`; whoever runs processes stands above
//! and brings a `Space` and a cache.
#![tactic(auto)]

mod decode_cache;
mod executing;
mod flat;
mod laws;
mod local;
mod space;
mod stepping;

pub use decode_cache::DecodeCache;
pub use flat::Flat;
pub use laws::local_is_the_step;
pub use local::Local;
pub use rv64_isa::Regs;
pub use space::Space;
pub use stepping::{local_step, local_steps};
