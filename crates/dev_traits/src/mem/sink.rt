//! A sink in memory.
ghost use Rattle.std.specs.Prelude.{◌+◌, ◌≤◌, length, vec_capacity};

/// A sink in memory. The put of number k, from 1, fails exactly where k is listed or no room is left.
#[derive(Drop)]
pub struct MemSink {
    pub(crate) bytes: Vec<u8>,
    pub(crate) room: usize,
    pub(crate) failing: Vec<u64>,
    pub(crate) puts: u64,
    pub(crate) faults: u64,
    ghost fits: { length bytes.items + room ≤ vec_capacity bytes },
}
