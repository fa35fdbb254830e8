//! Devices in memory, which tell all that they hold. Tests and the first program run on them.
ghost use Rattle.std.specs.Prelude.{◌≡◌};
ghost use Rattle.dev_traits.specs.Counts.{one_more};

mod disk;
mod disk_calls;
mod files;
mod lost;
mod record;
mod sink;
mod sink_calls;

use crate::gate::{Gate, Place};
pub use disk::MemDisk;
pub use files::MemFiles;
pub use record::Fill;
pub use sink::MemSink;

// A count that stays at its last number.
fn raised(count: u64) -> u64
    ensures { result ≡ one_more count }
{
    if count < u64::MAX { count + 1 } else { count }
}

/// A gate that holds nobody.
#[derive(Clone, Copy, Debug, Drop, PartialEq, Eq)]
pub struct NoGate;

impl Gate for NoGate {
    fn at(&self, _: Place) {}
}
