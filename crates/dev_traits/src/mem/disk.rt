//! A disk in memory, which keeps a record of its calls.
ghost use Rattle.std.specs.Prelude.{◌≡◌, ◌*◌, ◌<◌, [], length};
ghost use Rattle.lists.specs.Bytes.{SameOutside, AreBytes, AreBytes-prop};
ghost use Rattle.dev_traits.specs.Record.{reading_of, settled_of, pending_of, ranges_of};
ghost use Rattle.dev_traits.specs.Lost.{lost_ranges};

use crate::mem::lost::Lost;
use crate::mem::record::Record;

/// A disk in memory. No call takes memory. The call of number k, from 1, fails exactly where k is listed or above the room;
/// the calls up to the room stand in its record.
#[derive(Drop)]
pub struct MemDisk {
    pub(crate) blocks: u64,
    pub(crate) start: Vec<u8>,
    pub(crate) bytes: Vec<u8>,
    pub(crate) calls: Record,
    pub(crate) lost: Lost,
    pub(crate) failing: Vec<u64>,
    pub(crate) faults: u64,
    pub(crate) writes: u64,
    ghost size: { calls.size ≡ 4096 * blocks },
    ghost start_whole: { length start.items ≡ 4096 * blocks },
    ghost whole: { length bytes.items ≡ 4096 * blocks },
    ghost fits: { AreBytes bytes.items } by { AreBytes-prop bytes.items },
    ghost settled_fits: { AreBytes (settled_of start.items calls.events) } by { AreBytes-prop (settled_of start.items calls.events) },
    ghost reads: { bytes.items ≡ reading_of start.items calls.events },
    ghost apart: { SameOutside (ranges_of (pending_of calls.events))
        (settled_of start.items calls.events) bytes.items },
    ghost unlost: { length calls.events < calls.room → lost_ranges lost ≡ [] },
}
