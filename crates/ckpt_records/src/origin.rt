ghost use Rattle.std.specs.Prelude.{◌≡◌, ◌↔◌, IsTrue};
ghost use Rattle.group_defs.specs.Output.{last_position};
ghost use Rattle.ckpt_records.specs.Origin.{HasSize, IsUnworn, IsWithin};

use crate::meta::PagePlace;
use ckpt_chain::Slot;
use dev_traits::Sink;
use group_defs::{Frame, Out};
use lists::Seq;
use mem_objects::Layer;
use std::sync::Arc;

/// Where a checkpoint lies on the disk. Blocks count from 0 in the disk.
#[derive(Debug, Drop)]
pub struct Placement {
    /// Its pages that aren't all zero, each with its block, by object and then page.
    pub pages: Seq<PagePlace>,
    /// Its meta blocks, in the chain's order.
    pub metas: Seq<u64>,
    /// The slot that opens it.
    pub slot: Slot,
}

/// A group as parts: its frame, and its objects' pages apart from it.
#[derive(Debug, Drop)]
pub struct Parts {
    pub frame: Frame,
    /// Per object, in rising order of their numbers: the number, and its pages that aren't all zero. Pages
    /// count from 0 in their object.
    pub layers: Seq<(u64, Layer)>,
}

/// One object at a barrier: what it had at the last barrier, and the pages written since.
#[derive(Debug, Drop)]
pub struct Frozen {
    /// The object's number.
    pub number: u64,
    /// The number of the object of the last barrier that lies below; none where no page lies below.
    pub base: Option<u64>,
    /// Its layers since then, the oldest first: a page is that of the last layer that has it. A commit
    /// reads them while the run goes on, so each has several owners.
    pub layers: Seq<Arc<Layer>>,
}

/// A group as it stands at a barrier, for the commit of this epoch.
#[derive(Debug, Drop)]
pub struct Ckpt {
    /// 1 at a disk's first barrier, and one more at each further one.
    pub epoch: u64,
    pub frame: Frame,
    /// The frame's objects, in rising order of their numbers.
    pub frozen: Seq<Frozen>,
}

/// What a run goes on from.
#[derive(Debug, Drop)]
pub struct Origin {
    /// The epoch of the checkpoint that the disk holds; 0 on a new disk.
    pub epoch: u64,
    pub parts: Parts,
    pub placement: Placement,
    /// The gate bytes of slots A and B: 1 where the slot may be open.
    pub gates: [u8; 2],
}

/// The greatest number that leaves room for a run.
const MOST: u64 = 1 << 62;

/// Whether a disk may have so many blocks.
pub fn has_size(blocks: u64) -> bool
    ensures { IsTrue result ↔ HasSize blocks }
{
    16 <= blocks && blocks <= 1_048_576
}

/// Whether each number of the origin leaves room for a run. The mark of its output is the last position.
pub fn is_unworn(origin: &Origin) -> bool
    requires { origin.now.parts.frame.out.mark ≡ last_position origin.now.parts.frame.out }
    ensures { IsTrue result ↔ IsUnworn origin.now.epoch origin.now.parts.frame }
{
    let next = &origin.parts.frame.next;
    origin.epoch <= MOST
        && origin.parts.frame.out.mark <= MOST
        && next.object <= MOST
        && next.descr <= MOST
        && next.pipe <= MOST
        && next.pair <= MOST
}

/// Whether a sink's count is a position of an output, whose mark is the last one.
pub fn is_within<S: Sink>(sink: &S, out: &Out) -> bool
    requires { out.now.mark ≡ last_position out.now }
    ensures { IsTrue result ↔ IsWithin (S.view sink.now) out.now }
{
    let count = sink.taken();
    out.from <= count && count <= out.mark
}
