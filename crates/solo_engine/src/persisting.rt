//! The commit of a group at its barrier, and its acknowledgement.
ghost use Rattle.std.specs.Prelude.{◌≡◌, ◌<◌, IfOk, IfErr, OnErr};
ghost use Rattle.std.specs.Option.{ForSome};
ghost use Rattle.std.specs.Vec.{vec_capacity, vec_len};
ghost use Rattle.dev_traits.specs.Disk.{OnlyReading};
ghost use Rattle.group_defs.specs.Group.{Group};
ghost use Rattle.solo_engine.specs.Interval.{IsCommitted, IsPlanned, IsUncommitted};
ghost use Rattle.page_flusher.specs.KeptBlocks.{DescribesGates};
ghost use Rattle.ckpt_records.specs.Origin.{HasSize};

use crate::interval::PlannedCommit;
use crate::log::Log;
use commit_gate::{BadDisk, commit};
use dev_traits::Disk;
use page_flusher::KeptBlocks;

/// Commits what is planned and acknowledges it; room in the log was taken before.
pub fn persist<D: Disk>(
    disk: D,
    kept: &KeptBlocks,
    ready: &PlannedCommit,
    log: &mut Log,
) -> Result<D, BadDisk<D>>
    requires sized { HasSize (D.view disk).blocks }
    requires only { OnlyReading (D.view disk) }
    requires gates { ForSome (D.view disk).reading (λ r. DescribesGates kept.now r) }
    requires ready { (g : Group) × IsPlanned (D.view disk).blocks g kept.now ready.now }
    requires room { vec_len log.old.trace < vec_capacity log.old.trace }
    requires ack_room { vec_len log.old.acks < vec_capacity log.old.acks }
    ensures committed { IfOk result (λ d. (g : Group)
        → IsPlanned (D.view disk).blocks g kept.now ready.now
        → IsCommitted kept.now g ready.now.plan.blocks ready.now.plan.body (D.view disk) (D.view d)
        log.old.trace.items log.new.trace.items log.old.acks.items log.new.acks.items) }
    ensures uncommitted { IfErr result (λ bad. (g : Group)
        → IsPlanned (D.view disk).blocks g kept.now ready.now
        → IsUncommitted kept.now g (D.view disk) (D.view bad.disk)) }
    ensures unlogged { OnErr result ((log.new.trace.items ≡ log.old.trace.items)
        × (log.new.acks.items ≡ log.old.acks.items)) }
{
    let blocks = ready.plan.blocks.as_slice();
    match commit(disk, kept.target, kept.closes(), blocks, ready.plan.body) {
        Ok(disk) => {
            log.acknowledge(ready.next.epoch, disk.moment());
            Ok(disk)
        }
        Err(bad) => Err(bad),
    }
}
