//! Restoring the group that a disk holds.
ghost use Rattle.std.specs.Prelude.{◌≡◌, ◌≤◌, ◌^◌, IfOk};
ghost use Rattle.std.specs.Option.{ForSome};
ghost use Rattle.ckpt_chain.specs.Reads.{OnlyReads};
ghost use Rattle.ckpt_chain.specs.declared.stream.StreamRefused.TheVariants as reasons;
ghost use Rattle.restore_group.specs.Outcome.{IsOutcome, IsSound, FaultIsCause};
ghost use Rattle.restore_group.specs.declared.restoring.Refused.TheVariants as refusals;

use crate::layers::read_layers;
use crate::record::meta_of;
use ckpt_chain::{StreamRefused, read_slots};
use ckpt_records::{Meta, Origin, Parts, Placement, one_spelled};
use dev_traits::Disk;
use std::alloc::Global;

/// Why no group was restored.
#[derive(Clone, Copy, Debug, PartialEq, Eq)]
pub enum Refused {
    /// No slot is open.
    NoCheckpoint,
    /// A slot is open, and the disk holds no group; the newest open slot has this epoch.
    Damaged { epoch: u64 },
    DiskFault,
    NoMemory,
}

// Why the checkpoint of an epoch wasn't read.
fn refusal(refused: StreamRefused, epoch: u64) -> Refused
    ensures { result ≡ elim refused [
      | reasons.Broken ↦ refusals.Damaged epoch
      | reasons.DiskFault ↦ refusals.DiskFault
      | reasons.NoMemory ↦ refusals.NoMemory
    ] }
{
    match refused {
        StreamRefused::Broken => Refused::Damaged { epoch },
        StreamRefused::DiskFault => Refused::DiskFault,
        StreamRefused::NoMemory => Refused::NoMemory,
    }
}

/// The group that the disk holds, and where it lies. Each slot, each meta block and each listed page is read once.
pub fn restore<D: Disk>(alloc: Global, disk: &mut D) -> Result<Origin, Refused>
    requires least { 16 ≤ (D.view disk.old).blocks }
    requires most { (D.view disk.old).blocks ≤ 2 ^ 20 }
    ensures outcome { ForSome (D.view disk.old).reading (λ r. IsOutcome r result) }
    ensures sound { IfOk result (λ o. IsSound (D.view disk.old).blocks o) }
    ensures disk { OnlyReads (D.view disk.old) (D.view disk.new) }
    ensures cause { FaultIsCause (D.view disk.old).faults (D.view disk.new).faults result }
{
    let slots = match read_slots(disk) {
        Ok(slots) => slots,
        Err(_) => return Err(Refused::DiskFault),
    };
    let gates = slots.gates;
    let Some((slot, body)) = slots.newest else {
        return Err(Refused::NoCheckpoint);
    };
    let (meta, metas) = match meta_of(alloc, disk, body) {
        Ok(found) => found,
        Err(refused) => return Err(refusal(refused, body.epoch)),
    };
    one_spelled();
    let Meta { frame, pages } = meta;
    let layers = match read_layers(alloc, disk, frame.objects.as_slice(), pages.as_slice()) {
        Ok(layers) => layers,
        Err(refused) => return Err(refusal(refused, body.epoch)),
    };
    Ok(Origin {
        epoch: body.epoch,
        parts: Parts { frame, layers },
        placement: Placement { pages, metas, slot },
        gates,
    })
}
