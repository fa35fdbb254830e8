//! A whole commit, for a caller that has its blocks in a list.
ghost use Rattle.std.specs.Prelude.{◌≡◌, ◌≤◌, ◌+◌, ◌∷◌, ◌++◌, ◌⊎◌, [], ◌↔◌, ℕ, List, length, slice_index, IsTrue, IfOk, IfErr, OnOk, OnErr};
ghost use Rattle.std.specs.Option.{ForSome};
ghost use Rattle.std.specs.List.{AllByRecursion};
ghost use Rattle.dev_traits.specs.Commits.{nothing_written};
ghost use Rattle.dev_traits.specs.Counts.{Rose};
ghost use Rattle.dev_traits.specs.Disk.{OnlyReading};
ghost use Rattle.dev_traits.specs.Since.{LeavesOnly};
ghost use Rattle.ckpt_chain.specs.Slot.{gate_place};
ghost use Rattle.commit_gate.specs.Commit.{IsBeforeLaid, IsTornAt, PassesOver};
ghost use Rattle.commit_gate.specs.Whole.{IsDataBlock, numbers, with_blocks, laid_on, finished, IsDuring, StepsInOrder, FailsInOrder, Reads, calls_more, UpTo, closing, write_calls, AddsCommit, AddsNone};
ghost use Rattle.commit_gate.specs.Phases.{IsSlotOpening, gathered, whole_commit, Goes, HasFailed, GatesLast, Within, stays};

use crate::states::{BadDisk, Closed, DiskFault, Laid, start};
use ckpt_chain::{Slot, SlotBody};
use dev_traits::Disk;
use lists::Seq;

/// A block to be written: its number, and its 4,096 bytes.
#[derive(Debug, Drop)]
pub struct Block {
    pub number: u64,
    pub bytes: Seq<u8>,
}

fn is_placed(block: &Block, count: u64) -> bool
    ensures { IsTrue result ↔ IsDataBlock count block.now }
{
    block.number >= 2 && block.number < count && block.bytes.len() == 4096
}

/// Whether each block lies behind the slots of a disk of so many blocks, and has 4,096 bytes.
pub fn are_placed(blocks: &[Block], count: u64) -> bool
    ensures { IsTrue result ↔ AllByRecursion (IsDataBlock count) blocks.now }
{
    for block in blocks {
        if !is_placed(block, count) {
            return false;
        }
    }
    true
}

// Writes the blocks one after another.
fn lay<D: Disk>(closed: &mut Closed<D>, blocks: &[Block]) -> Result<(), DiskFault>
    requires placed { AllByRecursion (IsDataBlock (D.view closed.old.disk).blocks) blocks.now }
    requires first { closed.old.written ≡ [] }
    ensures laid { OnOk result
        (Reads (with_blocks blocks.now) (D.view closed.old.disk) (D.view closed.new.disk)) }
    ensures works { OnOk result (closed.new.failed ≡ closed.old.failed) }
    ensures same { (closed.new.start ≡ closed.old.start) × (closed.new.target ≡ closed.old.target)
        × (closed.new.close ≡ closed.old.close) × Within (numbers blocks.now) closed.new.written }
    ensures goes { OnOk result
        (Goes (IsBeforeLaid
        (D.view closed.old.start.value).reading closed.old.target closed.old.close
        (numbers blocks.now)) (length blocks.now) nothing_written stays (gathered blocks.now)
        (D.view closed.old.disk) (D.view closed.new.disk)) }
    ensures fails { OnErr result
        (HasFailed (IsBeforeLaid
        (D.view closed.old.start.value).reading closed.old.target closed.old.close
        (numbers blocks.now)) (length blocks.now) nothing_written (D.view closed.old.disk)
        (D.view closed.new.disk)) }
{
    for block in blocks {
        if closed.write(block.number, block.bytes.as_slice()).is_err() {
            return Err(DiskFault);
        }
    }
    Ok(())
}

// Closes the gate where that is due, and writes the blocks.
fn fill<D: Disk>(
    disk: D,
    target: Slot,
    close: bool,
    blocks: &[Block],
) -> Result<Laid<D>, BadDisk<D>>
    requires sized { (16 ≤ (D.view disk).blocks) × ((D.view disk).blocks ≤ 1048576) }
    requires only { OnlyReading (D.view disk) }
    requires gate { ForSome (D.view disk).reading
        (λ r. IsTrue close ↔ (slice_index r (gate_place target) ≡ 1)) }
    requires placed { AllByRecursion (IsDataBlock (D.view disk).blocks) blocks.now }
    ensures laid { IfOk result
        (λ laid. Reads (laid_on target close blocks.now) (D.view disk) (D.view laid.disk)) }
    ensures target { IfOk result (λ laid. laid.target ≡ target) }
    ensures goes { IfOk result
        (λ laid. Goes (IsBeforeLaid (D.view disk).reading target close (numbers blocks.now))
        (closing close + length blocks.now) nothing_written stays (gathered blocks.now)
        (D.view disk) (D.view laid.disk)) }
    ensures fails { IfErr result
        (λ bad. HasFailed (IsBeforeLaid (D.view disk).reading target close (numbers blocks.now))
        (closing close + length blocks.now) nothing_written (D.view disk) (D.view bad.disk)) }
{
    let mut closed = match start(disk, target, close) {
        Ok(closed) => closed,
        Err(bad) => return Err(bad),
    };
    if lay(&mut closed, blocks).is_err() {
        return Err(BadDisk {
            disk: closed.give_up(),
        });
    }
    match closed.laid() {
        Ok(laid) => Ok(laid),
        Err(bad) => Err(bad),
    }
}

// Writes the body, and opens the gate.
fn open_gate<D: Disk>(laid: Laid<D>, body: SlotBody) -> Result<D, BadDisk<D>>
    requires { body.format ≡ 2 }
    ensures done { IfOk result
        (λ d. Reads (finished laid.target [] body) (D.view laid.disk) (D.view d)) }
    ensures only { IfOk result (λ d. OnlyReading (D.view d)) }
    ensures goes { IfOk result
        (λ d. (held : List Block)
        → Goes (IsSlotOpening laid.target body (D.view laid.disk).reading) 2 (gathered held)
        (λ e. e ++ whole_commit held body ∷ []) nothing_written (D.view laid.disk) (D.view d)) }
    ensures order { IfOk result (λ d. GatesLast laid.target body (D.view laid.disk) (D.view d)) }
    ensures order_err { IfErr result
        (λ bad. LeavesOnly (D.view laid.disk) (D.view bad.disk)
        (IsTornAt (gate_place laid.target + 8) 32 (D.view laid.disk).reading)
        ⊎ GatesLast laid.target body (D.view laid.disk) (D.view bad.disk)) }
    ensures time { IfOk result (λ d. PassesOver (D.view laid.disk) (D.view d)) }
    ensures time_err { IfErr result (λ bad. PassesOver (D.view laid.disk) (D.view bad.disk)) }
    ensures fails { IfErr result
        (λ bad. (held : List Block)
        → HasFailed (IsSlotOpening laid.target body (D.view laid.disk).reading) 2 (gathered held)
        (D.view laid.disk) (D.view bad.disk)) }
{
    let bodied = match laid.body(body) {
        Ok(bodied) => bodied,
        Err(bad) => return Err(bad),
    };
    let opened = match bodied.gate() {
        Ok(opened) => opened,
        Err(bad) => return Err(bad),
    };
    Ok(opened.into_disk())
}

/// Writes the blocks, syncs, and opens the target with this body, which is of format 2. `close` says
/// whether the target's gate reads 1. Where one number stands twice, the later bytes are kept.
pub fn commit<D: Disk>(
    disk: D,
    target: Slot,
    close: bool,
    blocks: &[Block],
    body: SlotBody,
) -> Result<D, BadDisk<D>>
    requires sized { (16 ≤ (D.view disk).blocks) × ((D.view disk).blocks ≤ 1048576) }
    requires only { OnlyReading (D.view disk) }
    requires gate { ForSome (D.view disk).reading
        (λ r. IsTrue close ↔ (slice_index r (gate_place target) ≡ 1)) }
    requires placed { AllByRecursion (IsDataBlock (D.view disk).blocks) blocks.now }
    requires format { body.format ≡ 2 }

    ensures done { IfOk result
        (λ d. Reads (finished target blocks.now body) (D.view disk) (D.view d)) }
    ensures only { IfOk result (λ d. OnlyReading (D.view d)) }
    ensures blocks { IfOk result (λ d. (D.view d).blocks ≡ (D.view disk).blocks) }
    ensures blocks_err { IfErr result (λ bad. (D.view bad.disk).blocks ≡ (D.view disk).blocks) }

    ensures images { IfOk result
        (λ d. LeavesOnly (D.view disk) (D.view d)
        (IsDuring target close blocks.now body (D.view disk).reading)) }
    ensures images_err { IfErr result
        (λ bad. LeavesOnly (D.view disk) (D.view bad.disk)
        (IsDuring target close blocks.now body (D.view disk).reading)) }

    ensures order { IfOk result
        (λ d. StepsInOrder target close blocks.now body (D.view disk) (D.view d)) }
    ensures order_err { IfErr result
        (λ bad. FailsInOrder target close blocks.now body (D.view disk) (D.view bad.disk)) }

    ensures commits { IfOk result (λ d. AddsCommit blocks.now body (D.view disk) (D.view d)) }
    ensures commits_err { IfErr result (λ bad. AddsNone (D.view disk) (D.view bad.disk)) }
    ensures writes { IfOk result
        (λ d. (D.view d).writes ≡ calls_more (write_calls close blocks.now) (D.view disk).writes) }
    ensures writes_err { IfErr result
        (λ bad. UpTo (write_calls close blocks.now) (D.view disk).writes (D.view bad.disk).writes) }
    ensures later { IfOk result (λ d. (D.view disk).faults ≤ (D.view d).faults) }
    ensures cause { IfErr result (λ bad. Rose (D.view disk).faults (D.view bad.disk).faults) }
{
    let laid = match fill(disk, target, close, blocks) {
        Ok(laid) => laid,
        Err(bad) => return Err(bad),
    };
    match open_gate(laid, body) {
        Ok(disk) => Ok(disk),
        Err(bad) => Err(bad),
    }
}
