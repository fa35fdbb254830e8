ghost use Rattle.std.specs.Prelude.{◌≡◌, ◌<◌, ◌≤◌, ◌+◌, ◌*◌, ◌↔◌, List, ℕ, [], ◌∷◌, length, slice_index, IsTrue, IsErr, is_err, false, ◌||◌, IfOk, IfErr, OnOk, OnErr};
ghost use Rattle.std.specs.Option.{ForSome};
ghost use Rattle.dev_traits.specs.Commits.{wrote, synced, unchanged};
ghost use Rattle.dev_traits.specs.Counts.{one_more_if, HasCause, Rose, one_more};
ghost use Rattle.dev_traits.specs.Disk.{OnlyReading, Puts, CommitsBy};
ghost use Rattle.dev_traits.specs.Since.{LeavesOnly};
ghost use Rattle.ckpt_chain.specs.Slot.{gate_place, IsFormat, body_bytes};
ghost use Rattle.commit_gate.specs.Commit.{IsBeforeLaid, IsTornAt, PassesOver, Begins, put_down, FailsToPut};

use crate::written::Written;
use ckpt_chain::{Slot, SlotBody, slot_text};
use dev_traits::{Disk, Failed};
use std::snapshot::Snapshot;

/// The disk failed in the write of a block.
#[derive(Clone, Copy, Debug, Drop, PartialEq, Eq)]
pub struct DiskFault;

/// The disk after a fault. The commit is over. What the call that failed may have left is what it may leave
/// when it answers Ok.
pub struct BadDisk<D> {
    pub disk: D,
}

/// The target's gate is closed, and blocks are written. `start` is the disk as `start` was given it,
/// `written` the blocks so far, those whose write failed among them.
pub struct Closed<D: Disk> {
    pub(crate) disk: D,
    pub(crate) start: Snapshot<D>,
    pub(crate) target: Slot,
    /// Whether the target's gate read 1, so that byte 0 was written to it.
    pub(crate) close: bool,
    pub(crate) written: Written,
    /// Whether a write of a block failed: `write` alone sets it, and `laid` asks for it.
    pub(crate) failed: bool,
    pub ghost sized: { (16 ≤ (D.view disk).blocks) × ((D.view disk).blocks ≤ 1048576) },
    pub ghost later: { (D.view start.value).moment ≤ (D.view disk).moment },
    pub ghost since: { (image : List ℕ) → (D.view disk).left (D.view start.value).moment image
        → IsBeforeLaid (D.view start.value).reading target close written image },
}

/// The blocks are on the disk: a stop leaves its reading. By the clauses of `start` and of each `write`,
/// which compose, the blocks then read as written, the target's gate reads 0 where it was closed, and all
/// else reads as at `start`.
pub struct Laid<D: Disk> {
    pub(crate) disk: D,
    pub(crate) target: Slot,
    pub ghost sized: { (16 ≤ (D.view disk).blocks) × ((D.view disk).blocks ≤ 1048576) },
    pub ghost only: { OnlyReading (D.view disk) },
}

/// The slot's body is on the disk: a stop leaves its reading.
pub struct Bodied<D: Disk> {
    pub(crate) disk: D,
    pub(crate) target: Slot,
    pub ghost sized: { (16 ≤ (D.view disk).blocks) × ((D.view disk).blocks ≤ 1048576) },
    pub ghost only: { OnlyReading (D.view disk) },
}

/// The gate is open on the disk: a stop leaves its reading.
pub struct Opened<D: Disk> {
    pub(crate) disk: D,
    pub ghost only: { OnlyReading (D.view disk) },
}

fn gate_at(slot: Slot) -> u64
    ensures { result ≡ gate_place slot }
{
    match slot {
        Slot::A => 0,
        Slot::B => 4096,
    }
}

fn close_gate<D: Disk>(disk: &mut D, target: Slot, close: bool) -> Result<(), Failed>
    requires sized { 2 ≤ (D.view disk.old).blocks }
    requires only { OnlyReading (D.view disk.old) }
    ensures closed { OnOk result (Begins target close (D.view disk.old) (D.view disk.new)) }
    ensures blocks { (D.view disk.new).blocks ≡ (D.view disk.old).blocks }
    ensures images { LeavesOnly (D.view disk.old) (D.view disk.new)
        (IsBeforeLaid (D.view disk.old).reading target close []) }
    ensures commits { CommitsBy unchanged (D.view disk.old) (D.view disk.new) }
    ensures writes { (D.view disk.new).writes ≡ one_more_if close (D.view disk.old).writes }
    ensures faults { HasCause (D.view disk.old).faults (D.view disk.new).faults (IsErr result) }
{
    if close {
        return disk.write_at(gate_at(target), &[0]);
    }
    Ok(())
}

/// Begins a commit to this slot: where its gate reads 1, byte 0 is written to it. That write is none that
/// a disk counts to its commits.
pub fn start<D: Disk>(disk: D, target: Slot, close: bool) -> Result<Closed<D>, BadDisk<D>>
    requires sized { (16 ≤ (D.view disk).blocks) × ((D.view disk).blocks ≤ 1048576) }
    requires only { OnlyReading (D.view disk) }
    requires gate { ForSome (D.view disk).reading
        (λ r. IsTrue close ↔ (slice_index r (gate_place target) ≡ 1)) }

    ensures begun { IfOk result
        (λ closed. (closed.start.value ≡ disk) × (closed.target ≡ target) × (closed.close ≡ close)
        × (closed.written ≡ []) × (closed.failed ≡ false)) }
    ensures closed { IfOk result
        (λ closed. Begins target close (D.view disk) (D.view closed.disk)) }
    ensures blocks { IfOk result (λ closed. (D.view closed.disk).blocks ≡ (D.view disk).blocks) }
    ensures blocks_err { IfErr result (λ bad. (D.view bad.disk).blocks ≡ (D.view disk).blocks) }

    ensures images { IfOk result
        (λ closed. LeavesOnly (D.view disk) (D.view closed.disk)
        (IsBeforeLaid (D.view disk).reading target close [])) }
    ensures images_err { IfErr result
        (λ bad. LeavesOnly (D.view disk) (D.view bad.disk)
        (IsBeforeLaid (D.view disk).reading target close [])) }

    ensures commits { IfOk result
        (λ closed. CommitsBy unchanged (D.view disk) (D.view closed.disk)) }
    ensures commits_err { IfErr result
        (λ bad. CommitsBy unchanged (D.view disk) (D.view bad.disk)) }
    ensures writes { IfOk result
        (λ closed. (D.view closed.disk).writes ≡ one_more_if close (D.view disk).writes) }
    ensures writes_err { IfErr result
        (λ bad. (D.view bad.disk).writes ≡ one_more_if close (D.view disk).writes) }
    ensures later { IfOk result (λ closed. (D.view disk).faults ≤ (D.view closed.disk).faults) }
    ensures cause { IfErr result (λ bad. Rose (D.view disk).faults (D.view bad.disk).faults) }
{
    let mut disk = disk;
    let start = Snapshot::of(&disk);
    if close_gate(&mut disk, target, close).is_err() {
        return Err(BadDisk { disk });
    }
    Ok(Closed {
        disk,
        start,
        target,
        close,
        written: Written::new(),
        failed: false,
    })
}

impl<D: Disk> Closed<D> {
    /// Writes a block. After a failure it may hold anything, and the commit can't be laid any more.
    pub fn write(&mut self, block: u64, bytes: &[u8]) -> Result<(), DiskFault>
        requires whole { length bytes.now ≡ 4096 }
        requires within { (2 ≤ block) × (block < (D.view self.old.disk).blocks) }

        ensures written { self.new.written ≡ block ∷ self.old.written }
        ensures same { (self.new.start ≡ self.old.start) × (self.new.target ≡ self.old.target)
            × (self.new.close ≡ self.old.close) }
        ensures ok { OnOk result
            (Puts (4096 * block) bytes.now (D.view self.old.disk) (D.view self.new.disk)) }
        ensures failed { self.new.failed ≡ self.old.failed || is_err result }
        ensures blocks { (D.view self.new.disk).blocks ≡ (D.view self.old.disk).blocks }

        ensures images { LeavesOnly (D.view self.old.disk) (D.view self.new.disk)
            (IsBeforeLaid (D.view self.old.start.value).reading self.old.target self.old.close
            (block ∷ self.old.written)) }

        ensures commits { OnOk result
            (CommitsBy (wrote (4096 * block) bytes.now) (D.view self.old.disk)
            (D.view self.new.disk)) }
        ensures commits_err { OnErr result
            (CommitsBy unchanged (D.view self.old.disk) (D.view self.new.disk)) }
        ensures writes { (D.view self.new.disk).writes ≡ one_more (D.view self.old.disk).writes }
        ensures faults { HasCause (D.view self.old.disk).faults (D.view self.new.disk).faults
            (IsErr result) }
    {
        self.written.add(block);
        if self.disk.write_at(4096 * block, bytes).is_err() {
            self.failed = true;
            return Err(DiskFault);
        }
        Ok(())
    }

    /// Puts what is written on the disk: one sync.
    pub fn laid(self) -> Result<Laid<D>, BadDisk<D>>
        requires { self.failed ≡ false }

        ensures same { IfOk result
            (λ laid. (laid.target ≡ self.target)
            × ((D.view laid.disk).reading ≡ (D.view self.disk).reading)
            × ((D.view laid.disk).blocks ≡ (D.view self.disk).blocks)) }
        ensures blocks_err { IfErr result
            (λ bad. (D.view bad.disk).blocks ≡ (D.view self.disk).blocks) }

        ensures images { IfOk result
            (λ laid. LeavesOnly (D.view self.disk) (D.view laid.disk)
            (IsBeforeLaid (D.view self.start.value).reading self.target self.close self.written)) }
        ensures images_err { IfErr result
            (λ bad. LeavesOnly (D.view self.disk) (D.view bad.disk)
            (IsBeforeLaid (D.view self.start.value).reading self.target self.close self.written)) }

        ensures commits { IfOk result
            (λ laid. CommitsBy synced (D.view self.disk) (D.view laid.disk)) }
        ensures commits_err { IfErr result
            (λ bad. CommitsBy unchanged (D.view self.disk) (D.view bad.disk)) }
        ensures writes { IfOk result
            (λ laid. (D.view laid.disk).writes ≡ (D.view self.disk).writes) }
        ensures writes_err { IfErr result
            (λ bad. (D.view bad.disk).writes ≡ (D.view self.disk).writes) }
        ensures later { IfOk result
            (λ laid. (D.view self.disk).faults ≤ (D.view laid.disk).faults) }
        ensures cause { IfErr result
            (λ bad. Rose (D.view self.disk).faults (D.view bad.disk).faults) }
    {
        let Closed {
            mut disk,
            start: _,
            target,
            close: _,
            written: _,
            failed: _,
        } = self;
        if disk.sync().is_err() {
            return Err(BadDisk { disk });
        }
        Ok(Laid { disk, target })
    }

    /// Ends the commit, and hands the disk back as it is: a stop leaves what it may leave before `laid`.
    pub fn give_up(self) -> D
        ensures { result ≡ self.disk }
    {
        let Closed {
            disk,
            start: _,
            target: _,
            close: _,
            written: _,
            failed: _,
        } = self;
        disk
    }
}

// Writes some bytes of a slot, and syncs.
fn put_slot<D: Disk>(disk: &mut D, place: u64, bytes: &[u8]) -> Result<(), Failed>
    requires within { place + length bytes.now ≤ 4096 * (D.view disk.old).blocks }
    requires few { length bytes.now ≤ 4096 }
    requires only { OnlyReading (D.view disk.old) }
    ensures put { OnOk result (Puts place bytes.now (D.view disk.old) (D.view disk.new)) }
    ensures only { OnOk result (OnlyReading (D.view disk.new)) }
    ensures blocks { (D.view disk.new).blocks ≡ (D.view disk.old).blocks }
    ensures images { LeavesOnly (D.view disk.old) (D.view disk.new)
        (IsTornAt place (length bytes.now) (D.view disk.old).reading) }
    ensures time { PassesOver (D.view disk.old) (D.view disk.new) }
    ensures commits { OnOk result
        (CommitsBy (put_down place bytes.now) (D.view disk.old) (D.view disk.new)) }
    ensures commits_err { OnErr result
        (FailsToPut place bytes.now (D.view disk.old) (D.view disk.new)) }
    ensures writes { (D.view disk.new).writes ≡ one_more (D.view disk.old).writes }
    ensures faults { HasCause (D.view disk.old).faults (D.view disk.new).faults (IsErr result) }
{
    disk.write_at(place, bytes)?;
    disk.sync()
}

impl<D: Disk> Laid<D> {
    /// Writes the slot's body, bytes 8 to 39 of its block, and syncs. New checkpoints are in format 2.
    pub fn body(self, body: SlotBody) -> Result<Bodied<D>, BadDisk<D>>
        requires { body.format ≡ 2 }

        ensures same { IfOk result
            (λ bodied. (bodied.target ≡ self.target)
            × ((D.view bodied.disk).blocks ≡ (D.view self.disk).blocks)) }
        ensures blocks_err { IfErr result
            (λ bad. (D.view bad.disk).blocks ≡ (D.view self.disk).blocks) }
        ensures put { IfOk result
            (λ bodied. Puts (gate_place self.target + 8) (body_bytes body) (D.view self.disk)
            (D.view bodied.disk)) }

        ensures images { IfOk result
            (λ bodied. LeavesOnly (D.view self.disk) (D.view bodied.disk)
            (IsTornAt (gate_place self.target + 8) 32 (D.view self.disk).reading)) }
        ensures images_err { IfErr result
            (λ bad. LeavesOnly (D.view self.disk) (D.view bad.disk)
            (IsTornAt (gate_place self.target + 8) 32 (D.view self.disk).reading)) }
        ensures time { IfOk result
            (λ bodied. PassesOver (D.view self.disk) (D.view bodied.disk)) }
        ensures time_err { IfErr result
            (λ bad. PassesOver (D.view self.disk) (D.view bad.disk)) }

        ensures commits { IfOk result
            (λ bodied. CommitsBy (put_down (gate_place self.target + 8) (body_bytes body))
            (D.view self.disk) (D.view bodied.disk)) }
        ensures commits_err { IfErr result
            (λ bad. FailsToPut (gate_place self.target + 8) (body_bytes body) (D.view self.disk)
            (D.view bad.disk)) }
        ensures writes { IfOk result
            (λ bodied. (D.view bodied.disk).writes ≡ one_more (D.view self.disk).writes) }
        ensures writes_err { IfErr result
            (λ bad. (D.view bad.disk).writes ≡ one_more (D.view self.disk).writes) }
        ensures later { IfOk result
            (λ bodied. (D.view self.disk).faults ≤ (D.view bodied.disk).faults) }
        ensures cause { IfErr result
            (λ bad. Rose (D.view self.disk).faults (D.view bad.disk).faults) }
    {
        let Laid { mut disk, target } = self;
        let bytes = bytes_of(body);
        if put_slot(&mut disk, gate_at(target) + 8, &bytes).is_err() {
            return Err(BadDisk { disk });
        }
        Ok(Bodied { disk, target })
    }
}

impl<D: Disk> Bodied<D> {
    /// Opens the gate: writes byte 1 to it, and syncs.
    pub fn gate(self) -> Result<Opened<D>, BadDisk<D>>
        ensures same { IfOk result
            (λ opened. (D.view opened.disk).blocks ≡ (D.view self.disk).blocks) }
        ensures blocks_err { IfErr result
            (λ bad. (D.view bad.disk).blocks ≡ (D.view self.disk).blocks) }
        ensures put { IfOk result
            (λ opened. Puts (gate_place self.target) (1 ∷ []) (D.view self.disk)
            (D.view opened.disk)) }

        ensures images { IfOk result
            (λ opened. LeavesOnly (D.view self.disk) (D.view opened.disk)
            (IsTornAt (gate_place self.target) 1 (D.view self.disk).reading)) }
        ensures images_err { IfErr result
            (λ bad. LeavesOnly (D.view self.disk) (D.view bad.disk)
            (IsTornAt (gate_place self.target) 1 (D.view self.disk).reading)) }
        ensures time { IfOk result
            (λ opened. PassesOver (D.view self.disk) (D.view opened.disk)) }
        ensures time_err { IfErr result
            (λ bad. PassesOver (D.view self.disk) (D.view bad.disk)) }

        ensures commits { IfOk result
            (λ opened. CommitsBy (put_down (gate_place self.target) (1 ∷ [])) (D.view self.disk)
            (D.view opened.disk)) }
        ensures commits_err { IfErr result
            (λ bad. FailsToPut (gate_place self.target) (1 ∷ []) (D.view self.disk)
            (D.view bad.disk)) }
        ensures writes { IfOk result
            (λ opened. (D.view opened.disk).writes ≡ one_more (D.view self.disk).writes) }
        ensures writes_err { IfErr result
            (λ bad. (D.view bad.disk).writes ≡ one_more (D.view self.disk).writes) }
        ensures later { IfOk result
            (λ opened. (D.view self.disk).faults ≤ (D.view opened.disk).faults) }
        ensures cause { IfErr result
            (λ bad. Rose (D.view self.disk).faults (D.view bad.disk).faults) }
    {
        let Bodied { mut disk, target } = self;
        if put_slot(&mut disk, gate_at(target), &[1]).is_err() {
            return Err(BadDisk { disk });
        }
        Ok(Opened { disk })
    }
}

impl<D: Disk> Opened<D> {
    /// Hands the disk back.
    pub fn into_disk(self) -> D
        ensures same { result ≡ self.disk }
        ensures only { OnlyReading (D.view result) }
    {
        let Opened { disk } = self;
        disk
    }
}

fn bytes_of(body: SlotBody) -> [u8; 32]
    requires { IsFormat body.format }
    ensures { result ≡ body_bytes body }
{
    let mut bytes = [0; 32];
    bytes[..8].copy_from_slice(&slot_text(body.format));
    bytes[8..16].copy_from_slice(&body.epoch.to_le_bytes());
    bytes[16..24].copy_from_slice(&body.first.to_le_bytes());
    bytes[24..].copy_from_slice(&body.length.to_le_bytes());
    bytes
}
