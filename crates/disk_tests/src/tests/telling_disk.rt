//! The commits that a disk tells.
ghost use Rattle.std.specs.Prelude.{◌≡◌, ◌≤◌, IfOk, IfErr, Some, slice_index};
ghost use Rattle.std.specs.List.{AllByRecursion};
ghost use Rattle.std.specs.Option.{ForSome};
ghost use Rattle.dev_traits.specs.Disk.{OnlyReading};
ghost use Rattle.ckpt_chain.specs.Slot.{gate_place};
ghost use Rattle.disk_tests.specs.Telling.{telling_view};
ghost use Rattle.commit_gate.specs.Whole.{IsDataBlock, AddsCommit, AddsNone};

use ckpt_chain::{Slot, SlotBody};
use commit_gate::{BadDisk, Block, are_placed, commit};
use dev_traits::mem::MemDisk;
use dev_traits::{Disk, Failed};
use lists::Seq;
use std::test::Fail;

/// A disk in memory that tells its commits.
#[derive(Drop)]
struct TellingDisk {
    disk: MemDisk,
}

impl TellingDisk {
    fn bytes(&self) -> &[u8]
        ensures { (telling_view self.now.disk).reading ≡ Some result.now }
    {
        self.disk.bytes()
    }
}

impl Disk for TellingDisk {
    ghost use Rattle.dev_traits.specs.Lost.{lost_ranges};
    ghost use Rattle.dev_traits.specs.RecordLaws.{reading_law, fewer_since};

    ghost view = { λ d. telling_view d.disk };

    ghost reading_left = { λ d. reading_law d.disk.blocks d.disk.start.items d.disk.bytes.items
        (lost_ranges d.disk.lost) d.disk.calls.events d.disk.whole d.disk.fits d.disk.apart };

    ghost fewer_later = { λ d t u image le left. fewer_since d.disk.blocks d.disk.start.items
        (lost_ranges d.disk.lost) d.disk.calls.events t u image le left };

    ghost image_size = { λ d t image left. left.0.0 };

    ghost image_bytes = { λ d t image left. left.0.1 };

    fn blocks(&self) -> u64 {
        self.disk.blocks()
    }

    fn moment(&self) -> u64 {
        self.disk.moment()
    }

    fn read_at(&mut self, place: u64, into: &mut [u8]) -> Result<(), Failed> {
        self.disk.read_at(place, into)
    }

    fn write_at(&mut self, place: u64, bytes: &[u8]) -> Result<(), Failed> {
        self.disk.write_at(place, bytes)
    }

    fn sync(&mut self) -> Result<(), Failed> {
        self.disk.sync()
    }
}

// A commit to slot A, whose gate is not 1: the disk tells one commit more, or none.
fn commit_told(
    disk: TellingDisk,
    blocks: &[Block],
    body: SlotBody,
) -> Result<TellingDisk, BadDisk<TellingDisk>>
    requires sized { (16 ≤ (telling_view disk.disk).blocks)
        × ((telling_view disk.disk).blocks ≤ 1048576) }
    requires only { OnlyReading (telling_view disk.disk) }
    requires gate { ForSome (telling_view disk.disk).reading
        (λ r. slice_index r (gate_place Slot.A) ≡ 1 → ⊥) }
    requires placed { AllByRecursion (IsDataBlock (telling_view disk.disk).blocks) blocks.now }
    requires format { body.format ≡ 2 }
    ensures more { IfOk result
        (λ d. AddsCommit blocks.now body (telling_view disk.disk) (telling_view d.disk)) }
    ensures none { IfErr result
        (λ bad. AddsNone (telling_view disk.disk) (telling_view bad.disk.disk)) }
{
    commit(disk, Slot::A, false, blocks, body)
}

// A commit of epoch 1 to a disk whose slot A isn't open, as far as the disk lets it go.
fn commit_one(disk: TellingDisk, blocks: &[Block]) -> TellingDisk {
    let mut disk = disk;
    if disk.blocks() != 16 || !are_placed(blocks, 16) || disk.sync().is_err() {
        return disk;
    }
    if disk.bytes()[0] == 1 {
        return disk;
    }
    let body = SlotBody {
        format: 2,
        epoch: 1,
        first: 3,
        length: 8,
    };
    match commit_told(disk, blocks, body) {
        Ok(disk) => disk,
        Err(BadDisk { disk }) => disk,
    }
}

#[test]
fn a_commit_to_a_disk_that_tells_its_commits_is_made(rt: HostRuntime) -> Result<(), Fail> {
    let alloc = rt.alloc();
    let new = TellingDisk {
        disk: MemDisk::of(alloc, vec![in alloc; 0u8; 65536]?, 7)?,
    };
    let block = Block {
        number: 3,
        bytes: Seq::of(vec![in alloc; 7u8; 4096]?),
    };
    let disk = commit_one(new, &[block]);
    assert_eq!(rt; disk.moment(), 7);
    let bytes = disk.bytes();
    assert!(rt; bytes.get(..1) == Some([1].as_slice()));
    assert!(rt; bytes.get(16..17) == Some([1].as_slice()));
    assert!(rt; bytes.get(12288..12289) == Some([7].as_slice()));
    Ok(())
}
