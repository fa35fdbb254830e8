//! Disks of both formats: one of format 1 is read, and the next commit writes format 2 beside its slot.
use crate::tests::refusals::patched;
use crate::tests::runs::{STEP, full_of_ones};
use crate::tests::samples::{
    FLAT_P, Left, Wanted, disk_of, ends_as, files, restored, run, sink, spent, stopped_in_the_gate,
    zeros,
};
use command_words::End;
use dev_traits::mem::Fill;
use std::alloc::Global;
use std::test::Fail;

/// Where the text and the record's length stand in slot A, and the record in block 15.
const TEXT: usize = 8;

const LENGTH: usize = 32;

const RECORD: usize = 61_448;

/// Where the list of pages stands in the record.
const PAGES: usize = RECORD + 688;

/// The texts AURSLOT1, AURMETA1 and AURMETA2 as numbers, the low byte first.
const SLOT_1: u64 = 0x3154_4f4c_5352_5541;

const META_1: u64 = 0x3141_5445_4d52_5541;

const META_2: u64 = 0x3241_5445_4d52_5541;

/// The disk of so many blocks that a run of one step of thirteen pages leaves.
fn thirteen(alloc: Global, blocks: usize) -> Result<Vec<u8>, Fail> {
    let disk = disk_of(alloc, zeros(alloc, blocks.saturating_mul(4096))?)?;
    let files = files(alloc, FLAT_P, full_of_ones(alloc, 13)?)?;
    Ok(run(alloc, STEP, files, disk, sink(alloc, b"")?)?.disk)
}

/// The same checkpoint in format 1: the pages one by one, each with its object, its number and its block.
fn thirteen_of_format_1(alloc: Global, blocks: usize) -> Result<Vec<u8>, Fail> {
    let mut disk = thirteen(alloc, blocks)?;
    disk = patched(alloc, &disk, TEXT, SLOT_1)?;
    disk = patched(alloc, &disk, LENGTH, 1_008)?;
    disk = patched(alloc, &disk, RECORD, META_1)?;
    disk = patched(alloc, &disk, PAGES, 13)?;
    for page in 0..13 {
        let place = PAGES + 8 + 24 * page;
        disk = patched(alloc, &disk, place, 0)?;
        disk = patched(alloc, &disk, place + 8, page as u64)?;
        disk = patched(alloc, &disk, place + 16, page as u64 + 2)?;
    }
    Ok(disk)
}

const ONE_STEP: &[&str] = &["restore", "d", "o", "--turns", "1", "--quantum", "1"];

/// Slot B of the next checkpoint: the text, epoch 2, meta block 29, and 728 bytes.
const NEXT: &[u8] = b"AURSLOT2\x02\0\0\0\0\0\0\0\x1d\0\0\0\0\0\0\0\xd8\x02\0\0\0\0\0\0";

/// What is said of a restore that commits epoch 2.
const SECOND: &str = "spent epoch 2 turns 1 output 0\n";

#[test]
fn format_2_is_written_beside_format_1(rt: HostRuntime) -> Result<(), Fail> {
    let alloc = rt.alloc();
    let earlier = thirteen_of_format_1(alloc, 32)?;
    let left = restored(alloc, ONE_STEP, earlier.clone()?, b"")?;
    assert!(rt; ends_as(&left, spent(2, 1, 0, SECOND)));
    let disk = left.disk.as_slice();
    assert_eq!(rt; disk.get(..40), earlier.get(..40));
    assert_eq!(rt; disk.get(4096), Some(&1));
    assert_eq!(rt; disk.get(4104..4136), Some(NEXT));
    Ok(())
}

/// The run of the next record: object 0 from page 0 on, 13 pages, from block 16 on.
const NEXT_RUN: [u64; 5] = [1, 0, 0, 13, 16];

#[test]
fn what_format_1_says_of_a_group_is_said_in_format_2(rt: HostRuntime) -> Result<(), Fail> {
    let alloc = rt.alloc();
    let earlier = thirteen_of_format_1(alloc, 32)?;
    let left = restored(alloc, ONE_STEP, earlier.clone()?, b"")?;
    let mut wanted = b"AURMETA2".as_slice().to_vec(alloc)?;
    wanted.extend_from_slice(earlier.get(RECORD + 8..PAGES).unwrap_or(&[]))?;
    for number in NEXT_RUN {
        wanted.extend_from_slice(&number.to_le_bytes())?;
    }
    assert_eq!(rt; wanted.len(), 728);
    assert!(rt; left.disk.get(118_792..119_520) == Some(wanted.as_slice()));
    assert!(rt; left.disk.get(65_536..118_784) == earlier.get(8_192..61_440));
    Ok(())
}

#[test]
fn a_stop_in_the_gate_write_leaves_format_1(rt: HostRuntime) -> Result<(), Fail> {
    let alloc = rt.alloc();
    let earlier = thirteen_of_format_1(alloc, 32)?;
    let stopped = stopped_in_the_gate(alloc, ONE_STEP, earlier.clone()?, Fill::Byte(0))?;
    assert_eq!(rt; stopped.get(4104..4136), Some(NEXT));
    assert_eq!(rt; stopped.get(..40), earlier.get(..40));
    let left = restored(alloc, ONE_STEP, stopped, b"")?;
    assert_eq!(rt; left.origin_epoch, 1);
    assert!(rt; ends_as(&left, spent(2, 1, 0, SECOND)));
    Ok(())
}

const FULL: Wanted = (
    End::DiskFull { need: 14, free: 0 },
    12,
    "disk full need 14 free 0\n",
);

#[test]
fn format_1_stays_where_the_disk_is_full(rt: HostRuntime) -> Result<(), Fail> {
    let alloc = rt.alloc();
    let earlier = thirteen_of_format_1(alloc, 16)?;
    let left = restored(alloc, ONE_STEP, earlier.clone()?, b"")?;
    assert!(rt; ends_as(&left, FULL));
    assert_eq!(rt; left.disk.get(..40), earlier.get(..40));
    assert_eq!(rt; left.disk.get(8192..), earlier.get(8192..));
    Ok(())
}

const DAMAGED: Wanted = (End::Damaged { epoch: 1 }, 8, "damaged epoch 1\n");

/// Numbers at places of the disk of format 2 that spell nothing there: a record of format 1; and its run of thirteen pages
/// as two that continue each other, as one that ends behind its object, and as one of no page.
const DAMAGES: [&[(usize, u64)]; 4] = [
    &[(RECORD, META_1)],
    &[
        (LENGTH, 760),
        (PAGES, 2),
        (PAGES + 24, 6),
        (PAGES + 40, 0),
        (PAGES + 48, 6),
        (PAGES + 56, 7),
        (PAGES + 64, 8),
    ],
    &[(PAGES + 16, 1)],
    &[(PAGES + 24, 0)],
];

/// How a restore of the disk of thirteen pages with these numbers at their places ends.
fn restored_with(alloc: Global, numbers: &[(usize, u64)]) -> Result<Left, Fail> {
    let mut disk = thirteen(alloc, 16)?;
    for (place, number) in numbers {
        disk = patched(alloc, &disk, *place, *number)?;
    }
    restored(alloc, ONE_STEP, disk, b"")
}

#[test]
fn runs_that_are_not_spelled_so_hold_nothing(rt: HostRuntime) -> Result<(), Fail> {
    let alloc = rt.alloc();
    for numbers in DAMAGES {
        assert!(rt; ends_as(&restored_with(alloc, numbers)?, DAMAGED));
    }
    Ok(())
}

#[test]
fn a_record_of_format_2_is_none_of_format_1(rt: HostRuntime) -> Result<(), Fail> {
    let alloc = rt.alloc();
    let earlier = thirteen_of_format_1(alloc, 16)?;
    let disk = patched(alloc, &earlier, RECORD, META_2)?;
    assert!(rt; ends_as(&restored(alloc, ONE_STEP, disk, b"")?, DAMAGED));
    Ok(())
}
