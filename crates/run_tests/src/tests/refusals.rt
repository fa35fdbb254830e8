//! Commands that are refused: how they end, and that neither the disk nor the output changes.
use crate::tests::samples::{
    FLAT_P, RESTORE, RUN, WRITE_HI, Wanted, disk_of, ends_as, files, hi_disk, program, restored,
    run, run_new, sink, words, zeros,
};
use crate::tests::shape_disk::Shape;
use aurora_top::{Ending, aurora_solo};
use command_words::End;
use dev_traits::mem::MemSink;
use std::alloc::Global;
use std::test::Fail;

const USAGE: Wanted = (End::Usage, 3, "usage\n");

const NOT_BUILT: Wanted = (End::NotBuilt, 18, "not built\n");

const NO_CHECKPOINT: Wanted = (End::NoCheckpoint, 6, "no checkpoint\n");

const FIFTEEN: Wanted = (End::DiskShape { blocks: 15 }, 14, "disk shape 15\n");

const STRANGE: Wanted = (
    End::SinkStrange {
        count: 1,
        from: 0,
        last: 0,
    },
    15,
    "sink strange 1 from 0 to 0\n",
);

const LONGER: Wanted = (
    End::SinkStrange {
        count: 4,
        from: 0,
        last: 3,
    },
    15,
    "sink strange 4 from 0 to 3\n",
);

const OCCUPIED: Wanted = (End::Occupied { epoch: 1 }, 7, "occupied epoch 1\n");

const DAMAGED: Wanted = (End::Damaged { epoch: 1 }, 8, "damaged epoch 1\n");

const WORN: Wanted = (
    End::Worn {
        epoch: 4_611_686_018_427_387_905,
    },
    17,
    "worn epoch 4611686018427387905\n",
);

const FAULT: Wanted = (End::FilesFault, 11, "files fault\n");

/// A command, its manifest, the bytes of its image, the blocks of its disk, and its output.
type Found = (
    &'static [&'static str],
    &'static [u8],
    usize,
    usize,
    &'static [u8],
);

/// Words that are no command's.
const NO_COMMANDS: [&[&str]; 6] = [
    &[],
    &["run", "d", "o"],
    &["run", "d", "-o", "m"],
    &["run", "d", "o", "m", "--turns", "0"],
    &["run", "d", "o", "m", "--turns=5", "--turns=6"],
    &["show", "d", "--workers", "1"],
];

/// Commands on a disk of zeros.
const REFUSED: [(Wanted, Found); 13] = [
    (NOT_BUILT, (RUN, b"aurora 1", 4096, 16, b"")),
    (NOT_BUILT, (RUN, b"aurora 1\n", 4096, 16, b"")),
    (NOT_BUILT, (RUN, b"aurora 2", 4096, 16, b"")),
    (NOT_BUILT, (RUN, b"aurora 2\nflat p\n", 4096, 16, b"")),
    (NOT_BUILT, (RUN, b"aurora 1\nflat p", 4096, 16, b"")),
    (NOT_BUILT, (RUN, b"aurora 1\nflat q\n", 4096, 16, b"")),
    (NOT_BUILT, (&["run", "d", "o", "q"], FLAT_P, 4096, 16, b"")),
    (NOT_BUILT, (RUN, FLAT_P, 0, 16, b"")),
    (NOT_BUILT, (RUN, FLAT_P, 16_777_217, 16, b"")),
    (NO_CHECKPOINT, (RESTORE, FLAT_P, 4096, 16, b"")),
    (FIFTEEN, (RUN, FLAT_P, 4096, 15, b"")),
    (FIFTEEN, (RESTORE, FLAT_P, 4096, 15, b"")),
    (STRANGE, (RUN, FLAT_P, 4096, 16, b"x")),
];

fn is_refused(alloc: Global, wanted: Wanted, found: Found) -> Result<bool, Fail> {
    let (texts, manifest, image, blocks, output) = found;
    let files = files(alloc, manifest, zeros(alloc, image)?)?;
    let disk = disk_of(alloc, zeros(alloc, blocks.saturating_mul(4096))?)?;
    let left = run(alloc, texts, files, disk, sink(alloc, output)?)?;
    let unwritten = left.disk.as_slice().iter().all(|byte| *byte == 0);
    Ok(ends_as(&left, wanted) && unwritten && left.out.as_slice() == output)
}

#[test]
fn commands_on_a_new_disk_are_refused(rt: HostRuntime) -> Result<(), Fail> {
    for texts in NO_COMMANDS {
        let found = (texts, FLAT_P, 4096, 16, b"".as_slice());
        assert!(rt; is_refused(rt.alloc(), USAGE, found)?);
    }
    for (wanted, found) in REFUSED {
        assert!(rt; is_refused(rt.alloc(), wanted, found)?, "{}", wanted.2);
    }
    Ok(())
}

/// What is said of a command on a disk that tells so many blocks, and its status.
fn said_of_shape(alloc: Global, texts: &[&str], blocks: u64) -> Result<(u8, MemSink), Fail> {
    let words = words(alloc, texts)?;
    let files = program(alloc, WRITE_HI, b"hi\n")?;
    let (out, say) = (sink(alloc, b"")?, sink(alloc, b"")?);
    let Ending { status, say, .. } = aurora_solo(alloc, &words, files, Shape::of(blocks), out, say);
    Ok((status, say))
}

#[test]
fn a_block_above_the_most_is_too_many(rt: HostRuntime) -> Result<(), Fail> {
    for texts in [RUN, RESTORE] {
        let (status, say) = said_of_shape(rt.alloc(), texts, 1_048_577)?;
        assert_eq!(rt; status, 14);
        assert_eq!(rt; say.bytes(), b"disk shape 1048577\n".as_slice());
    }
    Ok(())
}

#[test]
fn a_failed_read_of_the_files_is_a_fault(rt: HostRuntime) -> Result<(), Fail> {
    let alloc = rt.alloc();
    for number in [1u64, 2] {
        let files = program(alloc, WRITE_HI, b"hi\n")?.failing(vec![in alloc; number]?);
        let left = run_new(alloc, RUN, files)?;
        assert!(rt; ends_as(&left, FAULT));
        assert!(rt; left.disk.as_slice().iter().all(|byte| *byte == 0));
        assert_eq!(rt; left.out.as_slice(), b"".as_slice());
    }
    Ok(())
}

#[test]
fn a_disk_with_a_checkpoint_is_occupied(rt: HostRuntime) -> Result<(), Fail> {
    let alloc = rt.alloc();
    let held = hi_disk(alloc)?;
    let files = program(alloc, WRITE_HI, b"hi\n")?;
    let disk = disk_of(alloc, held.clone()?)?;
    let left = run(alloc, RUN, files, disk, sink(alloc, b"")?)?;
    assert!(rt; ends_as(&left, OCCUPIED));
    assert_eq!(rt; left.disk.as_slice(), held.as_slice());
    assert_eq!(rt; left.out.as_slice(), b"".as_slice());
    Ok(())
}

/// Where the eight bytes of slot A's epoch and of its record's length stand, and those of the first meta block's link.
const EPOCH: usize = 16;

const LENGTH: usize = 32;

const LINK: usize = 8192;

const DONE: Wanted = (
    End::Done {
        epoch: 1,
        turns: 0,
        output: 3,
    },
    0,
    "done epoch 1 turns 0 output 3\n",
);

const LAST: Wanted = (
    End::Done {
        epoch: 4_611_686_018_427_387_904,
        turns: 0,
        output: 3,
    },
    0,
    "done epoch 4611686018427387904 turns 0 output 3\n",
);

/// Numbers that are put at places of the disk that holds a checkpoint with three bytes of output, and what the output has
/// before and after it is restored.
type Patched = (&'static [(usize, u64)], &'static [u8], &'static [u8]);

const PATCHED: [(Wanted, Patched); 9] = [
    (DONE, (&[], b"", b"hi\n")),
    (DONE, (&[], b"h", b"hi\n")),
    (DONE, (&[], b"hi\n", b"hi\n")),
    (LONGER, (&[], b"hi\nh", b"hi\nh")),
    // a chain without an end, a length of zero, and a longest chain of one block
    (DAMAGED, (&[(LINK, 2)], b"", b"")),
    (DAMAGED, (&[(LENGTH, 0)], b"", b"")),
    (DAMAGED, (&[(LINK, 2), (LENGTH, 14 * 4088)], b"", b"")),
    (LAST, (&[(EPOCH, 4_611_686_018_427_387_904)], b"", b"hi\n")),
    (WORN, (&[(EPOCH, 4_611_686_018_427_387_905)], b"", b"")),
];

/// The bytes with this number in place of the eight at a place.
pub fn patched(alloc: Global, image: &[u8], place: usize, number: u64) -> Result<Vec<u8>, Fail> {
    let mut bytes = Vec::new(alloc);
    bytes.extend_from_slice(image.get(..place).unwrap_or(&[]))?;
    bytes.extend_from_slice(&number.to_le_bytes())?;
    let behind = bytes.len();
    bytes.extend_from_slice(image.get(behind..).unwrap_or(&[]))?;
    Ok(bytes)
}

/// Whether a restore of the patched disk ends so and writes nothing to it.
fn is_restored(alloc: Global, wanted: Wanted, case: Patched) -> Result<bool, Fail> {
    let (patches, before, after) = case;
    let mut held = hi_disk(alloc)?;
    for (place, number) in patches {
        held = patched(alloc, &held, *place, *number)?;
    }
    let left = restored(alloc, RESTORE, held.clone()?, before)?;
    let unwritten = left.disk.as_slice() == held.as_slice();
    Ok(ends_as(&left, wanted) && unwritten && left.out.as_slice() == after)
}

#[test]
fn what_a_disk_holds_is_restored_or_refused(rt: HostRuntime) -> Result<(), Fail> {
    let alloc = rt.alloc();
    let held = hi_disk(alloc)?;
    assert_eq!(rt; held.get(24..LENGTH), Some(2u64.to_le_bytes().as_slice()));
    for (wanted, case) in PATCHED {
        assert!(rt; is_restored(alloc, wanted, case)?, "{}", wanted.2);
    }
    Ok(())
}
