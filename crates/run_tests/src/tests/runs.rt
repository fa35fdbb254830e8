//! Commands that run a group: what is said, put and logged, and what the disk then has.
use crate::tests::samples::{
    EXIT, FLAT_P, LOOP, Left, RUN, WRITE_HI, Wanted, done, ends_as, files, image, program,
    restored, run, run_new, spent, zeros,
};
use command_words::End;
use dev_traits::mem::{MemDisk, MemFiles, MemSink};
use run_defs::Mark;
use std::alloc::Global;
use std::test::Fail;

#[test]
fn a_program_exits(rt: HostRuntime) -> Result<(), Fail> {
    let alloc = rt.alloc();
    let left = run_new(alloc, RUN, program(alloc, EXIT, b"")?)?;
    let trace = [
        Mark::Take { worker: 0, pid: 1 },
        Mark::Turn {
            worker: 0,
            pid: 1,
            n: 2,
        },
        Mark::Barrier { epoch: 1 },
        Mark::Fetch { epoch: 1 },
        Mark::Ack { epoch: 1 },
    ];
    assert_eq!(rt; left.opened_at, 1);
    assert_eq!(rt; left.trace.as_slice(), trace.as_slice());
    assert_eq!(rt; left.acks.len(), 1);
    Ok(())
}

/// Writes the three bytes at 0x10024, which stand behind it, and exits with 7.
const WRITE_AT: &[u32] = &[
    0x0001_05b7,
    0x0245_8593,
    0x0010_0513,
    0x0030_0613,
    0x0400_0893,
    0x0000_0073,
    0x0070_0513,
    0x05d0_0893,
    0x0000_0073,
];

/// Computes DIV of -2^63 by -1, REMU of 5 by 0, MULHSU of -1 and 2^64 - 1 and SRAW of 0x80000000 by 31, stores the four
/// at 0x10100, writes these 32 bytes, and exits with 0.
const CORNERS: &[u32] = &[
    // AUIPC x5, 0; ADDI x5, x5, 256
    0x0000_0297,
    0x1002_8293,
    // ADDI x6, x0, -1; SLLI x7, x6, 63; DIV x8, x7, x6; SD x8, 0(x5)
    0xfff0_0313,
    0x03f3_1393,
    0x0263_c433,
    0x0082_b023,
    // ADDI x9, x0, 5; REMU x9, x9, x0; SD x9, 8(x5)
    0x0050_0493,
    0x0204_f4b3,
    0x0092_b423,
    // MULHSU x8, x6, x6; SD x8, 16(x5)
    0x0263_2433,
    0x0082_b823,
    // ADDI x7, x0, 1; SLLI x7, x7, 31; ADDI x9, x0, 31; SRAW x8, x7, x9; SD x8, 24(x5)
    0x0010_0393,
    0x01f3_9393,
    0x01f0_0493,
    0x4093_d43b,
    0x0082_bc23,
    // ADDI x10, x0, 1; ADDI x11, x5, 0; ADDI x12, x0, 32; ADDI x17, x0, 64; ECALL
    0x0010_0513,
    0x0002_8593,
    0x0200_0613,
    0x0400_0893,
    0x0000_0073,
    // ADDI x10, x0, 0; ADDI x17, x0, 93; ECALL
    0x0000_0513,
    0x05d0_0893,
    0x0000_0073,
];

/// -2^63, 5, and twice all ones.
const ANSWERS: &[u8] = &[
    0, 0, 0, 0, 0, 0, 0, 0x80, 5, 0, 0, 0, 0, 0, 0, 0, 0xff, 0xff, 0xff, 0xff, 0xff, 0xff, 0xff,
    0xff, 0xff, 0xff, 0xff, 0xff, 0xff, 0xff, 0xff, 0xff,
];

/// A program and the bytes behind it, the turns that it takes, its output, and what is said.
type Program = (
    &'static [u32],
    &'static [u8],
    u64,
    &'static [u8],
    &'static str,
);

const HI: &str = "done epoch 1 turns 2 output 3\n";

const PROGRAMS: [Program; 5] = [
    (EXIT, b"", 1, b"", "done epoch 1 turns 1 output 0\n"),
    // no instruction begins with four bytes of zero
    (&[], &[0; 4096], 1, b"", "done epoch 1 turns 1 output 0\n"),
    (WRITE_AT, b"hi\n", 2, b"hi\n", HI),
    (WRITE_HI, b"hi\n", 2, b"hi\n", HI),
    (CORNERS, b"", 2, ANSWERS, "done epoch 1 turns 2 output 32\n"),
];

#[test]
fn output_is_put_and_counted(rt: HostRuntime) -> Result<(), Fail> {
    let alloc = rt.alloc();
    for (words, tail, turns, output, line) in PROGRAMS {
        let left = run_new(alloc, RUN, program(alloc, words, tail)?)?;
        assert!(rt;
            ends_as(&left, done(1, turns, output.len() as u64, line)),
            "{line}"
        );
        assert_eq!(rt; left.out.as_slice(), output);
    }
    Ok(())
}

/// An image that jumps to its second page, and writes from there.
fn two_pages(alloc: Global) -> Result<MemFiles, Fail> {
    let mut bytes = image(alloc, &[0x0000_106f], b"")?;
    bytes.resize(4096, 0)?;
    bytes.extend_from_slice(&image(alloc, WRITE_HI, b"hi\n")?)?;
    files(alloc, FLAT_P, bytes)
}

#[test]
fn an_image_of_two_pages_runs(rt: HostRuntime) -> Result<(), Fail> {
    let alloc = rt.alloc();
    let left = run_new(alloc, RUN, two_pages(alloc)?)?;
    assert!(rt; ends_as(&left, done(1, 2, 3, HI)));
    assert_eq!(rt; left.out.as_slice(), b"hi\n".as_slice());
    Ok(())
}

/// Up to eight turns with a barrier behind them.
const EIGHT: &[&str] = &["run", "--turns=8", "--every=8", "d", "o", "m"];

const EIGHT_LINE: &str = "spent epoch 1 turns 8 output 0\n";

#[test]
fn a_run_goes_on_from_its_checkpoint(rt: HostRuntime) -> Result<(), Fail> {
    let alloc = rt.alloc();
    let first = run_new(alloc, EIGHT, program(alloc, LOOP, b"")?)?;
    assert!(rt; ends_as(&first, spent(1, 8, 0, EIGHT_LINE)));
    let words = ["restore", "d", "o", "--turns=3", "--every=2"];
    let left = restored(alloc, &words, first.disk, b"")?;
    assert_eq!(rt; left.origin_epoch, 1);
    let wanted = spent(3, 3, 0, "spent epoch 3 turns 3 output 0\n");
    assert!(rt; ends_as(&left, wanted));
    Ok(())
}

/// Jumps to itself, with bytes of 1 behind that fill so many pages.
pub fn full_of_ones(alloc: Global, pages: usize) -> Result<Vec<u8>, Fail> {
    let mut bytes = image(alloc, LOOP, b"")?;
    bytes.resize(pages.saturating_mul(4096), 1)?;
    Ok(bytes)
}

/// One turn of one step.
pub const STEP: &[&str] = &["run", "d", "o", "m", "--turns", "1", "--quantum", "1"];

const FULL: Wanted = (
    End::DiskFull { need: 15, free: 14 },
    12,
    "disk full need 15 free 14\n",
);

#[test]
fn fourteen_pages_and_their_record_are_too_many(rt: HostRuntime) -> Result<(), Fail> {
    let alloc = rt.alloc();
    for texts in [STEP, EIGHT] {
        let files = files(alloc, FLAT_P, full_of_ones(alloc, 14)?)?;
        let left = run_new(alloc, texts, files)?;
        assert!(rt; ends_as(&left, FULL));
        assert_eq!(rt; left.disk.as_slice().first(), Some(&0));
        assert_eq!(rt; left.disk.as_slice().get(4096), Some(&0));
    }
    Ok(())
}

/// Slot A of a checkpoint of thirteen pages: the text, epoch 1, meta block 15, and 728 bytes.
const SLOT: &[u8] = b"AURSLOT2\x01\0\0\0\0\0\0\0\x0f\0\0\0\0\0\0\0\xd8\x02\0\0\0\0\0\0";

#[test]
fn thirteen_pages_and_their_record_fill_the_disk(rt: HostRuntime) -> Result<(), Fail> {
    let alloc = rt.alloc();
    let program = full_of_ones(alloc, 13)?;
    let step = spent(1, 1, 0, "spent epoch 1 turns 1 output 0\n");
    let eight = spent(1, 8, 0, EIGHT_LINE);
    for (texts, wanted) in [(STEP, step), (EIGHT, eight)] {
        let left = run_new(alloc, texts, files(alloc, FLAT_P, program.clone()?)?)?;
        assert!(rt; ends_as(&left, wanted));
        let bytes = left.disk.as_slice();
        assert_eq!(rt; bytes.first(), Some(&1));
        assert_eq!(rt; bytes.get(8..40), Some(SLOT));
        assert_eq!(rt; bytes.get(8192..61_440), Some(program.as_slice()));
        assert_eq!(rt; bytes.get(61_448..61_456), Some(b"AURMETA2".as_slice()));
        assert_eq!(rt; bytes.get(4096), Some(&0));
    }
    Ok(())
}

/// Writes its first 1,048,577 bytes, as many as the call takes each time, and exits with 0.
const MANY: &[u32] = &[
    // AUIPC x11, 0; LUI x12, 0x100; ADDI x12, x12, 1
    0x0000_0597,
    0x0010_0637,
    0x0016_0613,
    // ADDI x10, x0, 1; ADDI x17, x0, 64; ECALL
    0x0010_0513,
    0x0400_0893,
    0x0000_0073,
    // ADD x11, x11, x10; SUB x12, x12, x10; ADDI x10, x0, 1; BNE x12, x0, -16
    0x00a5_85b3,
    0x40a6_0633,
    0x0010_0513,
    0xfe06_18e3,
    // ADDI x17, x0, 93; ADDI x10, x0, 0; ECALL
    0x05d0_0893,
    0x0000_0513,
    0x0000_0073,
];

/// Writes its first 1,048,576 bytes again and again.
const AGAIN: &[u32] = &[
    0x0000_0597,
    0x0010_0513,
    0x0010_0637,
    0x0400_0893,
    0x0000_0073,
    0xfedf_f06f,
];

/// What a run of an image of this size leaves, on so many blocks and an output with much room. Its bytes behind the
/// program are this one.
fn run_with_room(
    alloc: Global,
    texts: &[&str],
    words: &[u32],
    size: usize,
    byte: u8,
) -> Result<Left, Fail> {
    let mut program = image(alloc, words, b"")?;
    program.resize(size, byte)?;
    let files = files(alloc, FLAT_P, program)?;
    let disk = MemDisk::of(alloc, zeros(alloc, 4_194_304)?, 2000)?;
    run(
        alloc,
        texts,
        files,
        disk,
        MemSink::of(alloc, Vec::new(alloc), 5_000_000)?,
    )
}

#[test]
fn a_byte_past_the_room_waits_for_the_barrier(rt: HostRuntime) -> Result<(), Fail> {
    let alloc = rt.alloc();
    let left = run_with_room(alloc, RUN, MANY, 1_048_577, 9)?;
    let wanted = done(2, 4, 1_048_577, "done epoch 2 turns 4 output 1048577\n");
    assert!(rt; ends_as(&left, wanted));
    let mut program = image(alloc, MANY, b"")?;
    program.resize(1_048_577, 9)?;
    assert!(rt; left.out.as_slice() == program.as_slice());
    Ok(())
}

#[test]
fn output_past_its_room_takes_several_barriers(rt: HostRuntime) -> Result<(), Fail> {
    let left = run_with_room(rt.alloc(), EIGHT, AGAIN, 1_048_576, 0)?;
    assert_eq!(rt; left.acks.len(), 4);
    let wanted = spent(4, 8, 4_194_304, "spent epoch 4 turns 8 output 4194304\n");
    assert!(rt; ends_as(&left, wanted));
    Ok(())
}
