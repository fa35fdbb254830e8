//! Small programs, memory devices to run them on, and what a command leaves.
use aurora_top::{Ending, aurora_solo};
use command_words::End;
use dev_traits::mem::{Fill, MemDisk, MemFiles, MemSink};
use dev_traits::{Disk, Word};
use run_defs::{AckMark, Mark};
use std::alloc::Global;
use std::test::Fail;

type MemEnding = Ending<MemFiles, MemDisk, MemSink, MemSink>;

/// What a command leaves.
#[derive(Drop)]
pub struct Left {
    pub end: End,
    pub status: u8,
    pub origin_epoch: u64,
    pub opened_at: u64,
    pub trace: Vec<Mark>,
    pub acks: Vec<AckMark>,
    pub disk: Vec<u8>,
    pub out: Vec<u8>,
    pub said: Vec<u8>,
}

/// The manifest of the image `p`.
pub const FLAT_P: &[u8] = b"aurora 1\nflat p\n";

pub const RUN: &[&str] = &["run", "d", "o", "m"];

pub const RESTORE: &[&str] = &["restore", "d", "o"];

/// Exits with 0 at once.
pub const EXIT: &[u32] = &[0x05d0_0893, 0x0000_0513, 0x0000_0073];

/// Jumps to itself.
pub const LOOP: &[u32] = &[0x0000_006f];

/// Writes three bytes that stand behind it, and exits with 7.
pub const WRITE_HI: &[u32] = &[
    0x0000_0597,
    0x0245_8593,
    0x0010_0513,
    0x0030_0613,
    0x0400_0893,
    0x0000_0073,
    0x0070_0513,
    0x05d0_0893,
    0x0000_0073,
];

/// The words of a program, and bytes behind them.
pub fn image(alloc: Global, words: &[u32], tail: &[u8]) -> Result<Vec<u8>, Fail> {
    let mut bytes = Vec::new(alloc);
    for word in words {
        bytes.extend_from_slice(&word.to_le_bytes())?;
    }
    bytes.extend_from_slice(tail)?;
    Ok(bytes)
}

pub fn words(alloc: Global, texts: &[&str]) -> Result<Vec<Word>, Fail> {
    let mut list = Vec::new(alloc);
    for text in texts {
        list.push(Word::new(alloc, text)?)?;
    }
    Ok(list)
}

/// The manifest `m` and the image `p`.
pub fn files(alloc: Global, manifest: &[u8], image: Vec<u8>) -> Result<MemFiles, Fail> {
    let mut list = Vec::new(alloc);
    list.push((Word::new(alloc, "m")?, manifest.to_vec(alloc)?))?;
    list.push((Word::new(alloc, "p")?, image))?;
    Ok(MemFiles::of(alloc, list))
}

/// The manifest of one image, with the program in it.
pub fn program(alloc: Global, words: &[u32], tail: &[u8]) -> Result<MemFiles, Fail> {
    files(alloc, FLAT_P, image(alloc, words, tail)?)
}

pub fn zeros(alloc: Global, size: usize) -> Result<Vec<u8>, Fail> {
    Ok(vec![in alloc; 0u8; size]?)
}

pub fn disk_of(alloc: Global, image: Vec<u8>) -> Result<MemDisk, Fail> {
    Ok(MemDisk::of(alloc, image, 100)?)
}

pub fn sink(alloc: Global, bytes: &[u8]) -> Result<MemSink, Fail> {
    Ok(MemSink::of(alloc, bytes.to_vec(alloc)?, 1000)?)
}

/// What an ending has.
fn left_of(alloc: Global, ending: &MemEnding) -> Result<Left, Fail> {
    let trace = ending.trace.as_slice().to_vec(alloc)?;
    let acks = ending.acks.as_slice().to_vec(alloc)?;
    let disk = ending.disk.bytes().to_vec(alloc)?;
    let out = ending.out.bytes().to_vec(alloc)?;
    let said = ending.say.bytes().to_vec(alloc)?;
    Ok(Left {
        end: ending.end,
        status: ending.status,
        origin_epoch: ending.origin_epoch,
        opened_at: ending.opened_at,
        trace,
        acks,
        disk,
        out,
        said,
    })
}

/// A command on these devices.
pub fn run(
    alloc: Global,
    texts: &[&str],
    files: MemFiles,
    disk: MemDisk,
    out: MemSink,
) -> Result<Left, Fail> {
    let words = words(alloc, texts)?;
    let ending = aurora_solo(alloc, &words, files, disk, out, sink(alloc, b"")?);
    left_of(alloc, &ending)
}

/// What a stop in the last but one call of an ending's disk leaves, with this in what it wrote.
fn image_before_the_end(alloc: Global, ending: &MemEnding, fill: Fill) -> Result<Vec<u8>, Fail> {
    let calls = ending.disk.moment();
    if calls < 2 {
        return Err(Fail::new("the disk has no call before the last one"));
    }
    Ok(ending.disk.image(alloc, calls - 1, fill)?)
}

/// The bytes of a disk whose restore is stopped in the write of its last gate: a sync is the only call behind it. The gate
/// has this.
pub fn stopped_in_the_gate(
    alloc: Global,
    texts: &[&str],
    image: Vec<u8>,
    fill: Fill,
) -> Result<Vec<u8>, Fail> {
    let words = words(alloc, texts)?;
    let none = MemFiles::of(alloc, Vec::new(alloc));
    let disk = disk_of(alloc, image)?;
    let (out, say) = (sink(alloc, b"")?, sink(alloc, b"")?);
    let ending = aurora_solo(alloc, &words, none, disk, out, say);
    image_before_the_end(alloc, &ending, fill)
}

/// A command on an empty output, and sixteen blocks of zeros.
pub fn run_new(alloc: Global, texts: &[&str], files: MemFiles) -> Result<Left, Fail> {
    let disk = disk_of(alloc, zeros(alloc, 65_536)?)?;
    run(alloc, texts, files, disk, sink(alloc, b"")?)
}

/// A restore without files of a disk with these bytes, and an output with those.
pub fn restored(
    alloc: Global,
    texts: &[&str],
    image: Vec<u8>,
    output: &[u8],
) -> Result<Left, Fail> {
    let none = MemFiles::of(alloc, Vec::new(alloc));
    run(
        alloc,
        texts,
        none,
        disk_of(alloc, image)?,
        sink(alloc, output)?,
    )
}

/// The bytes of the disk that a run of the program with three bytes of output leaves.
pub fn hi_disk(alloc: Global) -> Result<Vec<u8>, Fail> {
    Ok(run_new(alloc, RUN, program(alloc, WRITE_HI, b"hi\n")?)?.disk)
}

/// How a command is wanted to end: its end, its status, and its line.
pub type Wanted = (End, u8, &'static str);

pub fn ends_as(left: &Left, wanted: Wanted) -> bool {
    let (end, status, line) = wanted;
    left.end == end && left.status == status && left.said.as_slice() == line.as_bytes()
}

/// The end of a run that is done.
pub fn done(epoch: u64, turns: u64, output: u64, line: &'static str) -> Wanted {
    let end = End::Done {
        epoch,
        turns,
        output,
    };
    (end, 0, line)
}

/// The end of a run whose turns are spent.
pub fn spent(epoch: u64, turns: u64, output: u64, line: &'static str) -> Wanted {
    let end = End::Spent {
        epoch,
        turns,
        output,
    };
    (end, 2, line)
}
