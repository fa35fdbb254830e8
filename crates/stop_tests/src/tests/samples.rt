//! Small programs, memory devices to run them on, and what a command leaves.
ghost use Rattle.std.specs.Prelude.{◌≤◌, length};
ghost use Rattle.dev_traits.specs.MemDisk.{disk_calls};

use aurora_top::{Ending, aurora_solo};
use command_words::End;
use dev_traits::mem::{Fill, MemDisk, MemFiles, MemSink};
use dev_traits::{Disk, Word};
use run_defs::{AckMark, Mark};
use std::alloc::Global;
use std::test::Fail;

type MemEnding = Ending<MemFiles, MemDisk, MemSink, MemSink>;

/// What a command leaves.
#[derive(Drop)]
pub struct Left {
    pub end: End,
    pub status: u8,
    pub trace: Vec<Mark>,
    pub acks: Vec<AckMark>,
    /// The calls of the disk.
    pub calls: u64,
    pub disk: Vec<u8>,
    pub out: Vec<u8>,
    pub said: Vec<u8>,
}

/// A stop within a call of the disk, and the image that it leaves with this in the ranges that are pending.
#[derive(Drop)]
pub struct Stop {
    pub call: u64,
    pub fill: Fill,
    pub image: Vec<u8>,
}

/// The manifest of the image `p`.
pub const FLAT_P: &[u8] = b"aurora 1\nflat p\n";

pub const RUN: &[&str] = &["run", "d", "o", "m"];

pub const RESTORE: &[&str] = &["restore", "d", "o"];

/// Sixteen blocks, in bytes.
const SIXTEEN: usize = 65_536;

/// Exits with 0 at once.
pub const EXIT: &[u32] = &[0x05d0_0893, 0x0000_0513, 0x0000_0073];

/// Jumps to itself.
pub const LOOP: &[u32] = &[0x0000_006f];

/// Writes three bytes that stand behind it, and exits with 7.
pub const WRITE_HI: &[u32] = &[
    0x0000_0597,
    0x0245_8593,
    0x0010_0513,
    0x0030_0613,
    0x0400_0893,
    0x0000_0073,
    0x0070_0513,
    0x05d0_0893,
    0x0000_0073,
];

const FILLS: [Fill; 5] = [
    Fill::Old,
    Fill::New,
    Fill::Byte(0),
    Fill::Byte(1),
    Fill::Byte(255),
];

/// The words of a program, and bytes behind them.
pub fn image(alloc: Global, words: &[u32], tail: &[u8]) -> Result<Vec<u8>, Fail> {
    let mut bytes = Vec::new(alloc);
    for word in words {
        bytes.extend_from_slice(&word.to_le_bytes())?;
    }
    bytes.extend_from_slice(tail)?;
    Ok(bytes)
}

pub fn words(alloc: Global, texts: &[&str]) -> Result<Vec<Word>, Fail> {
    let mut list = Vec::new(alloc);
    for text in texts {
        list.push(Word::new(alloc, text)?)?;
    }
    Ok(list)
}

/// The manifest `m` and the image `p`.
pub fn files(alloc: Global, manifest: &[u8], image: Vec<u8>) -> Result<MemFiles, Fail> {
    let mut list = Vec::new(alloc);
    list.push((Word::new(alloc, "m")?, manifest.to_vec(alloc)?))?;
    list.push((Word::new(alloc, "p")?, image))?;
    Ok(MemFiles::of(alloc, list))
}

/// The manifest of one image, with the program in it.
pub fn program(alloc: Global, words: &[u32], tail: &[u8]) -> Result<MemFiles, Fail> {
    files(alloc, FLAT_P, image(alloc, words, tail)?)
}

fn zeros(alloc: Global, size: usize) -> Result<Vec<u8>, Fail> {
    Ok(vec![in alloc; 0u8; size]?)
}

pub fn disk_of(alloc: Global, image: Vec<u8>) -> Result<MemDisk, Fail> {
    Ok(MemDisk::of(alloc, image, 100)?)
}

/// Sixteen blocks of zeros, whose call of this number fails; none does where it is 0.
pub fn disk_failing(alloc: Global, call: u64) -> Result<MemDisk, Fail> {
    Ok(disk_of(alloc, zeros(alloc, SIXTEEN)?)?.failing(vec![in alloc; call]?))
}

pub fn sink(alloc: Global, bytes: &[u8]) -> Result<MemSink, Fail> {
    Ok(MemSink::of(alloc, bytes.to_vec(alloc)?, 1000)?)
}

/// What an ending has.
fn left_of(alloc: Global, ending: &MemEnding) -> Result<Left, Fail> {
    let trace = ending.trace.as_slice().to_vec(alloc)?;
    let acks = ending.acks.as_slice().to_vec(alloc)?;
    let disk = ending.disk.bytes().to_vec(alloc)?;
    let out = ending.out.bytes().to_vec(alloc)?;
    let said = ending.say.bytes().to_vec(alloc)?;
    Ok(Left {
        end: ending.end,
        status: ending.status,
        trace,
        acks,
        calls: ending.disk.moment(),
        disk,
        out,
        said,
    })
}

/// A command on these devices, whose line goes to `say`.
pub fn run_saying(
    alloc: Global,
    words: &[Word],
    files: MemFiles,
    (disk, out): (MemDisk, MemSink),
    say: MemSink,
) -> Result<Left, Fail> {
    let ending = aurora_solo(alloc, words, files, disk, out, say);
    left_of(alloc, &ending)
}

/// A command on these devices.
pub fn run(
    alloc: Global,
    texts: &[&str],
    files: MemFiles,
    disk: MemDisk,
    out: MemSink,
) -> Result<Left, Fail> {
    let words = words(alloc, texts)?;
    run_saying(alloc, &words, files, (disk, out), sink(alloc, b"")?)
}

/// A command on an empty output, and sixteen blocks of zeros whose call of this number fails.
pub fn run_failing(
    alloc: Global,
    texts: &[&str],
    files: MemFiles,
    call: u64,
) -> Result<Left, Fail> {
    run(
        alloc,
        texts,
        files,
        disk_failing(alloc, call)?,
        sink(alloc, b"")?,
    )
}

/// Adds the stops within a call.
fn add_stops(alloc: Global, disk: &MemDisk, call: u64, stops: &mut Vec<Stop>) -> Result<(), Fail>
    requires { (1 ≤ call) × (call ≤ length (disk_calls disk.now)) }
{
    for fill in FILLS {
        let image = disk.image(alloc, call, fill)?;
        stops.push(Stop { call, fill, image })?;
    }
    Ok(())
}

/// The stops within the calls of a disk from this one on.
fn stops_of(alloc: Global, disk: &MemDisk, first: u64) -> Result<Vec<Stop>, Fail> {
    let mut stops = Vec::new(alloc);
    for call in first.saturating_sub(1)..disk.moment() {
        add_stops(alloc, disk, call + 1, &mut stops)?;
    }
    Ok(stops)
}

/// What an ending has, and the stops within the calls of its disk from this one on.
fn left_and_stops(
    alloc: Global,
    ending: &MemEnding,
    first: u64,
) -> Result<(Left, Vec<Stop>), Fail> {
    let stops = stops_of(alloc, &ending.disk, first)?;
    let left = left_of(alloc, ending)?;
    Ok((left, stops))
}

/// A command on these devices, and the stops within its calls from this one on.
fn run_to_stops(
    alloc: Global,
    words: &[Word],
    files: MemFiles,
    (disk, out): (MemDisk, MemSink),
    say: MemSink,
    first: u64,
) -> Result<(Left, Vec<Stop>), Fail> {
    let ending = aurora_solo(alloc, words, files, disk, out, say);
    left_and_stops(alloc, &ending, first)
}

/// A command as `run_failing` has it, and the stops within its calls from the one on that fails; until then they are those
/// of a run in which none does.
pub fn run_stopped(
    alloc: Global,
    texts: &[&str],
    files: MemFiles,
    call: u64,
) -> Result<(Left, Vec<Stop>), Fail> {
    let words = words(alloc, texts)?;
    let devices = (disk_failing(alloc, call)?, sink(alloc, b"")?);
    run_to_stops(alloc, &words, files, devices, sink(alloc, b"")?, call)
}

/// A restore without files of a disk with these bytes, and an output with those.
pub fn restored(
    alloc: Global,
    texts: &[&str],
    image: Vec<u8>,
    output: &[u8],
) -> Result<Left, Fail> {
    let none = MemFiles::of(alloc, Vec::new(alloc));
    run(
        alloc,
        texts,
        none,
        disk_of(alloc, image)?,
        sink(alloc, output)?,
    )
}

/// How a command is wanted to end: its end, its status, and its line.
pub type Wanted = (End, u8, &'static str);

pub fn ends_as(left: &Left, wanted: Wanted) -> bool {
    let (end, status, line) = wanted;
    left.end == end && left.status == status && left.said.as_slice() == line.as_bytes()
}

/// The end of a run that is done.
pub fn done(epoch: u64, turns: u64, output: u64, line: &'static str) -> Wanted {
    let end = End::Done {
        epoch,
        turns,
        output,
    };
    (end, 0, line)
}

/// The end of a run whose turns are spent.
pub fn spent(epoch: u64, turns: u64, output: u64, line: &'static str) -> Wanted {
    let end = End::Spent {
        epoch,
        turns,
        output,
    };
    (end, 2, line)
}
