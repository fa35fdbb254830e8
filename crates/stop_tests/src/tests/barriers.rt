//! Stops at any call of a run with two or three barriers, and calls that fail: what is restored of each image.
use crate::tests::samples::{FLAT_P, Left, Stop, disk_of, files, image, run_stopped};
use ckpt_records::Origin;
use dev_traits::Disk;
use dev_traits::mem::MemFiles;
use restore_group::{Refused, restore};
use run_defs::AckMark;
use std::alloc::Global;
use std::test::Fail;

/// Counts in x5, stores the count's byte on the image's second page, and writes that byte; and again from the start.
const COUNTER: &[u32] = &[
    0x0000_1597,
    0x0012_8293,
    0x0055_8023,
    0x0010_0513,
    0x0010_0613,
    0x0400_0893,
    0x0000_0073,
    0xfe5f_f06f,
];

/// Two turns, and three, with a barrier after each. A turn ends with its write.
const TWO: &[&str] = &[
    "run",
    "--turns=2",
    "--quantum=100",
    "--every=1",
    "d",
    "o",
    "m",
];

const THREE: &[&str] = &[
    "run",
    "--turns=3",
    "--quantum=100",
    "--every=1",
    "d",
    "o",
    "m",
];

/// The image: the program, and a second page of zeros.
fn counter(alloc: Global) -> Result<MemFiles, Fail> {
    let mut bytes = image(alloc, COUNTER, b"")?;
    bytes.resize(8192, 0)?;
    files(alloc, FLAT_P, bytes)
}

/// What is left after two or three turns where the disk's call of this number fails, and the stops within them; no call
/// fails where it is 0.
fn left_after(alloc: Global, turns: u64, failing: u64) -> Result<(Left, Vec<Stop>), Fail> {
    let texts = if turns == 2 { TWO } else { THREE };
    run_stopped(alloc, texts, counter(alloc)?, failing)
}

/// What an image holds.
#[derive(Clone, Copy, Debug, PartialEq, Eq)]
enum Held {
    /// No slot is open.
    Nothing,
    /// The group at the barrier of this epoch.
    Barrier(u64),
    Other,
}

/// The bytes on the second page of object 0, as far as it isn't all zero.
fn second_page(origin: &Origin) -> Option<&[u8; 4096]> {
    let (number, layer) = origin.parts.layers.as_slice().first()?;
    if *number == 0 {
        Some(layer.get(1)?.as_array())
    } else {
        None
    }
}

/// Whether the counter stands behind its write of this number, in its registers, its memory and its output.
fn is_behind(origin: &Origin, count: u64) -> bool {
    let in_memory = match second_page(origin) {
        Some(page) => {
            u64::from(page[0]) == count && page.iter().filter(|byte| **byte != 0).count() == 1
        }
        None => false,
    };
    let frame = &origin.parts.frame;
    let in_registers = match frame.procs.as_slice() {
        [process] => process.pc == 0x1_001c && process.regs[4] == count,
        _ => false,
    };
    in_memory && in_registers && frame.out.mark == count
}

fn held_in(origin: &Origin) -> Held {
    if is_behind(origin, origin.epoch) {
        Held::Barrier(origin.epoch)
    } else {
        Held::Other
    }
}

/// What is restored of an image.
fn held_by(alloc: Global, image: &[u8]) -> Result<Held, Fail> {
    let mut disk = disk_of(alloc, image.to_vec(alloc)?)?;
    if disk.blocks() != 16 {
        return Ok(Held::Other);
    }
    let held = match restore(alloc, &mut disk) {
        Ok(origin) => held_in(&origin),
        Err(Refused::NoCheckpoint) => Held::Nothing,
        Err(_) => Held::Other,
    };
    Ok(held)
}

/// What was acknowledged before the call of this number.
fn acked_before(acks: &[AckMark], call: u64) -> u64 {
    acks.iter().filter(|ack| ack.at < call).count() as u64
}

fn held_at(barrier: u64) -> Held {
    if barrier == 0 {
        Held::Nothing
    } else {
        Held::Barrier(barrier)
    }
}

/// Whether each stop leaves what was acknowledged last or the barrier behind it.
fn are_at_a_barrier(alloc: Global, acks: &[AckMark], stops: &[Stop]) -> Result<bool, Fail> {
    let mut all = true;
    for stop in stops {
        let acked = acked_before(acks, stop.call);
        let held = held_by(alloc, &stop.image)?;
        all = all && (held == held_at(acked) || held == held_at(acked.saturating_add(1)));
    }
    Ok(all)
}

/// Whether fewer than three barriers are acknowledged, and just their output is put.
fn is_covered(left: &Left) -> bool {
    let acked = left.acks.len();
    acked < 3 && Some(left.out.as_slice()) == [1u8, 2, 3].get(..acked)
}

#[test]
fn a_stop_leaves_the_group_at_one_barrier(rt: HostRuntime) -> Result<(), Fail> {
    let alloc = rt.alloc();
    for turns in [2u64, 3] {
        let (left, stops) = left_after(alloc, turns, 0)?;
        assert_eq!(rt; left.acks.len() as u64, turns);
        assert!(rt; are_at_a_barrier(alloc, &left.acks, &stops)?);
        assert_eq!(rt; held_by(alloc, &left.disk)?, Held::Barrier(turns));
    }
    Ok(())
}

#[test]
fn a_failed_call_leaves_the_group_at_one_barrier(rt: HostRuntime) -> Result<(), Fail> {
    let alloc = rt.alloc();
    let (whole, _) = left_after(alloc, 3, 0)?;
    for failing in 1..whole.calls.saturating_add(1) {
        let (left, stops) = left_after(alloc, 3, failing)?;
        assert!(rt; is_covered(&left), "call {failing}");
        assert!(rt;
            are_at_a_barrier(alloc, &left.acks, &stops)?,
            "call {failing}"
        );
    }
    Ok(())
}
