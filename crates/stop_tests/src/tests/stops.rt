//! Stops at any call of the disk, and calls that fail: what an image then holds, by a reader of its own.
use crate::tests::samples::{Left, RUN, Stop, WRITE_HI, program, run_stopped};
use dev_traits::mem::Fill;
use run_defs::Mark;
use std::alloc::Global;
use std::test::Fail;

/// The calls of a run in which none fails: a sync and two reads, the meta block, a sync, the slot's body, a sync, the
/// gate, and a sync.
const CALLS: u64 = 9;

/// What the run leaves in which the disk's call of this number fails, and the stops within it.
fn left_after(alloc: Global, call: u64) -> Result<(Left, Vec<Stop>), Fail> {
    run_stopped(alloc, RUN, program(alloc, WRITE_HI, b"hi\n")?, call)
}

/// The eight bytes from a place on, as a number.
fn number_at(bytes: &[u8], place: usize) -> Option<u64> {
    match bytes.get(place..)? {
        [a, b, c, d, e, f, g, h, ..] => {
            Some(u64::from_le_bytes([*a, *b, *c, *d, *e, *f, *g, *h]))
        }
        _ => None,
    }
}

fn block_at(image: &[u8], number: u64) -> Option<&[u8]> {
    let place = number.checked_mul(4096)?;
    image.get(place as usize..)?.get(..4096)
}

/// The first meta block and the length of slot A's checkpoint, where the slot has the text and epoch 1.
fn slot_a(image: &[u8]) -> Option<(u64, u64)> {
    let slot = block_at(image, 0)?;
    let is_named = slot.get(8..16) == Some(b"AURSLOT2".as_slice())
        && number_at(slot, 16) == Some(1);
    if is_named {
        Some((number_at(slot, 24)?, number_at(slot, 32)?))
    } else {
        None
    }
}

/// The payloads of a chain of meta blocks, one after another.
fn payloads(alloc: Global, image: &[u8], first: u64) -> Result<Vec<u8>, Fail> {
    let mut bytes = Vec::new(alloc);
    let mut next = first;
    for _ in 0..14 {
        if next >= 2 {
            let block = block_at(image, next).unwrap_or(&[]);
            bytes.extend_from_slice(block.get(8..).unwrap_or(&[]))?;
            next = number_at(block, 0).unwrap_or(0);
        }
    }
    Ok(bytes)
}

/// The record of the group that the program leaves: its output, and no process.
fn record_left(alloc: Global) -> Result<Vec<u8>, Fail> {
    let mut bytes = Vec::new(alloc);
    bytes.extend_from_slice(b"AURMETA2")?;
    for number in [2u64, 2, 2, 0, 0, 0, 3] {
        bytes.extend_from_slice(&number.to_le_bytes())?;
    }
    bytes.extend_from_slice(b"hi\n")?;
    bytes.extend_from_slice(&[0; 56])?;
    Ok(bytes)
}

/// What an image holds.
#[derive(Clone, Copy, Debug, PartialEq, Eq)]
enum Held {
    /// No slot is open.
    Nothing,
    /// The whole group that the program leaves.
    Group,
    Other,
}

fn is_gate_open(image: &[u8], place: usize) -> bool {
    image.get(place) == Some(&1)
}

fn held_by(alloc: Global, image: &[u8]) -> Result<Held, Fail> {
    if is_gate_open(image, 4096) {
        return Ok(Held::Other);
    }
    if !is_gate_open(image, 0) {
        return Ok(Held::Nothing);
    }
    let Some((first, length)) = slot_a(image) else {
        return Ok(Held::Other);
    };
    let payloads = payloads(alloc, image, first)?;
    let record = record_left(alloc)?;
    if length == record.len() as u64 && payloads.starts_with(&record) {
        Ok(Held::Group)
    } else {
        Ok(Held::Other)
    }
}

/// The gate's write, the eighth call, opens the slot where the byte 1 gets there.
fn wanted(call: u64, fill: Fill) -> Held {
    if call >= 8 && (fill == Fill::New || fill == Fill::Byte(1)) {
        Held::Group
    } else {
        Held::Nothing
    }
}

/// Whether each stop leaves what is wanted of its call.
fn are_as_wanted(alloc: Global, stops: &[Stop]) -> Result<bool, Fail> {
    let mut all = true;
    for stop in stops {
        let held = held_by(alloc, &stop.image)?;
        all = all && held == wanted(stop.call, stop.fill);
    }
    Ok(all)
}

#[test]
fn a_stop_leaves_nothing_or_the_whole_group(rt: HostRuntime) -> Result<(), Fail> {
    let alloc = rt.alloc();
    let (left, stops) = left_after(alloc, 0)?;
    assert_eq!(rt; left.calls, CALLS);
    assert_eq!(rt; stops.len(), 45);
    assert!(rt; are_as_wanted(alloc, &stops)?);
    assert_eq!(rt; held_by(alloc, &left.disk)?, Held::Group);
    Ok(())
}

#[test]
fn a_failed_call_leaves_nothing_or_the_whole_group(rt: HostRuntime) -> Result<(), Fail> {
    let alloc = rt.alloc();
    for call in 1..CALLS + 1 {
        let (left, stops) = left_after(alloc, call)?;
        assert_eq!(rt; left.calls, call);
        assert!(rt; are_as_wanted(alloc, &stops)?);
    }
    Ok(())
}

/// Whether just the output that an acknowledgement covers is put.
fn is_covered(left: &Left, acked: bool) -> bool {
    let covered = if acked {
        b"hi\n".as_slice()
    } else {
        b"".as_slice()
    };
    left.trace.contains(&Mark::Ack { epoch: 1 }) == acked && left.out.as_slice() == covered
}

#[test]
fn output_waits_for_the_acknowledgement(rt: HostRuntime) -> Result<(), Fail> {
    let alloc = rt.alloc();
    for call in 0..CALLS + 1 {
        let (left, _) = left_after(alloc, call)?;
        assert!(rt; is_covered(&left, call == 0));
    }
    Ok(())
}
