use ckpt_chain::{Slot, SlotBody, open_slot, read_slot};
use commit_gate::{BadDisk, Block, are_placed, commit};
use dev_traits::Disk;
use dev_traits::mem::{Fill, MemDisk};
use lists::Seq;
use std::alloc::Global;
use std::test::Fail;

/// Bytes 8 to 39 of a slot: text, epoch, first block and length. Slot A's and slot B's are of format 1, and
/// the new one of format 2.
const BODY_A: &[u8] = b"AURSLOT1\x02\0\0\0\0\0\0\0\x02\0\0\0\0\0\0\0\x08\0\0\0\0\0\0\0";

const BODY_B: &[u8] = b"AURSLOT1\x01\0\0\0\0\0\0\0\x09\0\0\0\0\0\0\0\x08\0\0\0\0\0\0\0";

const BODY_NEW: &[u8] = b"AURSLOT2\x03\0\0\0\0\0\0\0\x03\0\0\0\0\0\0\0\x08\0\0\0\0\0\0\0";

// 16 blocks: slot A open with epoch 2, and slot B with this gate and body. Blocks 3 and 5 have these bytes
// alone, the others 7.
fn disk_with(alloc: Global, gate: u8, body: &[u8], three: u8, five: u8) -> Result<Vec<u8>, Fail> {
    let mut bytes = Vec::new(alloc);
    for (gate, body) in [(1, BODY_A), (gate, body)] {
        bytes.extend_from_slice(&[gate, 0, 0, 0, 0, 0, 0, 0])?;
        bytes.extend_from_slice(body)?;
        bytes.extend_from_slice(&[0; 4056])?;
    }
    for byte in [7, three, 7, five] {
        bytes.extend_from_slice(&[byte; 4096])?;
    }
    bytes.extend_from_slice(&[7; 40960])?;
    Ok(bytes)
}

// Slot A open with epoch 2, slot B with epoch 1.
fn two_open_slots(alloc: Global) -> Result<Vec<u8>, Fail> {
    disk_with(alloc, 1, BODY_B, 7, 7)
}

fn block(alloc: Global, number: u64, byte: u8) -> Result<Block, Fail> {
    let mut bytes = Vec::new(alloc);
    bytes.resize(4096, byte)?;
    Ok(Block {
        number,
        bytes: Seq::of(bytes),
    })
}

// A commit of epoch 3 with blocks 3 and 5 to slot B, as far as the disk lets it go.
fn commit_three(disk: MemDisk, blocks: &[Block]) -> MemDisk {
    let mut disk = disk;
    if disk.blocks() != 16 || !are_placed(blocks, 16) || disk.sync().is_err() {
        return disk;
    }
    let close = disk.bytes()[4096] == 1;
    let body = SlotBody {
        format: 2,
        epoch: 3,
        first: 3,
        length: 8,
    };
    match commit(disk, Slot::B, close, blocks, body) {
        Ok(disk) => disk,
        Err(BadDisk { disk }) => disk,
    }
}

fn is_all(bytes: Option<&[u8]>, byte: u8) -> bool {
    match bytes {
        Some(bytes) => bytes.iter().all(|b| *b == byte),
        None => false,
    }
}

// What a slot's block says, where the image has it and the slot is open.
fn slot_in(bytes: Option<&[u8]>) -> Option<SlotBody> {
    let bytes = bytes?;
    if bytes.len() != 4096 {
        return None;
    }
    read_slot(bytes)
}

// The newest open slot's format and epoch, where its checkpoint's blocks are whole.
fn held_by(image: &[u8]) -> Option<(u8, u64)> {
    let a = slot_in(image.get(..4096));
    let b = slot_in(image.get(4096..8192));
    let (_, body) = open_slot(a, b)?;
    let whole = if body.epoch == 3 {
        is_all(image.get(12288..16384), 9) && is_all(image.get(20480..24576), 8)
    } else {
        is_all(image.get(8192..12288), 7)
    };
    if whole {
        Some((body.format, body.epoch))
    } else {
        None
    }
}

fn is_touched(place: usize) -> bool {
    place == 4096
        || (place >= 4104 && place < 4136)
        || (place >= 12288 && place < 16384)
        || (place >= 20480 && place < 24576)
}

fn differs_only_there(before: &[u8], image: &[u8]) -> bool {
    before.len() == image.len()
        && before
            .iter()
            .zip(image)
            .enumerate()
            .all(|(place, (old, new))| old == new || is_touched(place))
}

// The calls: an opening sync, the closing write, two blocks, a sync, the body, a sync, the gate, a sync.
#[test]
fn a_stop_within_any_call_leaves_the_old_checkpoint_or_the_new_one(
    rt: HostRuntime,
) -> Result<(), Fail> {
    let alloc = rt.alloc();
    let before = two_open_slots(alloc)?;
    let blocks = vec![in alloc; block(alloc, 3, 9)?, block(alloc, 5, 8)?]?;
    let fills = [
        Fill::Old,
        Fill::New,
        Fill::Byte(0),
        Fill::Byte(1),
        Fill::Byte(255),
    ];
    for failing in 0..10 {
        let new = MemDisk::of(alloc, before.clone()?, 100)?.failing(vec![in alloc; failing]?);
        let disk = commit_three(new, &blocks);
        let calls = if failing == 0 { 9 } else { failing };
        assert_eq!(rt; disk.moment(), calls);
        // What a stop within an earlier call leaves is in the row that doesn't fail.
        let first = if failing == 0 { 1 } else { failing };
        for call in first..calls + 1 {
            for fill in fills {
                if call >= 1 && call <= disk.moment() {
                    let image = disk.image(alloc, call, fill)?;
                    let opens = fill == Fill::New || fill == Fill::Byte(1);
                    let want = if call >= 8 && opens { (2, 3) } else { (1, 2) };
                    assert_eq!(rt; held_by(&image), Some(want));
                    assert!(rt; differs_only_there(&before, &image));
                }
            }
        }
        let want = if failing == 0 || failing == 9 {
            (2, 3)
        } else {
            (1, 2)
        };
        assert_eq!(rt; held_by(disk.bytes()), Some(want));
    }
    Ok(())
}

// Whether a place is one that the step of this call writes: the closed gate and the blocks, synced in call 5;
// the body, synced in call 7; or the gate.
fn is_of_step(call: u64, place: usize) -> bool {
    if call <= 5 {
        place == 4096 || (place >= 12288 && place < 16384) || (place >= 20480 && place < 24576)
    } else if call <= 7 {
        place >= 4104 && place < 4136
    } else {
        place == 4096
    }
}

// Whether an image differs from the disk before a step at most in what the step writes.
fn is_in_step(before: &[u8], image: &[u8], call: u64) -> bool {
    before.len() == image.len()
        && before.iter().zip(image).enumerate().all(|(place, (old, new))| old == new
            || is_of_step(call, place))
}

// Whether just what the step writes is this byte.
fn is_painted(before: &[u8], image: &[u8], call: u64, byte: u8) -> bool {
    before.len() == image.len()
        && before.iter().zip(image).enumerate().all(|(place, (old, new))| *new
            == if is_of_step(call, place) { byte } else { *old })
}

#[test]
fn a_body_of_format_2_beside_format_1_leaves_the_images_of_its_steps(
    rt: HostRuntime,
) -> Result<(), Fail> {
    let alloc = rt.alloc();
    let blocks = vec![in alloc; block(alloc, 3, 9)?, block(alloc, 5, 8)?]?;
    let disk = commit_three(MemDisk::of(alloc, two_open_slots(alloc)?, 100)?, &blocks);
    assert_eq!(rt; disk.moment(), 9);
    for (first, last, gate, body, three, five) in [
        (2, 5, 1, BODY_B, 7, 7),
        (6, 7, 0, BODY_B, 9, 8),
        (8, 9, 0, BODY_NEW, 9, 8),
    ] {
        let before = disk_with(alloc, gate, body, three, five)?;
        for call in first..last + 1 {
            for fill in [Fill::New, Fill::Byte(255)] {
                if call >= 1 && call <= disk.moment() {
                    let image = disk.image(alloc, call, fill)?;
                    assert!(rt; is_in_step(&before, &image, call));
                    let all = fill == Fill::Byte(255) && call >= last - 1;
                    assert_eq!(rt; is_painted(&before, &image, call, 255), all);
                }
            }
        }
    }
    assert!(rt; disk.bytes() == disk_with(alloc, 1, BODY_NEW, 9, 8)?.as_slice());
    Ok(())
}
