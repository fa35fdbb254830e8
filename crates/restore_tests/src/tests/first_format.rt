//! A disk of format 1 byte by byte, as programs that wrote this format left it: a process of thirteen pages, in blocks 2 to 14,
//! and its record in block 15.
use crate::tests::restoring::{put, restored, spelled};
use ckpt_chain::Slot;
use ckpt_records::{Origin, PagePlace};
use mem_objects::Layer;
use std::alloc::Global;
use std::test::Fail;

/// Slot A: the gate byte, and from byte 8 on the text, epoch 1, meta block 15, and 1,008 bytes.
const SLOT: &[u8] =
    b"\x01\0\0\0\0\0\0\0AURSLOT1\x01\0\0\0\0\0\0\0\x0f\0\0\0\0\0\0\0\xf0\x03\0\0\0\0\0\0";

/// What the record says of the group, in numbers of 8 bytes.
const FRAME: &[&[u64]] = &[
    // the next process, object, description, pipe and pair; the output, which is empty
    &[2, 2, 2, 0, 0],
    &[0, 0],
    // two objects, no files, no pipes, and no pairs
    &[2, 0, 13, 1, 1],
    &[0, 0, 0],
    // two descriptions, of nothing and of the outside
    &[2],
    &[0, 0, 0, 0, 0],
    &[1, 1, 0, 0, 0],
    // one process, which runs: its pc, its registers, of which x2 is the end of the stack, and its break
    &[1],
    &[1, 0, 0, 0, 0x10000],
    &[0, 0x3f_ffff_f000, 0, 0, 0, 0, 0, 0, 0, 0],
    &[0; 21],
    &[0x1d000, 0x1d000],
    // its two mappings, and its three descriptors
    &[2],
    &[0x10000, 13, 7, 0, 0, 0],
    &[0x3f_ffff_e000, 1, 3, 0, 1, 0],
    &[3, 0, 0, 1, 1, 2, 1],
];

/// The pages, each with its object, its number in the object, and its block.
const PAGES: &[&[u64]] = &[
    &[13],
    &[0, 0, 2],
    &[0, 1, 3],
    &[0, 2, 4],
    &[0, 3, 5],
    &[0, 4, 6],
    &[0, 5, 7],
    &[0, 6, 8],
    &[0, 7, 9],
    &[0, 8, 10],
    &[0, 9, 11],
    &[0, 10, 12],
    &[0, 11, 13],
    &[0, 12, 14],
];

/// The text and these parts.
fn record_of(alloc: Global, text: &[u8], parts: [&[&[u64]]; 2]) -> Result<Vec<u8>, Fail> {
    let mut bytes = text.to_vec(alloc)?;
    for part in parts {
        for numbers in part {
            for number in numbers.iter() {
                bytes.extend_from_slice(&number.to_le_bytes())?;
            }
        }
    }
    Ok(bytes)
}

/// The first page of the image jumps to itself; each other byte of the thirteen pages is 1.
const JUMP: &[u8] = b"\x6f\0\0\0";

/// The disk of 16 blocks.
fn disk(alloc: Global) -> Result<Vec<u8>, Fail> {
    let mut image = SLOT.to_vec(alloc)?;
    image.resize(8_192, 0)?;
    image.resize(61_440, 1)?;
    image.resize(65_536, 0)?;
    put(&mut image, 8_192, JUMP)?;
    let record = record_of(alloc, b"AURMETA1", [FRAME, PAGES])?;
    put(&mut image, 61_448, &record)?;
    Ok(image)
}

fn origin(alloc: Global) -> Result<Origin, Fail> {
    match restored(alloc, &disk(alloc)?, 0)?.0 {
        Ok(origin) => Ok(origin),
        Err(_) => Err(Fail::new("nothing is restored")),
    }
}

#[test]
fn a_disk_of_format_1_holds_its_process(rt: HostRuntime) -> Result<(), Fail> {
    let alloc = rt.alloc();
    let found = spelled(alloc, &origin(alloc)?.parts.frame, &[])?;
    let wanted = record_of(alloc, b"AURMETA2", [FRAME, &[&[0]]])?;
    assert_eq!(rt; found.as_slice(), wanted.as_slice());
    Ok(())
}

/// The bytes of a layer's pages, one after another, where they are the first ones of an object.
fn bytes_of(alloc: Global, layer: &Layer) -> Result<Vec<u8>, Fail> {
    let mut bytes = Vec::new(alloc);
    for (i, slot) in layer.as_slice().iter().enumerate() {
        if slot.0 != i as u64 {
            return Err(Fail::new("the layer has other pages"));
        }
        bytes.extend_from_slice(slot.1.as_array())?;
    }
    Ok(bytes)
}

#[test]
fn a_disk_of_format_1_holds_its_pages(rt: HostRuntime) -> Result<(), Fail> {
    let alloc = rt.alloc();
    let image = disk(alloc)?;
    let found = origin(alloc)?;
    match found.parts.layers.as_slice() {
        [program, stack] => {
            assert_eq!(rt; (program.0, stack.0), (0, 1));
            let bytes = bytes_of(alloc, &program.1)?;
            assert!(rt; image.get(8_192..61_440) == Some(bytes.as_slice()));
            assert_eq!(rt; stack.1.len(), 0);
            Ok(())
        }
        _ => Err(Fail::new("the group has not two objects")),
    }
}

/// The page of the first object in this block.
fn placed(block: u64) -> PagePlace {
    PagePlace {
        object: 0,
        page: block.saturating_sub(2),
        block,
    }
}

#[test]
fn a_disk_of_format_1_keeps_its_blocks(rt: HostRuntime) -> Result<(), Fail> {
    let alloc = rt.alloc();
    let found = origin(alloc)?;
    let mut pages = Vec::new(alloc);
    for block in 2..15 {
        pages.push(placed(block))?;
    }
    assert_eq!(rt; found.placement.pages.as_slice(), pages.as_slice());
    assert_eq!(rt; found.placement.metas.as_slice(), [15].as_slice());
    assert_eq!(rt; found.placement.slot, Slot::A);
    assert_eq!(rt; found.gates, [1, 0]);
    assert_eq!(rt; found.epoch, 1);
    Ok(())
}
