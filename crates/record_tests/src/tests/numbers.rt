//! The record of the process of 13 pages as numbers of 8 bytes, the low byte first, counted by hand: 91 in format 2, and 126
//! in format 1.
use crate::tests::samples::{BLOCKS, spelled, thirteen};
use ckpt_chain::{SlotBody, read_slot};
use ckpt_records::read_meta;
use std::alloc::Global;
use std::test::Fail;

/// The texts AURMETA1 and AURMETA2.
const META_1: u64 = 0x3141_5445_4d52_5541;

const META_2: u64 = 0x3241_5445_4d52_5541;

/// What stands in both formats between the text and the pages.
const FRAME: &[&[u64]] = &[
    // the next process, object, description, pipe and pair
    &[2, 2, 2, 0, 0],
    // the output: from position 0 on, no bytes
    &[0, 0],
    // two objects, each with its pages
    &[2],
    &[0, 13],
    &[1, 1],
    // no files, no pipes, and no pairs
    &[0, 0, 0],
    // two descriptions, each with its kind, target, offset and flags
    &[2],
    &[0, 0, 0, 0, 0],
    &[1, 1, 0, 0, 0],
    // one process: its number, parent, state, status and pc
    &[1],
    &[1, 0, 0, 0, 0x10000],
    // its registers x1 to x31, of which x2 is the end of the stack
    &[0, 0x3f_ffff_f000, 0, 0, 0, 0, 0, 0, 0, 0],
    &[0; 21],
    // the start of its break, and its break
    &[0x1d000, 0x1d000],
    // two mappings: start, pages, rights, whether shared, object and first page
    &[2],
    &[0x10000, 13, 7, 0, 0, 0],
    &[0x3f_ffff_e000, 1, 3, 0, 1, 0],
    // three descriptors, each with its description
    &[3],
    &[0, 0],
    &[1, 1],
    &[2, 1],
];

/// One run: object, first page, count of pages, and first block.
const RUNS: &[&[u64]] = &[&[1], &[0, 0, 13, 2]];

/// Thirteen pages: object, page, and block.
const PAGES: &[&[u64]] = &[
    &[13],
    &[0, 0, 2],
    &[0, 1, 3],
    &[0, 2, 4],
    &[0, 3, 5],
    &[0, 4, 6],
    &[0, 5, 7],
    &[0, 6, 8],
    &[0, 7, 9],
    &[0, 8, 10],
    &[0, 9, 11],
    &[0, 10, 12],
    &[0, 11, 13],
    &[0, 12, 14],
];

/// Adds the numbers' bytes.
fn put(bytes: &mut Vec<u8>, parts: &[&[u64]]) -> Result<(), Fail> {
    for part in parts {
        for number in part.iter() {
            bytes.extend_from_slice(&number.to_le_bytes())?;
        }
    }
    Ok(())
}

/// The record in a format, 1 or 2.
fn counted(alloc: Global, format: u8) -> Result<Vec<u8>, Fail> {
    let (text, pages) = if format == 1 {
        (META_1, PAGES)
    } else {
        (META_2, RUNS)
    };
    let mut bytes = text.to_le_bytes().as_slice().to_vec(alloc)?;
    put(&mut bytes, FRAME)?;
    put(&mut bytes, pages)?;
    Ok(bytes)
}

#[test]
fn a_record_of_format_2_is_91_numbers(rt: HostRuntime) -> Result<(), Fail> {
    let alloc = rt.alloc();
    let bytes = counted(alloc, 2)?;
    assert_eq!(rt; bytes.len(), 8 * 91);
    assert_eq!(rt; thirteen(alloc, 2)?.as_slice(), bytes.as_slice());
    Ok(())
}

#[test]
fn a_record_of_format_1_is_126_numbers(rt: HostRuntime) -> Result<(), Fail> {
    let alloc = rt.alloc();
    let bytes = counted(alloc, 1)?;
    assert_eq!(rt; bytes.len(), 8 * 126);
    assert_eq!(rt; thirteen(alloc, 1)?.as_slice(), bytes.as_slice());
    Ok(())
}

/// The record in format 2 of what these bytes are read as in a format.
fn read_again(alloc: Global, format: u8, bytes: &[u8]) -> Result<Vec<u8>, Fail> {
    match read_meta(alloc, format, bytes, BLOCKS)? {
        None => Err(Fail::new("the numbers spell nothing")),
        Some(meta) => spelled(alloc, &meta.frame, meta.pages.as_slice()),
    }
}

#[test]
fn the_numbers_of_both_formats_are_read_as_one_group(rt: HostRuntime) -> Result<(), Fail> {
    let alloc = rt.alloc();
    let wanted = counted(alloc, 2)?;
    for format in [1, 2] {
        let found = read_again(alloc, format, &counted(alloc, format)?)?;
        assert_eq!(rt; found.as_slice(), wanted.as_slice());
    }
    Ok(())
}

/// Slot A of either record: the gate byte, and from byte 8 on the text, epoch 1, meta block 15, and 1,008 bytes in format 1
/// and 728 in format 2.
const SLOT_1: &[u8] =
    b"\x01\0\0\0\0\0\0\0AURSLOT1\x01\0\0\0\0\0\0\0\x0f\0\0\0\0\0\0\0\xf0\x03\0\0\0\0\0\0";

const SLOT_2: &[u8] =
    b"\x01\0\0\0\0\0\0\0AURSLOT2\x01\0\0\0\0\0\0\0\x0f\0\0\0\0\0\0\0\xd8\x02\0\0\0\0\0\0";

/// What a slot's block with these first bytes says.
fn body_of(alloc: Global, slot: &[u8]) -> Result<Option<SlotBody>, Fail> {
    let mut block = slot.to_vec(alloc)?;
    block.resize(4_096, 0)?;
    if block.len() != 4_096 {
        return Err(Fail::new("the block has not 4,096 bytes"));
    }
    Ok(read_slot(&block))
}

#[test]
fn a_slot_opens_the_record_of_its_format(rt: HostRuntime) -> Result<(), Fail> {
    let alloc = rt.alloc();
    for (format, slot) in [(1, SLOT_1), (2, SLOT_2)] {
        let body = SlotBody {
            format,
            epoch: 1,
            first: 15,
            length: counted(alloc, format)?.len() as u64,
        };
        assert_eq!(rt; body_of(alloc, slot)?, Some(body));
    }
    Ok(())
}
