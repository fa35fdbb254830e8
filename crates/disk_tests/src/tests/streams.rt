use ckpt_chain::{SlotBody, Stream, StreamRefused, lay_stream, read_stream};
use dev_traits::Disk;
use dev_traits::mem::MemDisk;
use std::alloc::Global;
use std::test::Fail;

/// Blocks, each with the number that its link has. Each other block of the disk has the link 0.
type Links = &'static [(u64, u64)];

/// A chain of the blocks 4, 9 and 2.
const GOOD: Links = &[(4, 9), (9, 2), (2, 0)];

fn link_of(links: Links, block: u64) -> u64 {
    for (at, next) in links {
        if *at == block {
            return *next;
        }
    }
    0
}

/// What a disk of 16 blocks with these links has as the stream of a slot's body. Each byte of a block's
/// payload is the block's number.
fn read(
    alloc: Global,
    links: Links,
    first: u64,
    length: u64,
) -> Result<Result<Stream, StreamRefused>, Fail> {
    let mut bytes = Vec::new(alloc);
    for block in 0..16u8 {
        bytes.extend_from_slice(&link_of(links, u64::from(block)).to_le_bytes())?;
        bytes.extend_from_slice(&[block; 4088])?;
    }
    let mut disk = MemDisk::of(alloc, bytes, 20)?;
    if disk.blocks() != 16 {
        return Err(Fail::new("the disk has not 16 blocks"));
    }
    let body = SlotBody {
        format: 2,
        epoch: 1,
        first,
        length,
    };
    Ok(read_stream(alloc, &mut disk, body))
}

/// Whether the bytes are there and each is this byte.
fn has_run(bytes: Option<&[u8]>, byte: u8) -> bool {
    match bytes {
        Some(bytes) => bytes.iter().all(|b| *b == byte),
        None => false,
    }
}

#[test]
fn a_chain_is_read_in_its_order(rt: HostRuntime) -> Result<(), Fail> {
    for length in [8_177, 12_000, 12_264] {
        let Ok(stream) = read(rt.alloc(), GOOD, 4, length)? else {
            return Err(Fail::new("the chain was refused"));
        };
        assert_eq!(rt; stream.blocks.as_slice(), [4u64, 9, 2].as_slice());
        let bytes = stream.bytes.as_slice();
        assert_eq!(rt; bytes.len() as u64, length);
        assert!(rt; has_run(bytes.get(..4_088), 4));
        assert!(rt; has_run(bytes.get(4_088..8_176), 9));
        assert!(rt; has_run(bytes.get(8_176..), 2));
    }
    Ok(())
}

/// Links, the first block and the length of a stream that isn't there.
const BROKEN: &[(Links, u64, u64)] = &[
    // no byte, one block less and one more than the chain has, and more than any chain has
    (GOOD, 4, 0),
    (GOOD, 4, 8_176),
    (GOOD, 4, 12_265),
    (GOOD, 4, 57_233),
    (GOOD, 4, u64::MAX),
    // first blocks outside the disk's blocks from 2 on
    (GOOD, 0, 8_177),
    (GOOD, 1, 8_177),
    (GOOD, 16, 8_177),
    (GOOD, u64::MAX, 8_177),
    // a link to itself, and two blocks that name each other
    (&[(4, 4)], 4, 1),
    (&[(4, 4)], 4, 57_232),
    (&[(4, 9), (9, 4)], 4, 4_089),
    (&[(4, 9), (9, 4)], 4, 57_232),
    // a last link that isn't 0
    (&[(4, 9), (9, 2), (2, 1)], 4, 12_264),
    (&[(4, 9), (9, 2), (2, 16)], 4, 12_264),
    (&[(4, 9), (9, 2), (2, u64::MAX)], 4, 12_264),
];

#[test]
fn a_hostile_chain_is_broken(rt: HostRuntime) -> Result<(), Fail> {
    for (links, first, length) in BROKEN {
        let answer = read(rt.alloc(), links, *first, *length)?;
        assert!(rt;
            matches!(&answer, Err(StreamRefused::Broken)),
            "{links:?} {first} {length}"
        );
    }
    Ok(())
}

/// Whether a block has this link, so many bytes of 7 after it, and then zeros.
fn is_block(block: &[u8], link: u64, sevens: usize) -> bool {
    if block.len() != 4_096 {
        return false;
    }
    let (front, payload) = block.split_at(8);
    front == link.to_le_bytes().as_slice()
        && has_run(payload.get(..sevens), 7)
        && has_run(payload.get(sevens..), 0)
}

#[test]
fn a_stream_fills_its_blocks_and_zeros_follow(rt: HostRuntime) -> Result<(), Fail> {
    let alloc = rt.alloc();
    let one = lay_stream(alloc, &[7; 4088], &[3])?;
    assert_eq!(rt; one.len(), 1);
    assert!(rt; is_block(one[0].as_slice(), 0, 4_088));
    let two = lay_stream(alloc, &[7; 4089], &[3, 5])?;
    assert_eq!(rt; two.len(), 2);
    assert!(rt; is_block(two[0].as_slice(), 5, 4_088));
    assert!(rt; is_block(two[1].as_slice(), 0, 1));
    Ok(())
}
