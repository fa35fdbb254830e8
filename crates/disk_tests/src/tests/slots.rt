use ckpt_chain::{Slot, SlotBody, read_slot, read_slots};
use dev_traits::Disk;
use dev_traits::mem::MemDisk;
use std::alloc::Global;
use std::test::Fail;

/// Bytes 8 to 39 of a slot: the text, epoch 1, first block 15 and a length of 1,008 bytes.
const BODY: [u8; 32] = [
    0x41, 0x55, 0x52, 0x53, 0x4c, 0x4f, 0x54, 0x31, 1, 0, 0, 0, 0, 0, 0, 0, 15, 0, 0, 0, 0, 0, 0,
    0, 0xf0, 3, 0, 0, 0, 0, 0, 0,
];

#[test]
fn both_slots_are_read_with_their_gates(rt: HostRuntime) -> Result<(), Fail> {
    let alloc = rt.alloc();
    for (gates, open) in [
        ([1, 1], Some(Slot::A)),
        ([255, 1], Some(Slot::B)),
        ([0, 2], None),
    ] {
        let mut bytes = Vec::new(alloc);
        for gate in gates {
            bytes.extend_from_slice(&[gate, 0, 0, 0, 0, 0, 0, 0])?;
            bytes.extend_from_slice(&BODY)?;
            bytes.extend_from_slice(&[0; 4056])?;
        }
        let mut disk = MemDisk::of(alloc, bytes, 2)?;
        if disk.blocks() != 2 {
            return Err(Fail::new("the disk has not 2 blocks"));
        }
        let Ok(slots) = read_slots(&mut disk) else {
            return Err(Fail::new("the disk failed"));
        };
        let body = SlotBody {
            format: 1,
            epoch: 1,
            first: 15,
            length: 1_008,
        };
        assert_eq!(rt; slots.gates, gates);
        assert_eq!(rt; slots.newest, open.map(|slot| (slot, body)));
    }
    Ok(())
}

// The block of a slot with gate 1 and this text, with epoch 5, first block 9 and a length of 300 bytes.
fn slot_block(alloc: Global, text: &[u8]) -> Result<Vec<u8>, Fail> {
    let mut bytes = Vec::new(alloc);
    bytes.extend_from_slice(&[1, 0, 0, 0, 0, 0, 0, 0])?;
    bytes.extend_from_slice(text)?;
    bytes.extend_from_slice(b"\x05\0\0\0\0\0\0\0\x09\0\0\0\0\0\0\0\x2c\x01\0\0\0\0\0\0")?;
    bytes.resize(4096, 0)?;
    Ok(bytes)
}

#[test]
fn a_slot_has_the_format_of_its_text(rt: HostRuntime) -> Result<(), Fail> {
    let texts: [(&[u8], Option<u8>); 6] = [
        (b"AURSLOT1", Some(1)),
        (b"AURSLOT2", Some(2)),
        (b"AURSLOT0", None),
        (b"AURSLOT3", None),
        (b"aurslot2", None),
        (b"AURMETA2", None),
    ];
    for (text, format) in texts {
        let block = slot_block(rt.alloc(), text)?;
        if block.len() != 4_096 {
            return Err(Fail::new("the block has not 4,096 bytes"));
        }
        let want = format.map(|format| SlotBody {
            format,
            epoch: 5,
            first: 9,
            length: 300,
        });
        assert_eq!(rt; read_slot(&block), want);
    }
    Ok(())
}
