use ckpt_chain::{Slot, lay_stream};
use ckpt_records::{Origin, PagePlace, is_in_form, write_meta};
use dev_traits::Disk;
use dev_traits::mem::MemDisk;
use group_defs::{Frame, Mapping, Next, ObjectRec, Open, OpenKind, Out, Proc, ProcState};
use lists::Seq;
use mem_objects::Layer;
use restore_group::{Refused, restore};
use std::alloc::Global;
use std::test::Fail;

/// A checkpoint on a disk of 16 blocks: a process with two objects of one page.
#[derive(Clone, Copy)]
struct Checkpoint {
    /// The format of its slot and of its record, 1 or 2.
    format: u8,
    epoch: u64,
    /// The slot's block.
    slot: u64,
    /// The blocks of the pages of objects 0 and 1.
    pages: [u64; 2],
    metas: &'static [u64],
    output: &'static [u8],
}

/// Its record has one meta block.
const SHORT: Checkpoint = Checkpoint {
    format: 2,
    epoch: 6,
    slot: 0,
    pages: [7, 4],
    metas: &[15],
    output: b"out",
};

/// Its record has two meta blocks.
const LONG: Checkpoint = Checkpoint {
    format: 2,
    epoch: 7,
    slot: 1,
    pages: [5, 9],
    metas: &[12, 3],
    output: &[65; 4096],
};

/// Its slot and its record have format 1.
const OLD: Checkpoint = Checkpoint { format: 1, ..SHORT };

/// A mapping of an object's one page.
fn mapping(start: u64, prot: u8, object: u64) -> Mapping {
    Mapping {
        start,
        pages: 1,
        prot,
        shared: false,
        object,
        first: 0,
    }
}

fn open(number: u64, kind: OpenKind) -> Open {
    Open {
        number,
        kind,
        offset: 0,
        flags: 0,
    }
}

fn object(number: u64) -> ObjectRec {
    ObjectRec { number, pages: 1 }
}

fn process(alloc: Global) -> Result<Proc, Fail> {
    let maps = [mapping(0x10000, 7, 0), mapping(0x3f_ffff_e000, 3, 1)];
    Ok(Proc {
        pid: 1,
        parent: 0,
        state: ProcState::Running,
        pc: 0x10004,
        regs: [3; 31],
        brk_base: 0x11000,
        brk: 0x11000,
        maps: Seq::of(Vec::from_slice(alloc, &maps)?),
        fds: Seq::of(Vec::from_slice(alloc, &[(0, 0), (1, 1), (2, 1)])?),
    })
}

/// A frame without processes.
fn ended(alloc: Global, output: &[u8]) -> Result<Frame, Fail> {
    Ok(Frame {
        procs: Seq::new(alloc),
        objects: Seq::new(alloc),
        opens: Seq::new(alloc),
        pipes: Seq::new(alloc),
        pairs: Seq::new(alloc),
        files: Seq::new(alloc),
        next: Next {
            pid: 2,
            object: 2,
            descr: 2,
            pipe: 0,
            pair: 0,
        },
        out: Out {
            from: 0,
            mark: output.len() as u64,
            bytes: Seq::of(Vec::from_slice(alloc, output)?),
        },
    })
}

/// A frame with one process.
fn running(alloc: Global, output: &[u8]) -> Result<Frame, Fail> {
    let opens = [open(0, OpenKind::Nothing), open(1, OpenKind::Outside)];
    let mut frame = ended(alloc, output)?;
    frame.procs.push(process(alloc)?)?;
    frame.objects = Seq::of(Vec::from_slice(alloc, &[object(0), object(1)])?);
    frame.opens = Seq::of(Vec::from_slice(alloc, &opens)?);
    Ok(frame)
}

/// The first page of each object, in these blocks.
fn places(pages: [u64; 2]) -> [PagePlace; 2] {
    let [first, second] = pages;
    [
        PagePlace {
            object: 0,
            page: 0,
            block: first,
        },
        PagePlace {
            object: 1,
            page: 0,
            block: second,
        },
    ]
}

pub fn spelled(alloc: Global, frame: &Frame, pages: &[PagePlace]) -> Result<Vec<u8>, Fail> {
    if !is_in_form(frame) {
        return Err(Fail::new("the frame has no spelling"));
    }
    Ok(write_meta(alloc, frame, pages)?)
}

/// The record in format 1 of a frame with these pages, from the frame's record in format 2 without pages. The frame has no
/// pairs.
fn in_first_format(alloc: Global, bare: &[u8], pages: &[PagePlace]) -> Result<Vec<u8>, Fail> {
    if bare.len() < 16 {
        return Err(Fail::new("this is no record"));
    }
    let mut record = Vec::from_slice(alloc, b"AURMETA1")?;
    record.extend_from_slice(&bare[8..bare.len() - 8])?;
    record.extend_from_slice(&(pages.len() as u64).to_le_bytes())?;
    for page in pages {
        record.extend_from_slice(&page.object.to_le_bytes())?;
        record.extend_from_slice(&page.page.to_le_bytes())?;
        record.extend_from_slice(&page.block.to_le_bytes())?;
    }
    Ok(record)
}

/// The record of a checkpoint.
fn record_of(alloc: Global, written: &Checkpoint) -> Result<Vec<u8>, Fail> {
    let frame = running(alloc, written.output)?;
    if written.format == 1 {
        let bare = spelled(alloc, &frame, &[])?;
        return in_first_format(alloc, &bare, &places(written.pages));
    }
    spelled(alloc, &frame, &places(written.pages))
}

/// The bytes of a disk of 16 blocks without a checkpoint: each byte of a block from 2 on is the block's number.
fn plain(alloc: Global) -> Result<Vec<u8>, Fail> {
    let mut image = Vec::new(alloc);
    image.resize(8_192, 0)?;
    for block in 2..16u8 {
        image.extend_from_slice(&[block; 4_096])?;
    }
    Ok(image)
}

/// Puts bytes at a place of the disk.
pub fn put(image: &mut Vec<u8>, place: u64, bytes: &[u8]) -> Result<(), Fail> {
    if place > image.len() as u64 || image.len() as u64 - place < bytes.len() as u64 {
        return Err(Fail::new("the disk is shorter"));
    }
    let at = place as usize;
    image[at..at + bytes.len()].copy_from_slice(bytes);
    Ok(())
}

/// Puts bytes at the start of a block.
fn put_block(image: &mut Vec<u8>, block: u64, bytes: &[u8]) -> Result<(), Fail> {
    if block >= 16 {
        return Err(Fail::new("the disk has fewer blocks"));
    }
    put(image, 4_096 * block, bytes)
}

/// A slot's gate, text and numbers.
fn slot_of(
    alloc: Global,
    format: u8,
    epoch: u64,
    first: u64,
    length: u64,
) -> Result<Vec<u8>, Fail> {
    let text = if format == 1 {
        b"AURSLOT1"
    } else {
        b"AURSLOT2"
    };
    let mut bytes = Vec::from_slice(alloc, b"\x01\0\0\0\0\0\0\0")?;
    bytes.extend_from_slice(text)?;
    bytes.extend_from_slice(&epoch.to_le_bytes())?;
    bytes.extend_from_slice(&first.to_le_bytes())?;
    bytes.extend_from_slice(&length.to_le_bytes())?;
    Ok(bytes)
}

/// Puts a record into meta blocks, and opens a slot at it.
fn put_record(
    alloc: Global,
    image: &mut Vec<u8>,
    written: &Checkpoint,
    record: &[u8],
) -> Result<(), Fail> {
    let laid = lay_stream(alloc, record, written.metas)?;
    for (block, bytes) in written.metas.iter().zip(laid.iter()) {
        put_block(image, *block, bytes.as_slice())?;
    }
    let Some(first) = written.metas.first() else {
        return Err(Fail::new("the checkpoint has no meta block"));
    };
    let length = record.len() as u64;
    let slot = slot_of(alloc, written.format, written.epoch, *first, length)?;
    put_block(image, written.slot, &slot)
}

/// A disk with these checkpoints.
fn image_of(alloc: Global, checkpoints: &[Checkpoint]) -> Result<Vec<u8>, Fail> {
    let mut image = plain(alloc)?;
    for written in checkpoints {
        let record = record_of(alloc, written)?;
        put_record(alloc, &mut image, written, &record)?;
    }
    Ok(image)
}

/// What is restored of a disk whose call of one number, from 1, fails, and how many calls that took.
pub fn restored(
    alloc: Global,
    image: &[u8],
    failing: u64,
) -> Result<(Result<Origin, Refused>, u64), Fail> {
    let disk = MemDisk::of(alloc, image.to_vec(alloc)?, 40)?;
    let mut disk = disk.failing(Vec::from_slice(alloc, &[failing])?);
    if disk.blocks() < 16 || disk.blocks() > 1_024 {
        return Err(Fail::new("the disk has another size"));
    }
    let answer = restore(alloc, &mut disk);
    Ok((answer, disk.moment()))
}

/// Why nothing is restored of a disk whose call of one number, from 1, fails, and how many calls that took.
fn refused_at(alloc: Global, image: &[u8], failing: u64) -> Result<(Option<Refused>, u64), Fail> {
    let (answer, calls) = restored(alloc, image, failing)?;
    match answer {
        Ok(_) => Ok((None, calls)),
        Err(refused) => Ok((Some(refused), calls)),
    }
}

/// Why nothing is restored.
fn refused(alloc: Global, image: &[u8]) -> Result<Option<Refused>, Fail> {
    Ok(refused_at(alloc, image, 0)?.0)
}

/// Whether the layer has page 0 alone, and each of its bytes is the block's number.
fn is_page_of(layer: &Layer, block: u64) -> bool {
    match layer.as_slice() {
        [(number, page)] => {
            *number == 0 && page.as_array().iter().all(|b| u64::from(*b) == block)
        }
        _ => false,
    }
}

/// Whether these are the layers of objects 0 and 1, each with the page of its block.
fn has_layers(layers: &[(u64, Layer)], pages: [u64; 2]) -> bool {
    match layers {
        [a, b] => {
            a.0 == 0 && b.0 == 1 && is_page_of(&a.1, pages[0]) && is_page_of(&b.1, pages[1])
        }
        _ => false,
    }
}

/// Whether the placement is that of a checkpoint.
fn is_placed(o: &Origin, written: &Checkpoint) -> bool {
    o.placement.metas.as_slice() == written.metas
        && o.placement.pages.as_slice() == places(written.pages).as_slice()
}

/// The record in format 2 of what an image is restored to.
fn restored_record(alloc: Global, image: &[u8]) -> Result<Vec<u8>, Fail> {
    match restored(alloc, image, 0)?.0 {
        Ok(o) => spelled(alloc, &o.parts.frame, o.placement.pages.as_slice()),
        Err(_) => Err(Fail::new("nothing was restored")),
    }
}

/// Whether an image is restored with the pages and the places of a checkpoint.
fn is_restored(alloc: Global, image: &[u8], written: &Checkpoint) -> Result<bool, Fail> {
    match restored(alloc, image, 0)?.0 {
        Ok(o) => Ok(has_layers(o.parts.layers.as_slice(), written.pages) && is_placed(&o, written)),
        Err(_) => Ok(false),
    }
}

/// Which slot an image is restored from, with its epoch and the gate bytes of slots A and B.
#[derive(Clone, Copy, Debug, PartialEq, Eq)]
struct OpenSlot {
    epoch: u64,
    slot: Slot,
    gates: [u8; 2],
}

fn opened(alloc: Global, image: &[u8]) -> Result<Option<OpenSlot>, Fail> {
    match restored(alloc, image, 0)?.0 {
        Ok(o) => Ok(Some(OpenSlot {
            epoch: o.epoch,
            slot: o.placement.slot,
            gates: o.gates,
        })),
        Err(_) => Ok(None),
    }
}

#[test]
fn what_was_written_is_restored(rt: HostRuntime) -> Result<(), Fail> {
    let alloc = rt.alloc();
    for written in [SHORT, LONG, OLD] {
        let image = image_of(alloc, &[written])?;
        let newer = Checkpoint {
            format: 2,
            ..written
        };
        let record = restored_record(alloc, &image)?;
        assert!(rt; record.as_slice() == record_of(alloc, &newer)?.as_slice());
    }
    Ok(())
}

#[test]
fn what_was_written_is_restored_with_its_pages(rt: HostRuntime) -> Result<(), Fail> {
    let alloc = rt.alloc();
    for written in [SHORT, LONG, OLD] {
        let image = image_of(alloc, &[written])?;
        assert!(rt; is_restored(alloc, &image, &written)?);
        assert_eq!(rt;
            opened(alloc, &image)?.map(|o| o.epoch),
            Some(written.epoch)
        );
        let calls = 4 + written.metas.len() as u64;
        assert_eq!(rt; refused_at(alloc, &image, 0)?, (None, calls));
    }
    Ok(())
}

/// The epochs of slots A and B, and which of them is the newest.
const NEWEST: &[(u64, u64, Slot)] = &[
    (6, 7, Slot::B),
    (7, 6, Slot::A),
    (7, 7, Slot::A),
    (1, u64::MAX, Slot::B),
];

#[test]
fn the_newest_open_slot_is_restored(rt: HostRuntime) -> Result<(), Fail> {
    let alloc = rt.alloc();
    for (a, b, newest) in NEWEST {
        let first = Checkpoint { epoch: *a, ..SHORT };
        let second = Checkpoint { epoch: *b, ..LONG };
        let image = image_of(alloc, &[first, second])?;
        let wanted = OpenSlot {
            epoch: if *newest == Slot::A { *a } else { *b },
            slot: *newest,
            gates: [1, 1],
        };
        assert_eq!(rt; opened(alloc, &image)?, Some(wanted));
    }
    Ok(())
}

/// What SHORT's slot is restored as, where the other gate is closed, and LONG's, where both are open.
const FIRST: OpenSlot = OpenSlot {
    epoch: 6,
    slot: Slot::A,
    gates: [1, 0],
};

const SECOND: OpenSlot = OpenSlot {
    epoch: 7,
    slot: Slot::B,
    gates: [1, 1],
};

/// Formats of slots A and B of the same two epochs: either is restored by its own slot's format.
#[test]
fn each_slot_has_its_own_format(rt: HostRuntime) -> Result<(), Fail> {
    let alloc = rt.alloc();
    for (a, b) in [(1, 2), (2, 1), (1, 1), (2, 2)] {
        let first = Checkpoint { format: a, ..SHORT };
        let second = Checkpoint { format: b, ..LONG };
        let mut image = image_of(alloc, &[first, second])?;
        assert_eq!(rt; opened(alloc, &image)?, Some(SECOND));
        put_block(&mut image, 1, &[0])?;
        assert_eq!(rt; opened(alloc, &image)?, Some(FIRST));
    }
    Ok(())
}

/// A commit of the next epoch beside a slot of format 1, stopped in the write of its gate so that the gate byte is still 0.
#[test]
fn a_stop_in_the_gate_write_leaves_the_first_format(rt: HostRuntime) -> Result<(), Fail> {
    let alloc = rt.alloc();
    let mut image = image_of(alloc, &[OLD, LONG])?;
    put(&mut image, 4_096, &[0])?;
    assert_eq!(rt; opened(alloc, &image)?, Some(FIRST));
    assert!(rt; is_restored(alloc, &image, &OLD)?);
    Ok(())
}

/// The damage of a slot whose format is another than its record's, or of no format.
#[test]
fn a_record_of_another_format_is_damage(rt: HostRuntime) -> Result<(), Fail> {
    let alloc = rt.alloc();
    for written in [SHORT, OLD] {
        let mut image = image_of(alloc, &[written])?;
        put(&mut image, 15, &[b'3' - written.format])?;
        assert_eq!(rt;
            refused(alloc, &image)?,
            Some(Refused::Damaged { epoch: 6 })
        );
        put(&mut image, 15, b"3")?;
        assert_eq!(rt; refused(alloc, &image)?, Some(Refused::NoCheckpoint));
    }
    Ok(())
}

/// A page of the first object.
fn page_in(page: u64, block: u64) -> PagePlace {
    PagePlace {
        object: 0,
        page,
        block,
    }
}

/// The record of a process with an object of two pages, both of which have places, and one of one page.
fn record_of_two(alloc: Global) -> Result<Vec<u8>, Fail> {
    let two = ObjectRec {
        number: 0,
        pages: 2,
    };
    let mut frame = running(alloc, b"out")?;
    frame.objects = Seq::of(Vec::from_slice(alloc, &[two, object(1)])?);
    spelled(alloc, &frame, &[page_in(0, 5), page_in(1, 7)])
}

#[test]
fn a_run_split_in_two_is_damage(rt: HostRuntime) -> Result<(), Fail> {
    let alloc = rt.alloc();
    let record = record_of_two(alloc)?;
    let mut image = plain(alloc)?;
    put_record(alloc, &mut image, &SHORT, &record)?;
    assert_eq!(rt; refused(alloc, &image)?, None);
    // the last run's block, so that the run continues the one before it
    put(&mut image, 61_440 + record.len() as u64, &[6])?;
    assert_eq!(rt;
        refused(alloc, &image)?,
        Some(Refused::Damaged { epoch: 6 })
    );
    Ok(())
}

/// The record of an object whose 81 runs name the same blocks and stand for 82,782 pages: no valid group has more than 81,920.
fn record_of_many(alloc: Global) -> Result<Vec<u8>, Fail> {
    let mut frame = ended(alloc, b"")?;
    frame.objects.push(ObjectRec {
        number: 0,
        pages: 100_000,
    })?;
    let bare = spelled(alloc, &frame, &[])?;
    if bare.len() < 8 {
        return Err(Fail::new("this is no record"));
    }
    let mut record = Vec::from_slice(alloc, &bare[..bare.len() - 8])?;
    record.extend_from_slice(&81u64.to_le_bytes())?;
    for run in 0..81u64 {
        // the object, the first page, how many pages, and the first block
        record.extend_from_slice(&0u64.to_le_bytes())?;
        record.extend_from_slice(&(1_023 * run).to_le_bytes())?;
        record.extend_from_slice(&1_022u64.to_le_bytes())?;
        record.extend_from_slice(&2u64.to_le_bytes())?;
    }
    Ok(record)
}

#[test]
fn a_small_record_of_too_many_pages_is_damage(rt: HostRuntime) -> Result<(), Fail> {
    let alloc = rt.alloc();
    let record = record_of_many(alloc)?;
    let mut image = plain(alloc)?;
    image.resize(4_194_304, 0)?;
    put_record(alloc, &mut image, &SHORT, &record)?;
    assert!(rt; record.len() < 4_088);
    assert_eq!(rt;
        refused(alloc, &image)?,
        Some(Refused::Damaged { epoch: 6 })
    );
    Ok(())
}

#[test]
fn a_closed_slot_is_no_checkpoint(rt: HostRuntime) -> Result<(), Fail> {
    let alloc = rt.alloc();
    let mut image = plain(alloc)?;
    assert_eq!(rt; refused(alloc, &image)?, Some(Refused::NoCheckpoint));
    put_record(alloc, &mut image, &SHORT, &record_of(alloc, &SHORT)?)?;
    for gate in [0, 2, 255] {
        put(&mut image, 0, &[gate])?;
        assert_eq!(rt; refused(alloc, &image)?, Some(Refused::NoCheckpoint));
    }
    Ok(())
}

#[test]
fn an_older_slot_is_not_fallen_back_to(rt: HostRuntime) -> Result<(), Fail> {
    let alloc = rt.alloc();
    let mut image = image_of(alloc, &[SHORT, LONG])?;
    put_block(&mut image, 3, &[1])?;
    assert_eq!(rt;
        refused(alloc, &image)?,
        Some(Refused::Damaged { epoch: 7 })
    );
    put_block(&mut image, 1, &[0])?;
    assert_eq!(rt; refused(alloc, &image)?, None);
    Ok(())
}

/// Numbers of the slot and of the meta block that can't stand there: each makes SHORT damaged.
const HOSTILE: &[(u64, u64)] = &[
    // the first meta block
    (24, 0),
    (24, 1),
    (24, 16),
    (24, u64::MAX),
    // the stream's length
    (32, 0),
    (32, 1),
    (32, 4_089),
    (32, u64::MAX),
    // the meta block's link to itself and to another block, and the record's first number
    (61_440, 15),
    (61_440, 2),
    (61_448, 0),
];

#[test]
fn a_hostile_number_is_damage(rt: HostRuntime) -> Result<(), Fail> {
    let alloc = rt.alloc();
    let image = image_of(alloc, &[SHORT])?;
    for (place, number) in HOSTILE {
        let mut changed = image.clone()?;
        put(&mut changed, *place, &number.to_le_bytes())?;
        let answer = refused(alloc, &changed)?;
        assert!(rt;
            answer == Some(Refused::Damaged { epoch: 6 }),
            "{number} at {place}"
        );
    }
    Ok(())
}

#[test]
fn a_listed_page_of_zeros_is_damage(rt: HostRuntime) -> Result<(), Fail> {
    let alloc = rt.alloc();
    for block in SHORT.pages {
        let mut image = image_of(alloc, &[SHORT])?;
        put_block(&mut image, block, &[0; 4_096])?;
        assert_eq!(rt;
            refused(alloc, &image)?,
            Some(Refused::Damaged { epoch: 6 })
        );
        put_block(&mut image, block, &[1])?;
        assert_eq!(rt; refused(alloc, &image)?, None);
    }
    Ok(())
}

#[test]
fn each_read_that_fails_is_a_disk_fault(rt: HostRuntime) -> Result<(), Fail> {
    let alloc = rt.alloc();
    let image = image_of(alloc, &[SHORT, LONG])?;
    for call in 1..7 {
        let answer = refused_at(alloc, &image, call)?;
        assert_eq!(rt; answer, (Some(Refused::DiskFault), call));
    }
    assert_eq!(rt; refused_at(alloc, &image, 7)?.0, None);
    Ok(())
}

/// Whether an image is restored as a group of this output that has no objects.
fn is_ended(alloc: Global, image: &[u8], output: &[u8]) -> Result<bool, Fail> {
    match restored(alloc, image, 0)?.0 {
        Ok(o) => Ok(o.parts.frame.out.bytes.as_slice() == output && o.parts.layers.len() == 0),
        Err(_) => Ok(false),
    }
}

#[test]
fn a_group_without_processes_is_restored(rt: HostRuntime) -> Result<(), Fail> {
    let alloc = rt.alloc();
    let record = spelled(alloc, &ended(alloc, b"bye")?, &[])?;
    let mut image = plain(alloc)?;
    put_record(alloc, &mut image, &SHORT, &record)?;
    assert!(rt; is_ended(alloc, &image, b"bye")?);
    assert_eq!(rt; opened(alloc, &image)?, Some(FIRST));
    assert_eq!(rt; refused_at(alloc, &image, 0)?, (None, 3));
    Ok(())
}

/// Whether a disk with another byte at a place is damaged, and if not, whether a group is restored of it.
fn is_damaged(alloc: Global, image: &[u8], place: usize) -> Result<bool, Fail> {
    let mut changed = image.to_vec(alloc)?;
    let Some(byte) = changed.get_mut(place) else {
        return Err(Fail::new("the disk is shorter"));
    };
    *byte ^= 1;
    match refused(alloc, &changed)? {
        None => Ok(false),
        Some(Refused::Damaged { epoch: 6 }) => Ok(true),
        Some(_) => Err(Fail::new("another answer than damage")),
    }
}

#[test]
fn each_other_byte_of_a_record_is_damage_or_a_group(rt: HostRuntime) -> Result<(), Fail> {
    let alloc = rt.alloc();
    let image = image_of(alloc, &[SHORT])?;
    let record = record_of(alloc, &SHORT)?;
    let mut some_damaged = false;
    let mut some_restored = false;
    for place in 61_448..61_448 + record.len() {
        if is_damaged(alloc, &image, place)? {
            some_damaged = true;
        } else {
            some_restored = true;
        }
    }
    assert!(rt; some_damaged && some_restored);
    Ok(())
}
