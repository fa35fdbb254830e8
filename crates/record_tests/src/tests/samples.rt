//! The record of one process, on a disk of 16 blocks.
use crate::tests::first_format::in_first_format;
use ckpt_records::{PagePlace, is_in_form, read_meta, write_meta};
use group_defs::{Frame, Mapping, Next, ObjectRec, Open, OpenKind, Out, Proc, ProcState};
use group_valid::frame_valid;
use lists::Seq;
use std::alloc::Global;
use std::test::Fail;

/// How many blocks the disk of these tests has.
pub const BLOCKS: u64 = 16;

/// A private mapping of an object from its first page on.
fn mapping(start: u64, pages: u64, prot: u8, object: u64) -> Mapping {
    Mapping {
        start,
        pages,
        prot,
        shared: false,
        object,
        first: 0,
    }
}

/// A description without offset and flags.
fn open(number: u64, kind: OpenKind) -> Open {
    Open {
        number,
        kind,
        offset: 0,
        flags: 0,
    }
}

/// A process with `pages` pages of image, and its output.
pub fn frame_of(alloc: Global, pages: u8, pc: u64, output: &[u8]) -> Result<Frame, Fail> {
    let pages = u64::from(pages);
    let brk = 0x10000 + 4096 * pages;
    let maps = [
        mapping(0x10000, pages, 7, 0),
        mapping(0x3f_ffff_e000, 1, 3, 1),
    ];
    let opens = [open(0, OpenKind::Nothing), open(1, OpenKind::Outside)];
    let objects = [
        ObjectRec { number: 0, pages },
        ObjectRec {
            number: 1,
            pages: 1,
        },
    ];
    let mut regs = [0; 31];
    regs[1] = 0x3f_ffff_f000;
    let mut procs = Seq::new(alloc);
    procs.push(Proc {
        pid: 1,
        parent: 0,
        state: ProcState::Running,
        pc,
        regs,
        brk_base: brk,
        brk,
        maps: Seq::of(Vec::from_slice(alloc, &maps)?),
        fds: Seq::of(Vec::from_slice(alloc, &[(0, 0), (1, 1), (2, 1)])?),
    })?;
    Ok(Frame {
        procs,
        objects: Seq::of(Vec::from_slice(alloc, &objects)?),
        opens: Seq::of(Vec::from_slice(alloc, &opens)?),
        pipes: Seq::new(alloc),
        pairs: Seq::new(alloc),
        files: Seq::new(alloc),
        next: Next {
            pid: 2,
            object: 2,
            descr: 2,
            pipe: 0,
            pair: 0,
        },
        out: Out {
            from: 0,
            mark: output.len() as u64,
            bytes: Seq::of(Vec::from_slice(alloc, output)?),
        },
    })
}

/// The first pages of object 0, in blocks from 2 on.
pub fn first_pages(alloc: Global, count: u8) -> Result<Vec<PagePlace>, Fail> {
    let mut pages = Vec::new(alloc);
    for page in 0..count {
        let page = u64::from(page);
        pages.push(PagePlace {
            object: 0,
            page,
            block: 2 + page,
        })?;
    }
    Ok(pages)
}

pub fn spelled(alloc: Global, frame: &Frame, pages: &[PagePlace]) -> Result<Vec<u8>, Fail> {
    if !frame_valid(frame) || !is_in_form(frame) {
        return Err(Fail::new("the frame is not that of a checkpoint"));
    }
    Ok(write_meta(alloc, frame, pages)?)
}

/// Whether the bytes spell nothing in a format.
pub fn is_nothing(alloc: Global, format: u8, bytes: &[u8]) -> Result<bool, Fail> {
    Ok(read_meta(alloc, format, bytes, BLOCKS)?.is_none())
}

/// The record of a process with 13 pages in a format, 1 or 2.
pub fn thirteen(alloc: Global, format: u8) -> Result<Vec<u8>, Fail> {
    let frame = frame_of(alloc, 13, 0x10000, b"")?;
    let pages = first_pages(alloc, 13)?;
    if format == 1 {
        return in_first_format(alloc, &spelled(alloc, &frame, &[])?, &pages);
    }
    spelled(alloc, &frame, &pages)
}
