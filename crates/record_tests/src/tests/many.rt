//! A record of many objects, each with a page. A look through all objects for each page would not end in the time of a test.
use crate::tests::samples::{BLOCKS, frame_of};
use ckpt_records::{PagePlace, is_in_form, read_meta, write_meta};
use group_defs::ObjectRec;
use lists::Seq;
use std::alloc::Global;
use std::test::Fail;

/// Objects of a page each.
fn objects(alloc: Global, count: u64) -> Result<Seq<ObjectRec>, Fail> {
    let mut list = Vec::new(alloc);
    for number in 0..count {
        list.push(ObjectRec { number, pages: 1 })?;
    }
    Ok(Seq::of(list))
}

/// The first pages of objects, all in block 2.
fn places(alloc: Global, count: u64) -> Result<Vec<PagePlace>, Fail> {
    let mut list = Vec::new(alloc);
    for object in 0..count {
        list.push(PagePlace {
            object,
            page: 0,
            block: 2,
        })?;
    }
    Ok(list)
}

/// How many pages a record of so many objects lists that is written with the first pages of so many.
fn listed(alloc: Global, count: u64, written: u64) -> Result<Option<usize>, Fail> {
    let mut frame = frame_of(alloc, 1, 0x10000, b"")?;
    frame.objects = objects(alloc, count)?;
    if !is_in_form(&frame) {
        return Err(Fail::new("the frame has no spelling"));
    }
    let record = write_meta(alloc, &frame, &places(alloc, written)?)?;
    let read = read_meta(alloc, 2, &record, BLOCKS)?;
    Ok(read.map(|meta| meta.pages.len()))
}

#[test]
fn a_million_pages_are_read_or_refused_by_one_walk(rt: HostRuntime) -> Result<(), Fail> {
    let alloc = rt.alloc();
    assert_eq!(rt; listed(alloc, 1_000_000, 1_000_000)?, Some(1_000_000));
    assert_eq!(rt; listed(alloc, 1_000_000, 1_000_001)?, None);
    Ok(())
}
