//! The runs by which a record lists the pages of an object of 13 pages and of one of a single page.
use crate::tests::samples::{BLOCKS, frame_of, is_nothing, spelled};
use ckpt_records::{PagePlace, PageRun, read_listing, read_meta};
use std::alloc::Global;
use std::test::Fail;

/// An object, a first page, how many pages, and a first block.
type Run = (u64, u64, u64, u64);

/// The record of a process of 13 pages with these runs.
fn with_runs(alloc: Global, runs: &[Run]) -> Result<Vec<u8>, Fail> {
    let frame = frame_of(alloc, 13, 0x10000, b"")?;
    let bare = spelled(alloc, &frame, &[])?;
    if bare.len() < 8 {
        return Err(Fail::new("this is no record"));
    }
    let mut record = bare[..bare.len() - 8].to_vec(alloc)?;
    record.extend_from_slice(&(runs.len() as u64).to_le_bytes())?;
    for (object, first, count, block) in runs {
        record.extend_from_slice(&object.to_le_bytes())?;
        record.extend_from_slice(&first.to_le_bytes())?;
        record.extend_from_slice(&count.to_le_bytes())?;
        record.extend_from_slice(&block.to_le_bytes())?;
    }
    Ok(record)
}

/// Runs that are the longest ones of their pages, in their places.
const RIGHT: &[&[Run]] = &[
    &[],
    &[(0, 0, 13, 2)],
    &[(0, 0, 13, 3)],
    &[(0, 12, 1, 15)],
    &[(1, 0, 1, 15)],
    // a block or a page is left out, or blocks are listed again
    &[(0, 0, 6, 2), (0, 6, 7, 9)],
    &[(0, 0, 6, 2), (0, 7, 6, 8)],
    &[(0, 0, 6, 2), (0, 6, 7, 2)],
    // the next block has another object's page
    &[(0, 12, 1, 2), (1, 0, 1, 3)],
    &[(0, 0, 1, 2), (0, 1, 1, 4), (0, 2, 1, 3)],
];

/// Runs that spell nothing.
const WRONG: &[&[Run]] = &[
    // the second continues the first
    &[(0, 0, 6, 2), (0, 6, 7, 8)],
    &[(0, 0, 1, 2), (0, 1, 1, 3)],
    &[(0, 0, 2, 4), (0, 3, 1, 2), (0, 4, 1, 3)],
    // they overlap, fall, or are the same
    &[(0, 0, 6, 2), (0, 5, 8, 8)],
    &[(0, 6, 7, 8), (0, 0, 6, 2)],
    &[(1, 0, 1, 2), (0, 0, 1, 3)],
    &[(0, 3, 2, 3), (0, 3, 2, 3)],
    // one is empty
    &[(0, 0, 0, 2)],
    &[(0, 0, 13, 2), (1, 0, 0, 3)],
    &[(0, 0, 0, 2), (0, 0, 13, 2)],
    // pages or blocks that aren't there
    &[(0, 0, 14, 2)],
    &[(0, 13, 1, 2)],
    &[(1, 1, 1, 2)],
    &[(2, 0, 1, 2)],
    &[(0, 0, 1, 0)],
    &[(0, 0, 1, 1)],
    &[(0, 0, 1, 16)],
    &[(0, 0, 13, 4)],
    // sums beyond 64 bits
    &[(0, u64::MAX, 1, 2)],
    &[(0, u64::MAX, 2, 2)],
    &[(0, 1, u64::MAX, 2)],
    &[(0, 0, 1, u64::MAX)],
    &[(u64::MAX, 0, 1, 2)],
    &[(0, 0, u64::MAX, u64::MAX)],
];

#[test]
fn longest_runs_are_read(rt: HostRuntime) -> Result<(), Fail> {
    let alloc = rt.alloc();
    for runs in RIGHT {
        assert!(rt;
            !is_nothing(alloc, 2, &with_runs(alloc, runs)?)?,
            "{runs:?}"
        );
    }
    Ok(())
}

#[test]
fn other_runs_spell_nothing(rt: HostRuntime) -> Result<(), Fail> {
    let alloc = rt.alloc();
    for runs in WRONG {
        assert!(rt; is_nothing(alloc, 2, &with_runs(alloc, runs)?)?, "{runs:?}");
    }
    Ok(())
}

/// The page of the first object at a place of the disk.
fn placed(page: u64, block: u64) -> PagePlace {
    PagePlace {
        object: 0,
        page,
        block,
    }
}

#[test]
fn a_run_stands_for_its_pages(rt: HostRuntime) -> Result<(), Fail> {
    let alloc = rt.alloc();
    let record = with_runs(alloc, &[(0, 1, 3, 5), (0, 5, 1, 8)])?;
    let Some(meta) = read_meta(alloc, 2, &record, BLOCKS)? else {
        return Err(Fail::new("the record spells nothing"));
    };
    let pages = [placed(1, 5), placed(2, 6), placed(3, 7), placed(5, 8)];
    assert_eq!(rt; meta.pages.as_slice(), pages.as_slice());
    Ok(())
}

/// A run of the first object.
fn page_run(first: u64, count: u64, block: u64) -> PageRun {
    PageRun {
        object: 0,
        first,
        count,
        block,
    }
}

#[test]
fn a_listing_has_the_runs(rt: HostRuntime) -> Result<(), Fail> {
    let alloc = rt.alloc();
    let record = with_runs(alloc, &[(0, 1, 3, 5), (0, 5, 1, 8)])?;
    let Some(listing) = read_listing(alloc, 2, &record, BLOCKS)? else {
        return Err(Fail::new("the record spells nothing"));
    };
    let runs = [page_run(1, 3, 5), page_run(5, 1, 8)];
    assert_eq!(rt; listing.runs.as_slice(), runs.as_slice());
    Ok(())
}
