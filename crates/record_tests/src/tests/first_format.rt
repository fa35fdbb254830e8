//! Records of format 1, which are read alone.
use ckpt_records::PagePlace;
use std::alloc::Global;
use std::test::Fail;

/// The record of a frame whose messages carry nothing and whose pairs are none, with these pages, from the frame's
/// record in format 2 without pages.
pub fn in_first_format(alloc: Global, bare: &[u8], pages: &[PagePlace]) -> Result<Vec<u8>, Fail> {
    if bare.len() < 16 {
        return Err(Fail::new("this is no record"));
    }
    let mut record = Vec::from_slice(alloc, b"AURMETA1")?;
    record.extend_from_slice(&bare[8..bare.len() - 8])?;
    record.extend_from_slice(&(pages.len() as u64).to_le_bytes())?;
    for page in pages {
        record.extend_from_slice(&page.object.to_le_bytes())?;
        record.extend_from_slice(&page.page.to_le_bytes())?;
        record.extend_from_slice(&page.block.to_le_bytes())?;
    }
    Ok(record)
}
