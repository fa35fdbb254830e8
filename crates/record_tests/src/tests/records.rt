use crate::tests::samples::{BLOCKS, first_pages, frame_of, is_nothing, spelled, thirteen};
use ckpt_records::{num_at, read_meta};
use std::alloc::Global;
use std::test::Fail;

/// The bytes with another number at a place.
fn with_number(alloc: Global, bytes: &[u8], place: usize, number: u64) -> Result<Vec<u8>, Fail> {
    if place > bytes.len() || bytes.len() - place < 8 {
        return Err(Fail::new("no number stands there"));
    }
    let (front, rest) = bytes.split_at(place);
    let (_, back) = rest.split_at(8);
    let mut changed = front.to_vec(alloc)?;
    changed.extend_from_slice(&number.to_le_bytes())?;
    changed.extend_from_slice(back)?;
    Ok(changed)
}

#[test]
fn thirteen_pages_are_one_run(rt: HostRuntime) -> Result<(), Fail> {
    let alloc = rt.alloc();
    let bytes = thirteen(alloc, 2)?;
    assert_eq!(rt; bytes.len(), 728);
    assert_eq!(rt; num_at(&bytes, 0), Some(3_621_268_232_009_307_457));
    assert_eq!(rt; num_at(&bytes, 688), Some(1));
    assert_eq!(rt; num_at(&bytes, 712), Some(13));
    assert_eq!(rt; num_at(&bytes, 721), None);
    Ok(())
}

#[test]
fn the_first_format_lists_thirteen_pages(rt: HostRuntime) -> Result<(), Fail> {
    let alloc = rt.alloc();
    let bytes = thirteen(alloc, 1)?;
    assert_eq!(rt; bytes.len(), 1_008);
    assert_eq!(rt; num_at(&bytes, 0), Some(3_549_210_637_971_379_521));
    assert_eq!(rt; num_at(&bytes, 688), Some(13));
    Ok(())
}

#[test]
fn a_record_is_read_in_its_own_format_alone(rt: HostRuntime) -> Result<(), Fail> {
    let alloc = rt.alloc();
    for written in 1..3u8 {
        let bytes = thirteen(alloc, written)?;
        for format in 0..5u8 {
            assert_eq!(rt; is_nothing(alloc, format, &bytes)?, format != written);
        }
    }
    Ok(())
}

#[test]
fn the_text_of_one_format_before_the_other_spells_nothing(rt: HostRuntime) -> Result<(), Fail> {
    let alloc = rt.alloc();
    for (written, text) in [
        (1, 3_621_268_232_009_307_457),
        (2, 3_549_210_637_971_379_521),
    ] {
        let bytes = with_number(alloc, &thirteen(alloc, written)?, 0, text)?;
        assert!(rt; is_nothing(alloc, 1, &bytes)?);
        assert!(rt; is_nothing(alloc, 2, &bytes)?);
    }
    Ok(())
}

#[test]
fn fewer_or_more_bytes_spell_nothing(rt: HostRuntime) -> Result<(), Fail> {
    let alloc = rt.alloc();
    for format in 1..3u8 {
        let bytes = thirteen(alloc, format)?;
        for length in 0..bytes.len() {
            assert!(rt; is_nothing(alloc, format, &bytes[..length])?);
        }
        let mut longer = bytes;
        longer.push(0)?;
        assert!(rt; is_nothing(alloc, format, &longer)?);
    }
    Ok(())
}

/// Places of counts, a kind, a target, a state, a status, rights, a shared flag and a descriptor, each with a
/// number that can't stand there in either format.
const WRONG: &[(usize, u64)] = &[
    (0, 0),
    (56, 1),
    (64, 1),
    (64, 3),
    (64, 1 << 61),
    (104, 1),
    (112, 1 << 61),
    (120, 1),
    (128, 1),
    (128, 1 << 61),
    (144, 7),
    (152, 1),
    (192, 1),
    (216, 0),
    (216, 2),
    (240, 2),
    (248, 5),
    (528, 1),
    (552, 256),
    (560, 2),
    (632, 4),
    (640, 1),
    (688, 0),
    (688, 2),
    (688, 12),
    (688, 14),
    (696, 2),
    (704, 13),
];

/// The same of the first run, and of the second page in format 1.
const WRONG_RUN: &[(usize, u64)] = &[
    (696, 1),
    (704, 1),
    (704, u64::MAX),
    (712, 0),
    (712, 14),
    (712, u64::MAX),
    (720, 1),
    (720, 4),
    (720, u64::MAX),
];

const WRONG_PAGE: &[(usize, u64)] = &[(712, 1), (712, 16), (720, 2), (728, 0)];

/// Whether each of these numbers at its place makes a record spell nothing.
fn are_nothing(alloc: Global, format: u8, wrong: &[(usize, u64)]) -> Result<bool, Fail> {
    let bytes = thirteen(alloc, format)?;
    for (place, number) in wrong {
        let changed = with_number(alloc, &bytes, *place, *number)?;
        if !is_nothing(alloc, format, &changed)? {
            return Ok(false);
        }
    }
    Ok(true)
}

#[test]
fn one_wrong_number_spells_nothing(rt: HostRuntime) -> Result<(), Fail> {
    let alloc = rt.alloc();
    for format in 1..3u8 {
        assert!(rt; are_nothing(alloc, format, WRONG)?);
        assert!(rt; are_nothing(alloc, format, FAR)?);
    }
    assert!(rt; are_nothing(alloc, 1, WRONG_PAGE)?);
    assert!(rt; are_nothing(alloc, 2, WRONG_RUN)?);
    Ok(())
}

/// Whether a record with these numbers is read again as it was written.
fn is_read_again(
    alloc: Global,
    pages: u8,
    listed: u8,
    pc: u64,
    output: &[u8],
) -> Result<bool, Fail> {
    let frame = frame_of(alloc, pages, pc, output)?;
    let places = first_pages(alloc, listed)?;
    let bytes = spelled(alloc, &frame, &places)?;
    match read_meta(alloc, 2, &bytes, BLOCKS)? {
        None => Ok(false),
        Some(meta) => {
            let again = spelled(alloc, &meta.frame, meta.pages.as_slice())?;
            Ok(again.as_slice() == bytes.as_slice())
        }
    }
}

#[test]
fn what_is_written_is_read_again(rt: HostRuntime) -> Result<(), Fail> {
    let alloc = rt.alloc();
    for pages in 1..14u8 {
        for listed in 0..pages + 1 {
            let pc = 4096 * u64::from(pages) + 4 * u64::from(listed);
            let output = [listed; 40];
            assert!(rt; is_read_again(alloc, pages, listed, pc, &output)?);
        }
    }
    Ok(())
}

/// Places of further lengths, each one off or far too great, and of numbers of four bytes, each too great.
const FAR: &[(usize, u64)] = &[
    (8, 1 << 32),
    (56, 1 << 61),
    (104, 1 << 61),
    (112, 1),
    (120, 1 << 61),
    (128, 3),
    (168, 1 << 32),
    (216, 1 << 61),
    (224, 1 << 32),
    (232, 1 << 32),
    (528, 3),
    (528, 1 << 61),
    (632, 2),
    (632, 1 << 61),
    (640, 1 << 32),
    (688, 1 << 61),
];
