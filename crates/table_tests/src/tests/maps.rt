ghost use Rattle.std.specs.Prelude.{◌≡◌, ◌≤◌, ◌+◌, ◌*◌, false};

use address_maps::{AddRefused, CutRefused, Map, Mapping, Place};
use std::test::Fail;

const AREA: u64 = 0x20_0000_0000;

// So many pages at a page of the area, of object 7 from page 5 on.
fn pages_at(page: u64, pages: u64) -> Mapping
    requires pages { pages ≤ 1024 }
    requires page { page ≤ 4096 }
    ensures { result ≡ record {
      start = 137438953472 + 4096 * page;
      pages = pages;
      prot = 3;
      shared = false;
      object = 7;
      first = 5;
    } }
{
    Mapping {
        start: AREA + 4_096 * page,
        pages,
        prot: 3,
        shared: false,
        object: 7,
        first: 5,
    }
}

#[test]
#[tactic(auto, unfolding(address_maps::specs::Mappings::IsMapping))]
fn an_address_shows_its_page(rt: HostRuntime) -> Result<(), Fail> {
    let mut map = Map::new(rt.alloc());
    map.reserve(1)?;
    map.add(pages_at(2, 4))?;
    assert_eq!(rt; map.find(AREA + 2 * 4_096 - 1), None);
    let last = Place {
        object: 7,
        page: 8,
        offset: 4_095,
        prot: 3,
        shared: false,
    };
    assert_eq!(rt; map.find(AREA + 6 * 4_096 - 1), Some(last));
    assert_eq!(rt; map.find(AREA + 6 * 4_096), None);
    Ok(())
}

#[test]
#[tactic(auto, unfolding(address_maps::specs::Mappings::IsMapping))]
fn a_byte_is_mapped_once(rt: HostRuntime) -> Result<(), Fail> {
    let mut map = Map::new(rt.alloc());
    map.add(pages_at(4, 2))?;
    assert_eq!(rt; map.add(pages_at(2, 3)), Err(AddRefused::Overlap));
    assert_eq!(rt; map.add(pages_at(5, 1)), Err(AddRefused::Overlap));
    map.add(pages_at(6, 1))?;
    map.add(pages_at(2, 2))?;
    assert_eq!(rt; map.len(), 3);
    Ok(())
}

#[test]
#[tactic(auto, unfolding(address_maps::specs::Mappings::IsMapping))]
fn a_cut_in_the_middle_leaves_two_parts(rt: HostRuntime) -> Result<(), Fail> {
    let mut map = Map::new(rt.alloc());
    map.add(pages_at(0, 10))?;
    assert_eq!(rt; map.left_after(AREA + 4 * 4_096, 2), 2);
    map.cut(AREA + 4 * 4_096, 2)?;
    let tail = Mapping {
        start: AREA + 6 * 4_096,
        first: 11,
        ..pages_at(0, 4)
    };
    let list = map.list(rt.alloc())?;
    assert_eq!(rt; list.as_slice(), [pages_at(0, 4), tail].as_slice());
    map.cut(AREA, 7)?;
    assert_eq!(rt; Map::of(rt.alloc(), list.as_slice())?.len(), 2);
    assert_eq!(rt; map.first_gap(7), Some(AREA));
    Ok(())
}

#[test]
#[tactic(auto, unfolding(address_maps::specs::Mappings::IsMapping))]
fn the_lowest_gap_that_is_large_enough(rt: HostRuntime) -> Result<(), Fail> {
    let mut map = Map::new(rt.alloc());
    map.add(pages_at(1, 1))?;
    map.add(pages_at(4, 1))?;
    assert_eq!(rt; map.first_gap(0), Some(AREA));
    assert_eq!(rt; map.first_gap(1), Some(AREA));
    assert_eq!(rt; map.first_gap(2), Some(AREA + 2 * 4_096));
    assert_eq!(rt; map.first_gap(3), Some(AREA + 5 * 4_096));
    assert_eq!(rt; map.first_gap((1 << 24) - 5), Some(AREA + 5 * 4_096));
    assert_eq!(rt; map.first_gap((1 << 24) - 4), None);
    assert_eq!(rt; map.first_gap(u64::MAX), None);
    Ok(())
}

#[test]
#[tactic(auto, unfolding(address_maps::specs::Mappings::IsMapping))]
fn at_most_1_024_mappings(rt: HostRuntime) -> Result<(), Fail> {
    let mut map = Map::new(rt.alloc());
    for place in 0..1_023 {
        map.add(pages_at(4 * place, 3))?;
    }
    assert_eq!(rt; map.cut(AREA + 4_096, 1), Ok(()));
    assert_eq!(rt; map.add(pages_at(4_095, 1)), Err(AddRefused::Full));
    assert_eq!(rt; map.left_after(AREA + 5 * 4_096, 1), 1_025);
    assert_eq!(rt; map.cut(AREA + 5 * 4_096, 1), Err(CutRefused::Full));
    assert_eq!(rt; map.len(), 1_024);
    Ok(())
}
