ghost use Rattle.std.specs.Prelude.{◌≡◌, IfOk, length, false};
ghost use Rattle.lists.specs.Bytes.{AreBytes};

use flat_kernel::ProcessMemory;
use group_defs::Mapping;
use lists::{NoMemory, Seq};
use rv64_core::Space;
use std::alloc::Global;
use std::test::Fail;

const fn private(start: u64, pages: u64, prot: u8, object: u64, first: u64) -> Mapping
    ensures { result ≡ record {
      start = start;
      pages = pages;
      prot = prot;
      shared = false;
      object =
          object;
      first = first;
    } }
{
    Mapping {
        start,
        pages,
        prot,
        shared: false,
        object,
        first,
    }
}

// A page of one byte, and a page of another.
fn two_pages(alloc: Global, low: u8, high: u8) -> Result<Vec<u8>, NoMemory>
    ensures size { IfOk result (λ bytes. length bytes.items ≡ 8192) }
    ensures bytes { IfOk result (λ bytes. AreBytes bytes.items) }
{
    let mut bytes = Vec::new(alloc);
    bytes.resize(4096, low)?;
    bytes.resize(8192, high)?;
    Ok(bytes)
}

// Object 3 has a page of 10 and one of 11, object 7 one of 20 and one of 21. The second page of object 3 stands at 0x1000
// with all rights, then the first one of object 7 for reading and writing, and past a hole object 3 whole for reading.
fn sample(alloc: Global) -> Result<ProcessMemory, NoMemory> {
    let mut objects = Vec::new(alloc);
    objects.push((3, two_pages(alloc, 10, 11)?))?;
    objects.push((7, two_pages(alloc, 20, 21)?))?;
    let maps = [
        private(0x1000, 1, 7, 3, 1),
        private(0x2000, 1, 3, 7, 0),
        private(0x4000, 2, 1, 3, 0),
    ];
    let maps = Seq::of(Vec::from_slice(alloc, &maps)?);
    ProcessMemory::of(alloc, maps, objects)
}

#[test]
fn each_mapping_shows_its_part(rt: HostRuntime) -> Result<(), Fail> {
    let mut memory = sample(rt.alloc())?;
    assert_eq!(rt; memory.load(0x1000, 2), Some(0x0b0b));
    assert_eq!(rt; memory.load(0x4ffe, 4), Some(0x0b0b_0a0a));
    assert_eq!(rt; memory.load(0x1ffe, 4), Some(0x1414_0b0b));
    assert_eq!(rt; memory.load(0x2ffe, 4), None);
    assert_eq!(rt; memory.load(0x5fff, 1), Some(11));
    assert_eq!(rt; memory.load(0x6000, 1), None);
    assert_eq!(rt; memory.load(0xfff, 2), None);
    assert_eq!(rt; memory.load(u64::MAX, 1), None);
    assert_eq!(rt; memory.fetch(0x1ffc), Some(0x0b0b_0b0b));
    assert_eq!(rt; memory.fetch(0x1ffe), None);
    Ok(())
}

#[test]
fn a_store_is_seen_wherever_its_object_is_mapped(rt: HostRuntime) -> Result<(), Fail> {
    let mut memory = sample(rt.alloc())?;
    assert_eq!(rt; memory.store(0x1002, 2, 0x1234)?, true);
    assert_eq!(rt; memory.load(0x5000, 4), Some(0x1234_0b0b));
    assert_eq!(rt; memory.store(0x1ffe, 4, 0x5566_7788)?, true);
    assert_eq!(rt; memory.load(0x1ffe, 4), Some(0x5566_7788));
    assert_eq!(rt; memory.load(0x2000, 4), Some(0x1414_5566));
    assert_eq!(rt; memory.store(0x2ffe, 4, 0)?, false);
    assert_eq!(rt; memory.store(0x4000, 1, 0)?, false);
    assert_eq!(rt; memory.load(0x2ffe, 2), Some(0x1414));
    Ok(())
}

#[test]
fn bytes_of_several_mappings_follow_one_another(rt: HostRuntime) -> Result<(), Fail> {
    let memory = sample(rt.alloc())?;
    let mut out = Seq::new(rt.alloc());
    out.push(1)?;
    assert_eq!(rt; memory.readable_into(0x1fff, 3, &mut out)?, true);
    assert_eq!(rt; out.as_slice(), [1, 11, 20, 20].as_slice());
    assert_eq!(rt; memory.readable_into(0x2fff, 2, &mut out)?, false);
    assert_eq!(rt; memory.readable_into(0, 0, &mut out)?, true);
    assert_eq!(rt; out.len(), 4);
    Ok(())
}

#[test]
fn the_parts_come_back_with_what_was_stored(rt: HostRuntime) -> Result<(), Fail> {
    let mut memory = sample(rt.alloc())?;
    assert_eq!(rt; memory.store(0x4fff, 1, 1)?, false);
    assert_eq!(rt; memory.store(0x2fff, 1, 99)?, true);
    let (maps, objects) = memory.into_parts();
    assert_eq!(rt; maps.len(), 3);
    assert_eq!(rt; objects.len(), 2);
    match objects.get(1) {
        Some(seven) => assert_eq!(rt; seven.1.get(4095).copied(), Some(99)),
        None => assert_eq!(rt; 0, 1),
    }
    Ok(())
}
