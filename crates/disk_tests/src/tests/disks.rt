use dev_traits::mem::{Fill, MemDisk};
use dev_traits::{Disk, Failed};
use std::test::Fail;

#[test]
fn a_torn_write_leaves_any_bytes_in_its_range_until_a_sync(rt: HostRuntime) -> Result<(), Fail> {
    let alloc = rt.alloc();
    let mut disk = MemDisk::of(alloc, vec![in alloc; 7u8; 8192]?, 100)?.failing(vec![in alloc; 3]?);
    if disk.blocks() != 2 {
        return Ok(());
    }
    assert_eq!(rt; disk.write_at(10, &[1, 2]), Ok(()));
    assert_eq!(rt; disk.sync(), Ok(()));
    // Call 3 fails, and may have left anything in its range.
    assert_eq!(rt; disk.write_at(11, &[3, 4]), Err(Failed));
    let rows = [
        (1, Fill::Old, [7, 7, 7]),
        (1, Fill::New, [1, 2, 7]),
        (1, Fill::Byte(9), [9, 9, 7]),
        (2, Fill::Byte(9), [9, 9, 7]),
        (3, Fill::Old, [1, 2, 7]),
        (3, Fill::New, [1, 3, 4]),
        (3, Fill::Byte(9), [1, 9, 9]),
    ];
    for (call, fill, want) in rows {
        if call <= disk.moment() && 1 <= call {
            let image = disk.image(alloc, call, fill)?;
            assert!(rt; image.get(10..13) == Some(want.as_slice()));
        }
    }
    assert!(rt; disk.bytes().get(10..13) == Some([1, 2, 7].as_slice()));
    Ok(())
}

#[test]
fn what_was_written_is_read(rt: HostRuntime) -> Result<(), Fail> {
    let alloc = rt.alloc();
    let mut disk = MemDisk::of(alloc, vec![in alloc; 7u8; 8192]?, 100)?.failing(vec![in alloc; 2]?);
    if disk.blocks() != 2 {
        return Ok(());
    }
    assert_eq!(rt; disk.write_at(10, &[1, 2]), Ok(()));
    // Call 2 fails, and changes nothing that is read.
    assert_eq!(rt; disk.write_at(11, &[3, 4]), Err(Failed));
    let mut into = [0; 3];
    assert_eq!(rt; disk.read_at(10, &mut into), Ok(()));
    assert_eq!(rt; into, [1, 2, 7]);
    Ok(())
}

#[test]
fn a_disk_without_room_fails(rt: HostRuntime) -> Result<(), Fail> {
    let alloc = rt.alloc();
    let mut disk = MemDisk::of(alloc, vec![in alloc; 0u8; 4100]?, 1)?;
    if disk.blocks() != 1 {
        return Ok(());
    }
    assert_eq!(rt; disk.write_at(4095, &[5]), Ok(()));
    assert_eq!(rt; disk.sync(), Err(Failed));
    assert_eq!(rt; disk.write_at(0, &[5]), Err(Failed));
    assert_eq!(rt; disk.read_at(0, &mut [0]), Err(Failed));
    assert_eq!(rt; disk.moment(), 1);
    Ok(())
}
