use mem_objects::{Layer, PageBuf, is_zero};
use std::alloc::Global;
use std::test::Fail;

/// A page that begins with this byte, its other bytes 0.
fn page(alloc: Global, first: u8) -> Result<PageBuf, Fail> {
    let mut page = PageBuf::zeroed(alloc)?;
    page.write(0, &[first]);
    Ok(page)
}

#[test]
fn pages_are_found_by_number(rt: HostRuntime) -> Result<(), Fail> {
    let alloc = rt.alloc();
    let mut layer = Layer::new(alloc);
    for number in [7u64, 2, 9, 2] {
        let page = page(alloc, number as u8 + 1)?;
        assert!(rt; layer.put(alloc, number, &page).is_ok());
    }
    assert_eq!(rt; layer.len(), 3);
    let mut first = [0; 1];
    match layer.get(7) {
        Some(page) => page.read(0, &mut first),
        None => return Err(Fail::new("page 7 is not there")),
    }
    assert_eq!(rt; first, [8]);
    assert!(rt; layer.get(3).is_none());
    let slots = layer.into_slots();
    assert_eq!(rt; (slots[0].0, slots[1].0, slots[2].0), (2, 7, 9));
    assert_eq!(rt; Layer::of(slots).as_slice().len(), 3);
    Ok(())
}

#[test]
fn a_page_of_zeros_is_zero(rt: HostRuntime) -> Result<(), Fail> {
    let mut page = page(rt.alloc(), 1)?;
    assert!(rt; !is_zero(&page));
    page.clear();
    assert!(rt; is_zero(&page));
    page.write(4095, &[1]);
    assert!(rt; !is_zero(&page));
    Ok(())
}
