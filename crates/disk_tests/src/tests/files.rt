use dev_traits::mem::{MemFiles, NoGate};
use dev_traits::{Files, FilesFailed, Gate, Place, Word};
use std::test::Fail;

#[test]
fn files_are_found_by_name(rt: HostRuntime) -> Result<(), Fail> {
    let alloc = rt.alloc();
    let mut list = Vec::new(alloc);
    list.push((Word::new(alloc, "m")?, b"first".as_slice().to_vec(alloc)?))?;
    list.push((Word::new(alloc, "m")?, b"second".as_slice().to_vec(alloc)?))?;
    let mut files = MemFiles::of(alloc, list).failing(vec![in alloc; 2]?);
    let found = files.read(alloc, "m");
    assert!(rt; matches!(&found, Ok(Some(bytes)) if bytes.as_slice() == b"first".as_slice()));
    let failed = files.read(alloc, "m");
    assert!(rt; matches!(&failed, Err(FilesFailed::Failed)));
    let absent = files.read(alloc, "p");
    assert!(rt; matches!(&absent, Ok(None)));
    NoGate.at(Place::Acked { epoch: 1 });
    Ok(())
}
