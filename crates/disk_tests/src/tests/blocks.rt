use block_alloc::rebuild;
use std::test::Fail;

#[test]
fn the_least_free_blocks_are_taken(rt: HostRuntime) -> Result<(), Fail> {
    let mut blocks = rebuild(rt.alloc(), 16, &[0, 2, 3, 5, 16, 1_000_000])?;
    assert_eq!(rt; blocks.free_count(), 11);
    assert_eq!(rt; blocks.take(), Some(4));
    assert_eq!(rt; blocks.take(), Some(6));
    for block in 7..15 {
        assert_eq!(rt; blocks.take(), Some(block));
    }
    assert_eq!(rt; blocks.free_count(), 1);
    assert_eq!(rt; blocks.take(), Some(15));
    assert_eq!(rt; blocks.take(), None);
    assert_eq!(rt; blocks.free_count(), 0);
    Ok(())
}

#[test]
fn what_was_taken_is_given_back(rt: HostRuntime) -> Result<(), Fail> {
    let mut blocks = rebuild(rt.alloc(), 16, &[2, 3])?;
    assert_eq!(rt; blocks.take(), Some(4));
    blocks.free(4);
    assert_eq!(rt; blocks.take(), Some(4));
    blocks.free(2);
    blocks.mark(5);
    assert_eq!(rt; blocks.free_count(), 11);
    assert_eq!(rt; (blocks.take(), blocks.take()), (Some(2), Some(6)));
    Ok(())
}
