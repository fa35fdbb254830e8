ghost use Rattle.std.specs.Prelude.{◌≡◌};
ghost use Rattle.dev_traits.specs.MemSink.{sink_view};

use dev_traits::mem::MemSink;
use dev_traits::{Failed, Sink, put_all};
use std::test::Fail;

/// A sink that takes at most two bytes at a time.
#[derive(Drop)]
struct Narrow {
    sink: MemSink,
}

impl Sink for Narrow {
    ghost view = { λ s. sink_view s.sink };

    ghost counted = { λ s bytes is. Prim.cc };

    fn taken(&self) -> u64 {
        self.sink.taken()
    }

    fn put(&mut self, bytes: &[u8]) -> Result<usize, Failed> {
        if bytes.len() > 2 {
            self.sink.put(&bytes[..2])
        } else {
            self.sink.put(bytes)
        }
    }
}

#[test]
fn all_bytes_are_put_in_as_many_pieces_as_the_sink_takes(rt: HostRuntime) -> Result<(), Fail> {
    let alloc = rt.alloc();
    let sink = MemSink::of(alloc, b"ab".as_slice().to_vec(alloc)?, 7)?.failing(vec![in alloc; 4]?);
    let mut sink = Narrow { sink };
    assert_eq!(rt; put_all(&mut sink, b""), Ok(()));
    assert_eq!(rt; put_all(&mut sink, b"cdefg"), Ok(()));
    assert!(rt; sink.sink.bytes() == b"abcdefg".as_slice());
    // The fourth put fails, and then the room ends.
    assert_eq!(rt; put_all(&mut sink, b"h"), Err(Failed));
    assert_eq!(rt; put_all(&mut sink, b"hij"), Err(Failed));
    assert!(rt; sink.sink.bytes() == b"abcdefghi".as_slice());
    Ok(())
}

#[test]
fn a_sink_takes_the_lesser_of_the_piece_and_its_room(rt: HostRuntime) -> Result<(), Fail> {
    let alloc = rt.alloc();
    let mut sink = MemSink::of(alloc, b"ab".as_slice().to_vec(alloc)?, 4)?.failing(vec![in alloc;
        2,
    ]?);
    assert_eq!(rt; sink.put(b"cde"), Ok(3));
    assert_eq!(rt; sink.put(b"f"), Err(Failed));
    assert_eq!(rt; sink.put(b"fg"), Ok(1));
    assert_eq!(rt; sink.put(b"g"), Err(Failed));
    assert_eq!(rt; sink.taken(), 6);
    assert!(rt; sink.bytes() == b"abcdef".as_slice());
    Ok(())
}
