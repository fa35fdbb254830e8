//! The numbers that a run may begin with, at their edges.
ghost use Rattle.std.specs.Prelude.{◌≡◌};
ghost use Rattle.group_defs.specs.Output.{last_position};

use ckpt_chain::Slot;
use ckpt_records::{Origin, Parts, Placement, has_size, is_unworn, is_within};
use dev_traits::mem::MemSink;
use group_defs::{Frame, Next, Out};
use lists::Seq;
use std::alloc::Global;
use std::test::Fail;

#[test]
fn a_disk_has_16_to_1048576_blocks(rt: HostRuntime) -> Result<(), Fail> {
    for (blocks, is) in [
        (15, false),
        (16, true),
        (1_048_576, true),
        (1_048_577, false),
    ] {
        assert_eq!(rt; has_size(blocks), is, "{blocks}");
    }
    Ok(())
}

/// An output without bytes behind this position.
fn output_at(alloc: Global, position: u64) -> Out
    ensures { result.mark ≡ last_position result }
{
    Out {
        from: position,
        mark: position,
        bytes: Seq::new(alloc),
    }
}

/// An origin without processes, with its epoch, the last position of its output, and what comes next of each kind.
fn origin_at(alloc: Global, numbers: [u64; 6]) -> Origin
    ensures { result.parts.frame.out.mark ≡ last_position result.parts.frame.out }
{
    let [epoch, position, object, descr, pipe, pair] = numbers;
    let frame = Frame {
        procs: Seq::new(alloc),
        objects: Seq::new(alloc),
        opens: Seq::new(alloc),
        pipes: Seq::new(alloc),
        pairs: Seq::new(alloc),
        files: Seq::new(alloc),
        next: Next {
            pid: 2,
            object,
            descr,
            pipe,
            pair,
        },
        out: output_at(alloc, position),
    };
    Origin {
        epoch,
        parts: Parts {
            frame,
            layers: Seq::new(alloc),
        },
        placement: Placement {
            pages: Seq::new(alloc),
            metas: Seq::new(alloc),
            slot: Slot::A,
        },
        gates: [0; 2],
    }
}

/// The greatest number that leaves room for a run, and the next one.
const LAST: u64 = 4_611_686_018_427_387_904;

const PAST: u64 = 4_611_686_018_427_387_905;

const NUMBERS: [([u64; 6], bool); 8] = [
    ([0; 6], true),
    ([LAST; 6], true),
    ([PAST, LAST, LAST, LAST, LAST, LAST], false),
    ([LAST, PAST, LAST, LAST, LAST, LAST], false),
    ([LAST, LAST, PAST, LAST, LAST, LAST], false),
    ([LAST, LAST, LAST, PAST, LAST, LAST], false),
    ([LAST, LAST, LAST, LAST, PAST, LAST], false),
    ([LAST, LAST, LAST, LAST, LAST, PAST], false),
];

#[test]
fn numbers_up_to_two_to_the_62_leave_room(rt: HostRuntime) -> Result<(), Fail> {
    for (numbers, is) in NUMBERS {
        assert_eq!(rt; is_unworn(&origin_at(rt.alloc(), numbers)), is);
    }
    Ok(())
}

/// Whether so many bytes are a position of an output that begins at 3 and ends at 5.
fn is_position(alloc: Global, count: usize) -> Result<bool, Fail> {
    let bytes = b"hi".to_vec(alloc)?;
    let mark = 3 + bytes.len() as u64;
    let out = Out {
        from: 3,
        mark,
        bytes: Seq::of(bytes),
    };
    let sink = MemSink::of(alloc, vec![in alloc; 0u8; count]?, 0)?;
    Ok(is_within(&sink, &out))
}

#[test]
fn a_count_is_within_its_output(rt: HostRuntime) -> Result<(), Fail> {
    for (count, is) in [(2, false), (3, true), (4, true), (5, true), (6, false)] {
        assert_eq!(rt; is_position(rt.alloc(), count)?, is, "{count}");
    }
    Ok(())
}
