use command_words::{End, say_line};
use dev_traits::mem::MemSink;
use std::test::Fail;

/// Ends, each with its line and its status.
const ENDS: [(End, &str, u8); 16] = [
    (
        End::Done {
            epoch: 57,
            turns: 5607,
            output: 800,
        },
        "done epoch 57 turns 5607 output 800\n",
        0,
    ),
    (
        End::Stuck {
            epoch: 1,
            turns: 0,
            output: 10,
        },
        "stuck epoch 1 turns 0 output 10\n",
        1,
    ),
    (
        End::Spent {
            epoch: u64::MAX,
            turns: 1_000_000,
            output: 99,
        },
        "spent epoch 18446744073709551615 turns 1000000 output 99\n",
        2,
    ),
    (End::Usage, "usage\n", 3),
    (End::NoCheckpoint, "no checkpoint\n", 6),
    (End::Occupied { epoch: 1 }, "occupied epoch 1\n", 7),
    (End::Damaged { epoch: 12 }, "damaged epoch 12\n", 8),
    (End::DiskFault, "disk fault\n", 9),
    (End::SinkFault, "sink fault\n", 10),
    (End::FilesFault, "files fault\n", 11),
    (
        End::DiskFull { need: 15, free: 14 },
        "disk full need 15 free 14\n",
        12,
    ),
    (End::NoMemory, "no memory\n", 13),
    (
        End::DiskShape { blocks: 1_048_577 },
        "disk shape 1048577\n",
        14,
    ),
    (
        End::SinkStrange {
            count: 4,
            from: 0,
            last: 3,
        },
        "sink strange 4 from 0 to 3\n",
        15,
    ),
    (
        End::Worn {
            epoch: 4_611_686_018_427_387_905,
        },
        "worn epoch 4611686018427387905\n",
        17,
    ),
    (End::NotBuilt, "not built\n", 18),
];

#[test]
fn each_end_has_its_line_and_its_status(rt: HostRuntime) -> Result<(), Fail> {
    let alloc = rt.alloc();
    for (end, line, status) in ENDS {
        let mut say = MemSink::of(alloc, Vec::new(alloc), 200)?;
        assert_eq!(rt; say_line(&end, &mut say), status);
        assert_eq!(rt; say.bytes(), line.as_bytes());
    }
    Ok(())
}

#[test]
fn a_line_is_put_as_far_as_the_sink_has_room(rt: HostRuntime) -> Result<(), Fail> {
    let alloc = rt.alloc();
    let full = End::DiskFull { need: 15, free: 14 };
    let mut little = MemSink::of(alloc, Vec::new(alloc), 16)?;
    assert_eq!(rt; say_line(&full, &mut little), 16);
    assert_eq!(rt; little.bytes(), b"disk full need 1".as_slice());
    let mut enough = MemSink::of(alloc, b"usage\n".to_vec(alloc)?, 17)?;
    assert_eq!(rt; say_line(&End::Occupied { epoch: 2 }, &mut enough), 7);
    assert_eq!(rt; enough.bytes(), b"usage\noccupied epoch 2\n".as_slice());
    Ok(())
}

#[test]
fn the_first_put_fails(rt: HostRuntime) -> Result<(), Fail> {
    let alloc = rt.alloc();
    let done = End::Done {
        epoch: 1,
        turns: 1,
        output: 0,
    };
    let mut say = MemSink::of(alloc, Vec::new(alloc), 100)?.failing(vec![in alloc; 1]?);
    assert_eq!(rt; say_line(&done, &mut say), 16);
    assert_eq!(rt; say.bytes(), b"".as_slice());
    Ok(())
}
