//! The group's output: its last position, the room before the next barrier, and the barrier.

ghost use Rattle.std.specs.Prelude.{◌≡◌, ◌≤◌};
ghost use Rattle.group_defs.specs.Output.{last_position, out_after_barrier, room};
ghost use Rattle.group_defs.specs.Valid.{OutValid};

use group_defs::Out;
use lists::Seq;
use std::alloc::Global;
use std::mem;

/// The most bytes of output behind the mark.
const MOST_OUTPUT: u64 = 1_048_576;

/// The position behind the output's last byte.
pub fn last_of(out: &Out) -> u64
    requires { OutValid out.now }
    ensures { result ≡ last_position out.now }
{
    out.from + out.bytes.len() as u64
}

/// How many bytes may be written to the outside before the next barrier.
pub fn room_of(out: &Out) -> u64
    requires { OutValid out.now }
    ensures value { result ≡ room out.now }
    ensures most { result ≤ 1048576 }
{
    MOST_OUTPUT - (last_of(out) - out.mark)
}

/// Makes the barrier: the bytes before the mark are dropped, and the mark becomes the last position. No memory is taken.
pub fn move_mark(alloc: Global, out: &mut Out)
    requires { OutValid out.old }
    ensures { out.new ≡ out_after_barrier out.old }
{
    let dropped = (out.mark - out.from) as usize;
    let last = last_of(out);
    let mut bytes = mem::replace(&mut out.bytes, Seq::new(alloc)).into_vec();
    let left = bytes.len() - dropped;
    bytes.rotate_left(dropped);
    bytes.truncate(left);
    *out = Out {
        from: out.mark,
        mark: last,
        bytes: Seq::of(bytes),
    };
}
