ghost use Rattle.std.specs.Prelude.{◌↔◌, IsTrue};
ghost use Rattle.group_defs.specs.Built.{OnlyBuilt};
ghost use Rattle.group_defs.specs.Valid.{FrameIsSound, FrameValid, MapsSound, NamesSound, ObjectsSound, OpensSound, OutSound, PairsSound, PipesSound, FilesSound, ProcsSound};

use crate::built::only_built;
use crate::descriptions::{names_sound, opens_sound};
use crate::held::all_held;
use crate::numbers::{are_bytes, next_fits};
use crate::objects::{files_sound, maps_sound, objects_sound};
use crate::processes::procs_sound;
use crate::stream_ends::{pairs_sound, pipes_sound};
use group_defs::{Frame, Out};

#[tactic(auto, unfolding(group_defs::specs::Valid::OutValid))]
fn out_sound(out: &Out) -> bool
    ensures { IsTrue result ↔ OutSound out.now }
{
    let from = u128::from(out.from);
    let mark = u128::from(out.mark);
    let last = from + out.bytes.len() as u128;
    from <= mark
        && mark <= last
        && last <= u128::from(u64::MAX)
        && mark <= from + 1_048_576
        && last <= mark + 1_048_576
        && are_bytes(out.bytes.as_slice())
}

fn memory_sound(f: &Frame) -> bool
    ensures { IsTrue result ↔ (ProcsSound f.now.next.pid f.now.procs
        × MapsSound f.now.procs f.now.objects f.now.files
        × ObjectsSound f.now.next.object f.now.objects f.now.files
        × FilesSound f.now.objects f.now.files) }
{
    let procs = f.procs.as_slice();
    let objects = f.objects.as_slice();
    let files = f.files.as_slice();
    procs_sound(f.next.pid, procs)
        && maps_sound(procs, objects, files)
        && objects_sound(f.next.object, objects, files)
        && files_sound(objects, files)
}

fn streams_sound(f: &Frame) -> bool
    ensures { IsTrue result ↔ (NamesSound f.now.procs f.now.pairs f.now.opens
        × OpensSound f.now.next.descr f.now.opens f.now.files f.now.pipes f.now.pairs
        × PipesSound f.now.next.pipe f.now.opens f.now.pipes
        × PairsSound f.now.next.pair f.now.opens f.now.pairs) }
{
    let opens = f.opens.as_slice();
    names_sound(f.procs.as_slice(), f.pairs.as_slice(), opens)
        && opens_sound(f)
        && pipes_sound(f.next.pipe, opens, f.pipes.as_slice())
        && pairs_sound(f.next.pair, opens, f.pairs.as_slice())
}

fn frame_is_sound(f: &Frame) -> bool
    ensures { IsTrue result ↔ FrameIsSound f.now }
{
    memory_sound(f)
        && streams_sound(f)
        && out_sound(&f.out)
        && next_fits(&f.next)
        && f.next.pid >= 1
        && f.next.pid <= 32_768
}

/// Whether a frame is one of a valid group, as far as a frame tells: what a group's bytes must be is not looked at.
pub fn rules_hold(f: &Frame) -> bool
    ensures { IsTrue result ↔ FrameValid f.now }
{
    frame_is_sound(f) && all_held(f)
}

/// Whether a frame is one of a valid group that has only what is built so far.
pub fn frame_valid(f: &Frame) -> bool
    ensures { IsTrue result ↔ (FrameValid f.now × OnlyBuilt f.now) }
{
    rules_hold(f) && only_built(f)
}
