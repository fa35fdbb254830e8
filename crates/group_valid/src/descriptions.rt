ghost use Rattle.std.specs.Prelude.{◌≡◌, ◌↔◌, ◌⊎◌, ◌<◌, ◌≤◌, IsTrue, All, Any, length};
ghost use Rattle.tables.specs.Rising.{Rise};
ghost use Rattle.group_defs.specs.Descriptions as of_descriptions;
ghost use Rattle.group_defs.specs.Descriptions.{CanBeCarried, CarriedValid, IsOpen, DescriptorsValid, IsFileFlags, PositionValid};
ghost use Rattle.group_defs.specs.Valid.{NamesSound, OpensSound, TargetIsThere};

use descriptors::{Open, OpenKind};
use group_defs::{Frame, Proc};
use group_files::FileRec;
use pipes_socks::{Message, Pair, Pipe};
use tables::rises;

#[tactic(auto, unfolding(group_defs::specs::Descriptions::IsOpen))]
fn is_open(opens: &[Open], number: u64) -> bool
    ensures { IsTrue result ↔ IsOpen opens.now number }
{
    opens.iter().any(|o| o.number == number)
}

#[tactic(auto, unfolding(group_defs::specs::Descriptions::DescriptorsValid))]
fn descriptors_valid(opens: &[Open], p: &Proc) -> bool
    ensures { IsTrue result ↔ DescriptorsValid opens.now p.now }
{
    p.fds.as_slice().iter().all(|d| is_open(opens, d.1))
}

fn is_end(kind: OpenKind) -> bool
    ensures { result ≡ of_descriptions.is_end kind }
{
    match kind {
        OpenKind::PairEnd { .. } => true,
        _ => false,
    }
}

#[tactic(auto, unfolding(group_defs::specs::Descriptions::CanBeCarried))]
fn can_be_carried(opens: &[Open], number: u64) -> bool
    ensures { IsTrue result ↔ CanBeCarried opens.now number }
{
    opens.iter().any(|o| o.number == number && !is_end(o.kind))
}

fn carried_are_there(opens: &[Open], m: &Message) -> bool
    ensures { IsTrue result ↔ All (CanBeCarried opens.now) m.now.opens }
{
    m.opens.as_slice().iter().all(|n| can_be_carried(opens, *n))
}

fn queue_valid(opens: &[Open], messages: &[Message]) -> bool
    ensures { IsTrue result ↔ All (λ m. All (CanBeCarried opens.now) m.opens) messages.now }
{
    messages.iter().all(|m| carried_are_there(opens, m))
}

#[tactic(auto, unfolding(group_defs::specs::Descriptions::CarriedValid))]
fn carried_valid(opens: &[Open], p: &Pair) -> bool
    ensures { IsTrue result ↔ CarriedValid opens.now p.now }
{
    queue_valid(opens, p.to0.as_slice()) && queue_valid(opens, p.to1.as_slice())
}

/// Whether each descriptor and each carried number names a description, a carried one no end of a
/// pair.
pub fn names_sound(procs: &[Proc], pairs: &[Pair], opens: &[Open]) -> bool
    ensures { IsTrue result ↔ NamesSound procs.now pairs.now opens.now }
{
    procs.iter().all(|p| descriptors_valid(opens, p))
        && pairs.iter().all(|p| carried_valid(opens, p))
}

fn has_file(files: &[FileRec], object: u64) -> bool
    ensures { IsTrue result ↔ Any (λ f. f.object ≡ object) files.now }
{
    files.iter().any(|file| file.object == object)
}

fn has_pipe(pipes: &[Pipe], pipe: u64) -> bool
    ensures { IsTrue result ↔ Any (λ p. p.number ≡ pipe) pipes.now }
{
    pipes.iter().any(|p| p.number == pipe)
}

fn has_pair(pairs: &[Pair], pair: u64) -> bool
    ensures { IsTrue result ↔ Any (λ p. p.number ≡ pair) pairs.now }
{
    pairs.iter().any(|p| p.number == pair)
}

fn target_is_there(f: &Frame, kind: OpenKind) -> bool
    ensures { IsTrue result ↔ TargetIsThere f.now.files f.now.pipes f.now.pairs kind }
{
    match kind {
        OpenKind::Nothing | OpenKind::Outside => true,
        OpenKind::File { object } => has_file(f.files.as_slice(), object),
        OpenKind::PipeRead { pipe } | OpenKind::PipeWrite { pipe } => has_pipe(
            f.pipes.as_slice(),
            pipe,
        ),
        OpenKind::PairEnd { pair, end } => has_pair(f.pairs.as_slice(), pair) && end < 2,
    }
}

#[tactic(auto, unfolding(group_defs::specs::Descriptions::IsFileFlags))]
fn is_file_flags(flags: u32) -> bool
    ensures { IsTrue result ↔ IsFileFlags flags }
{
    flags <= 2 || flags >= 1_024 && flags <= 1_026
}

fn position_valid(kind: OpenKind, offset: u64, flags: u32) -> bool
    ensures { IsTrue result ↔ PositionValid kind offset flags }
{
    match kind {
        OpenKind::File { .. } => offset < 1 << 63 && is_file_flags(flags),
        _ => offset == 0 && flags == 0,
    }
}

fn opens_rise(next: u64, opens: &[Open]) -> bool
    ensures { IsTrue result ↔ ((length opens.now ≤ 1024) × Rise (λ o. o.number) opens.now
        × All (λ o. o.number < next) opens.now) }
{
    opens.len() <= 1_024 && rises(opens) && opens.iter().all(|o| o.number < next)
}

/// Whether the descriptions are few enough, rise, and have a valid position and a target that is
/// there.
pub fn opens_sound(f: &Frame) -> bool
    ensures { IsTrue result ↔ OpensSound f.now.next.descr f.now.opens f.now.files f.now.pipes
        f.now.pairs }
{
    let opens = f.opens.as_slice();
    opens_rise(f.next.descr, opens)
        && opens
            .iter()
            .all(|o| position_valid(o.kind, o.offset, o.flags))
        && opens.iter().all(|o| target_is_there(f, o.kind))
}
