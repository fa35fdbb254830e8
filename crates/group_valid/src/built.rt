ghost use Rattle.std.specs.Prelude.{◌≡◌, ◌↔◌, ◌≤◌, IsTrue, All, length};
ghost use Rattle.group_defs.specs.Built.{IsPlain, IsAlone, OnlyBuilt};

use descriptors::OpenKind;
use group_defs::{Frame, Proc};

fn is_plain(kind: OpenKind) -> bool
    ensures { IsTrue result ↔ IsPlain kind }
{
    match kind {
        OpenKind::Nothing | OpenKind::Outside => true,
        _ => false,
    }
}

#[tactic(auto, unfolding(group_defs::specs::Built::IsAlone))]
fn is_alone(p: &Proc) -> bool
    ensures { IsTrue result ↔ IsAlone p.now }
{
    p.parent == 0 && p.maps.as_slice().iter().all(|m| !m.shared)
}

fn has_one_process(f: &Frame) -> bool
    ensures { IsTrue result ↔ ((length f.now.procs ≤ 1) × All IsAlone f.now.procs) }
{
    f.procs.len() <= 1 && f.procs.as_slice().iter().all(|p| is_alone(p))
}

/// Whether a frame has only what is built so far.
pub fn only_built(f: &Frame) -> bool
    ensures { IsTrue result ↔ OnlyBuilt f.now }
{
    has_one_process(f)
        && f.files.as_slice().is_empty()
        && f.pipes.as_slice().is_empty()
        && f.pairs.as_slice().is_empty()
        && f.opens.as_slice().iter().all(|o| is_plain(o.kind))
}
