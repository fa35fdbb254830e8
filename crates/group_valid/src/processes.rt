ghost use Rattle.std.specs.Prelude.{◌≡◌, ◌↔◌, ◌<◌, ◌≤◌, IsTrue, All, length};
ghost use Rattle.tables.specs.Rising.{Rise};
ghost use Rattle.address_maps.specs.Mappings.{AreApart};
ghost use Rattle.group_defs.specs.Group as group;
ghost use Rattle.group_defs.specs.Mappings.{IsUserMapping};
ghost use Rattle.group_defs.specs.Numbers.{RegsFit};
ghost use Rattle.group_defs.specs.Order.{OwnListsRise};
ghost use Rattle.group_defs.specs.Sizes.{ProcFits};
ghost use Rattle.group_defs.specs.Valid.{ProcsSound};
ghost use Rattle.group_defs.specs.Processes.{HasParent, BreakValid, RunningValid, IsWaitStatus, IsCleared, EndedValid, ProcValid};

use crate::mappings::{are_apart, is_placed};
use crate::numbers::regs_fit;
use crate::sizes::proc_fits;
use group_defs::{Proc, ProcState, own_lists_rise};
use tables::rises;

fn is_running(p: &Proc) -> bool
    ensures { result ≡ group.is_running p.now }
{
    match p.state {
        ProcState::Running => true,
        ProcState::Ended { .. } => false,
    }
}

#[tactic(auto, unfolding(group_defs::specs::Processes::HasParent))]
fn has_parent(procs: &[Proc], p: &Proc) -> bool
    ensures { IsTrue result ↔ HasParent procs.now p.now }
{
    procs
        .iter()
        .any(|q| is_running(q) && q.pid == p.parent && q.pid < p.pid)
}

#[tactic(auto, unfolding(group_defs::specs::Processes::BreakValid))]
fn break_valid(p: &Proc) -> bool
    ensures { IsTrue result ↔ BreakValid p.now }
{
    p.brk_base % 4_096 == 0 && p.brk_base <= p.brk && p.brk <= 1 << 37
}

#[tactic(auto, unfolding(group_defs::specs::Processes::RunningValid))]
fn running_valid(procs: &[Proc], p: &Proc) -> bool
    ensures { IsTrue result ↔ RunningValid procs.now p.now }
{
    p.pc % 4 == 0 && break_valid(p) && (p.parent == 0 || has_parent(procs, p))
}

#[tactic(auto, unfolding(group_defs::specs::Processes::IsWaitStatus))]
fn is_wait_status(status: u32) -> bool
    ensures { IsTrue result ↔ IsWaitStatus status }
{
    status % 256 == 0 && status / 256 <= 255 || matches!(status, 4 | 5 | 7 | 11)
}

#[tactic(auto, unfolding(group_defs::specs::Processes::IsCleared))]
fn is_cleared(p: &Proc) -> bool
    ensures { IsTrue result ↔ IsCleared p.now }
{
    p.pc == 0
        && p.regs.iter().all(|x| *x == 0)
        && p.brk_base == 0
        && p.brk == 0
        && p.maps.as_slice().is_empty()
        && p.fds.as_slice().is_empty()
}

#[tactic(auto, unfolding(group_defs::specs::Processes::EndedValid))]
fn ended_valid(procs: &[Proc], p: &Proc, status: u32) -> bool
    ensures { IsTrue result ↔ EndedValid procs.now p.now status }
{
    has_parent(procs, p) && is_wait_status(status) && is_cleared(p)
}

#[tactic(auto, unfolding(group_defs::specs::Processes::ProcValid))]
fn proc_valid(procs: &[Proc], p: &Proc) -> bool
    ensures { IsTrue result ↔ ProcValid procs.now p.now }
{
    match p.state {
        ProcState::Running => running_valid(procs, p),
        ProcState::Ended { status } => ended_valid(procs, p, status),
    }
}

fn procs_rise(next: u32, procs: &[Proc]) -> bool
    ensures { IsTrue result ↔ ((length procs.now ≤ 64) × Rise (λ p. p.pid) procs.now
        × All (λ p. p.pid < next) procs.now) }
{
    procs.len() <= 64 && rises(procs) && procs.iter().all(|p| p.pid < next)
}

fn own_lists_fit(procs: &[Proc]) -> bool
    ensures { IsTrue result ↔ (All ProcFits procs.now × All OwnListsRise procs.now
        × All RegsFit procs.now) }
{
    procs.iter().all(|p| proc_fits(p))
        && procs.iter().all(|p| own_lists_rise(p))
        && procs.iter().all(|p| regs_fit(p))
}

fn maps_are_placed(p: &Proc) -> bool
    ensures { IsTrue result ↔ All IsUserMapping p.now.maps }
{
    p.maps.as_slice().iter().all(|m| is_placed(m))
}

/// Whether the processes are few enough and rise, and each is valid by itself and among them.
pub fn procs_sound(next: u32, procs: &[Proc]) -> bool
    ensures { IsTrue result ↔ ProcsSound next procs.now }
{
    procs_rise(next, procs)
        && own_lists_fit(procs)
        && procs.iter().all(|p| maps_are_placed(p))
        && procs.iter().all(|p| are_apart(p.maps.as_slice()))
        && procs.iter().all(|p| proc_valid(procs, p))
}
