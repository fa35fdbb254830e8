ghost use Rattle.std.specs.Prelude.{◌≡◌, ◌↔◌, IsTrue};
ghost use Rattle.std.specs.Cmp.Lexicographic.{slice_cmp};
ghost use Rattle.std.specs.Ordering.{is_lt, nat_cmp};
ghost use Rattle.group_files.specs.Files.{NamesRise};
ghost use Rattle.group_defs.specs.Order.{OwnListsRise, ListsRise};

use crate::frame::{Frame, Proc};
use group_files::FileRec;
use tables::rises;

fn is_before(a: &[u8], b: &[u8]) -> bool
    ensures { result ≡ is_lt (slice_cmp nat_cmp a.now b.now) }
{
    a.cmp(b).is_lt()
}

/// Whether the files rise strictly by name.
pub fn names_rise(files: &[FileRec]) -> bool
    ensures { IsTrue result ↔ NamesRise files.now }
{
    files.is_sorted_by(|a, b| is_before(a.name.as_slice(), b.name.as_slice()))
}

/// Whether a process's mappings and descriptors rise strictly.
#[tactic(auto, unfolding(crate::specs::Order::OwnListsRise))]
pub fn own_lists_rise(p: &Proc) -> bool
    ensures { IsTrue result ↔ OwnListsRise p.now }
{
    rises(p.maps.as_slice()) && rises(p.fds.as_slice())
}

/// Whether all lists rise strictly.
pub fn lists_rise(f: &Frame) -> bool
    ensures { IsTrue result ↔ ListsRise f.now }
{
    rises(f.procs.as_slice())
        && f.procs.as_slice().iter().all(|p| own_lists_rise(p))
        && rises(f.objects.as_slice())
        && rises(f.opens.as_slice())
        && rises(f.pipes.as_slice())
        && rises(f.pairs.as_slice())
        && names_rise(f.files.as_slice())
}
