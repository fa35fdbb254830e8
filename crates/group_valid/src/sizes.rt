ghost use Rattle.std.specs.Prelude.{◌≡◌, ◌↔◌, ◌≤◌, IsTrue, length, sum_by};
ghost use Rattle.group_defs.specs.Objects as of_objects;
ghost use Rattle.group_defs.specs.Sizes.{ProcFits};
ghost use Rattle.group_files.specs.Names.{IsName};
ghost use Rattle.group_files.specs.Files.{FileFits};
ghost use Rattle.pipes_socks.specs.Pairs.{MessageFits, QueueFits, PairFits};

use crate::objects::is_of_file;
use group_defs::{ObjectRec, Proc};
use group_files::FileRec;
use pipes_socks::{Message, Pair};

/// Whether a process's pid and descriptors are in range, and it has few enough mappings.
#[tactic(auto, unfolding(group_defs::specs::Sizes::ProcFits))]
pub fn proc_fits(p: &Proc) -> bool
    ensures { IsTrue result ↔ ProcFits p.now }
{
    p.pid >= 1 && p.maps.len() <= 1_024 && p.fds.as_slice().iter().all(|d| d.0 < 64)
}

#[tactic(auto, unfolding(group_files::specs::Names::IsName))]
fn is_name(name: &[u8]) -> bool
    ensures { IsTrue result ↔ IsName name.now }
{
    name.len() >= 1 && name.len() <= 64 && name.iter().all(|b| *b >= 33 && *b <= 126)
}

/// Whether a file's name is in form and its length within the limit.
#[tactic(auto, unfolding(group_files::specs::Files::FileFits))]
pub fn file_fits(file: &FileRec) -> bool
    ensures { IsTrue result ↔ FileFits file.now }
{
    is_name(file.name.as_slice()) && file.length <= 1_048_576
}

#[tactic(auto, unfolding(pipes_socks::specs::Pairs::MessageFits))]
fn message_fits(m: &Message) -> bool
    ensures { IsTrue result ↔ MessageFits m.now }
{
    m.bytes.len() >= 1 && m.bytes.len() <= 4_096 && m.opens.len() <= 8
}

#[tactic(auto, unfolding(pipes_socks::specs::Pairs::QueueFits))]
fn queue_fits(messages: &[Message]) -> bool
    ensures { IsTrue result ↔ QueueFits messages.now }
{
    messages.len() <= 16 && messages.iter().all(|m| message_fits(m))
}

/// Whether few enough messages of a good length wait at each end.
#[tactic(auto, unfolding(pipes_socks::specs::Pairs::PairFits))]
pub fn pair_fits(p: &Pair) -> bool
    ensures { IsTrue result ↔ PairFits p.now }
{
    queue_fits(p.to0.as_slice()) && queue_fits(p.to1.as_slice())
}

fn memory_count(objects: &[ObjectRec], files: &[FileRec]) -> usize
    ensures { result ≡ length (of_objects.memory_objects_in files.now objects.now) }
{
    let mut count = 0;
    for o in objects {
        if !is_of_file(files, o.number) {
            count += 1;
        }
    }
    count
}

fn memory_pages(objects: &[ObjectRec], files: &[FileRec]) -> u128
    ensures { result ≡ sum_by (λ o. o.pages) (of_objects.memory_objects_in files.now objects.now) }
{
    let mut pages: u128 = 0;
    for o in objects {
        if !is_of_file(files, o.number) {
            pages += u128::from(o.pages);
        }
    }
    pages
}

/// Whether the memory objects, which files' objects aren't, and their pages are few enough.
pub fn memory_fits(objects: &[ObjectRec], files: &[FileRec]) -> bool
    ensures { IsTrue result ↔ ((length (of_objects.memory_objects_in files.now objects.now) ≤ 4096)
        × (sum_by (λ o. o.pages) (of_objects.memory_objects_in files.now objects.now) ≤ 65536)) }
{
    memory_count(objects, files) <= 4_096 && memory_pages(objects, files) <= 65_536
}
