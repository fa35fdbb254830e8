//! Files in memory.
ghost use Rattle.std.specs.Prelude.{◌≡◌, ◌↔◌, ◌<◌, [], length, slice_get, IfOk, IfSome, IsNone, OnErr, IsErrOf, IsTrue, Some, None, OnOk};
ghost use Rattle.std.specs.Option.{ForSome, option_map, MatchOption};
ghost use Rattle.std.specs.List.{HoldsAt};
ghost use Rattle.dev_traits.specs.Counts.{HasCause, one_more, one_more_if};
ghost use Rattle.dev_traits.specs.MemFiles.{files_view, contents_in, files_failing, reads_of, is_read_refused};

use crate::files::{Files, FilesFailed};
use crate::mem::raised;
use crate::word::Word;
use std::alloc::Global;

/// Files in memory. The read of number k, from 1, fails exactly where k is listed.
#[derive(Drop)]
pub struct MemFiles {
    list: Vec<(Word, Vec<u8>)>,
    failing: Vec<u64>,
    reads: u64,
    faults: u64,
}

impl MemFiles {
    /// The files of these names; of two with one name the first.
    pub fn of(alloc: Global, list: Vec<(Word, Vec<u8>)>) -> MemFiles
        ensures { (files_view result
            ≡ record { faults = 0; contents = Some (contents_in list.items) })
            × (files_failing result ≡ []) × (reads_of result ≡ 0) }
    {
        MemFiles {
            list,
            failing: Vec::new(alloc),
            reads: 0,
            faults: 0,
        }
    }

    /// The same files, whose reads of these numbers, from 1, fail.
    pub fn failing(self, calls: Vec<u64>) -> MemFiles
        ensures failing { files_failing result ≡ calls.items }
        ensures same { (files_view result ≡ files_view self) × (reads_of result ≡ reads_of self) }
    {
        let mut files = self;
        files.failing = calls;
        files
    }

    // Whether the next read fails.
    fn refuses(&self) -> bool
        ensures { result ≡ is_read_refused self.now }
    {
        self.failing.contains(&raised(self.reads))
    }
}

impl Files for MemFiles {
    ghost view = { files_view };

    fn read(&mut self, alloc: Global, name: &str) -> Result<Option<Vec<u8>>, FilesFailed>
        ensures whole { IfOk result
            (λ found. ForSome (files_view self.old).contents
            (λ held. option_map (λ v. v.items) found ≡ held name.now)) }
        ensures contents { (files_view self.new).contents ≡ (files_view self.old).contents }
        ensures faults { HasCause (files_view self.old).faults (files_view self.new).faults
            (IsErrOf result FilesFailed.Failed) }
        ensures counted { (files_view self.new).faults
            ≡ one_more_if (is_read_refused self.old) (files_view self.old).faults }
        ensures refused { IsErrOf result FilesFailed.Failed ↔ IsTrue (is_read_refused self.old) }
        ensures reads { reads_of self.new ≡ one_more (reads_of self.old) }
        ensures failing { files_failing self.new ≡ files_failing self.old }
    {
        let refused = self.refuses();
        self.reads = raised(self.reads);
        if refused {
            self.faults = raised(self.faults);
            return Err(FilesFailed::Failed);
        }
        copy_of(alloc, &self.list, name)
    }
}

fn copy_of(
    alloc: Global,
    list: &[(Word, Vec<u8>)],
    name: &str,
) -> Result<Option<Vec<u8>>, FilesFailed>
    ensures whole { IfOk result
        (λ found. option_map (λ v. v.items) found ≡ contents_in list.now name.now) }
    ensures memory { IsErrOf result FilesFailed.Failed → ⊥ }
{
    match place_of(list, name) {
        None => Ok(None),
        Some(i) => Ok(Some(list[i].1.to_vec(alloc)?)),
    }
}

// Where the first file of this name stands.
fn place_of(list: &[(Word, Vec<u8>)], name: &str) -> Option<usize>
    ensures none { IsNone result → contents_in list.now name.now ≡ None }
    ensures some { IfSome result
        (λ i. (i < length list.now)
        × HoldsAt (λ file. contents_in list.now name.now ≡ Some file.1.items) list.now i) }
{
    for i in 0..list.len() {
        if list[i].0.as_str() == name {
            return Some(i);
        }
    }
    None
}
