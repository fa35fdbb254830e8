ghost use Rattle.std.specs.Prelude.{◌≡◌, ◌≤◌, IfOk, length};
ghost use Rattle.group_files.specs.declared.named_files.FileRec.{FileRec};
ghost use Rattle.group_files.specs.Files.{empty_file, ref_of};

use crate::named_files::{FileRec, FileRef};
use arrayvec::ArrayVec;
use lists::{NoMemory, Seq};
use std::alloc::Global;
use std::marker::Model;

/// A file as the table keeps it: its name takes no memory of its own.
#[derive(Debug, Drop)]
pub(crate) struct Named {
    name: ArrayVec<u8, 64>,
    object: u64,
    length: u64,
}

impl Model for Named {
    ghost use Rattle.group_files.specs.declared.named_files.FileRec.{FileRec};

    ghost Value = { FileRec };

    ghost view = { λ n. record { name = n.name.items; object = n.object; length = n.length } };
}

// A name of at most 64 bytes.
fn kept(name: &[u8]) -> ArrayVec<u8, 64>
    requires { length name.now ≤ 64 }
    ensures { result.items ≡ name.now }
{
    let mut kept = ArrayVec::new();
    let _ = kept.try_extend_from_slice(name);
    kept
}

impl Named {
    /// An empty file.
    pub(crate) fn new(name: &[u8], object: u64) -> Named
        requires { length name.now ≤ 64 }
        ensures { result ≡ empty_file name.now object }
    {
        Named {
            name: kept(name),
            object,
            length: 0,
        }
    }

    pub(crate) fn of(file: &FileRec) -> Named
        requires { length file.now.name ≤ 64 }
        ensures { result ≡ file.now }
    {
        Named {
            name: kept(file.name.as_slice()),
            object: file.object,
            length: file.length,
        }
    }

    pub(crate) fn name(&self) -> &[u8]
        ensures { result.now ≡ self.now.name }
    {
        self.name.as_slice()
    }

    pub(crate) fn object(&self) -> u64
        ensures { result ≡ self.now.object }
    {
        self.object
    }

    pub(crate) fn file_ref(&self) -> FileRef
        ensures { result ≡ ref_of self.now }
    {
        FileRef {
            object: self.object,
            length: self.length,
        }
    }

    pub(crate) fn set_length(&mut self, length: u64)
        ensures { self.new ≡ record self.old { length = length } }
    {
        self.length = length;
    }

    /// A copy for other tables and records.
    pub(crate) fn file(&self, alloc: Global) -> Result<FileRec, NoMemory>
        ensures { IfOk result (λ file. file ≡ self.now) }
    {
        let mut name = Seq::new(alloc);
        name.append(self.name.as_slice())?;
        Ok(FileRec {
            name,
            object: self.object,
            length: self.length,
        })
    }
}
