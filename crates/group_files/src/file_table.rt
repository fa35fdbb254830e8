ghost use Rattle.std.specs.Prelude.{◌≡◌, ◌≤◌, ◌<◌, ◌+◌, ◌↔◌, [], None, IfOk, IsErr, IsErrOf, IsOk, IsSome, OnErr, OnOk, length, vec_len};
ghost use Rattle.std.specs.List;
ghost use Rattle.std.specs.Vec.{vec_capacity};
ghost use Rattle.std.specs.Option.{option_map};
ghost use Rattle.group_files.specs.Names.{IsName};
ghost use Rattle.group_files.specs.Files.{AreFiles, file_named, file_with, ref_of, with_file, empty_file, with_length};
ghost use Rattle.group_files.specs.declared.refusals.CreateRefused.TheVariants.{Exists, TableFull};

use crate::named::Named;
use crate::named_files::{FileRec, FileRef};
use crate::refusals::{CreateRefused, TooBig};
use crate::search::{find_named, place_of, place_with};
use lists::{NoMemory, Seq};
use std::alloc::Global;
use std::marker::Model;

/// The files of a group: at most 64, in the order of their names.
#[derive(Debug, Drop)]
pub struct FileTable {
    files: Vec<Named>,
}

impl Model for FileTable {
    ghost use Rattle.std.specs.Prelude.{◌-◌};
    ghost use Rattle.std.specs.Vec.{vec_len, vec_capacity};
    ghost use Rattle.tables.specs.Rows.{Rows};
    ghost use Rattle.group_files.specs.declared.named_files.FileRec.{FileRec};
    ghost use Rattle.group_files.specs.Files.{AreFiles};

    ghost Value = { Rows FileRec };

    ghost view = { λ t. record {
      entries = t.files.items;
      spare = vec_capacity t.files - vec_len t.files;
    } };

    ghost invariant = { λ t. AreFiles t.files.items };
}

// Adds a file at a place. It takes no memory where there is room.
fn insert(files: &mut Vec<Named>, place: usize, file: Named) -> Result<(), NoMemory>
    requires { place ≤ length files.old.items }
    ensures ok { OnOk result (files.new.items ≡ List.insert files.old.items place file) }
    ensures len { OnOk result (vec_len files.new ≡ vec_len files.old + 1) }
    ensures err { OnErr result ((files.new.items ≡ files.old.items)
        × (vec_len files.new ≡ vec_len files.old)
        × (vec_capacity files.new ≡ vec_capacity files.old)) }
    ensures room { vec_len files.old < vec_capacity files.old → IsOk result }
    ensures capacity { vec_capacity files.old ≤ vec_capacity files.new }
{
    files.reserve(1)?;
    match files.insert(place, file) {
        Ok(()) => Ok(()),
        Err(_) => Err(NoMemory),
    }
}

impl FileTable {
    /// The empty table. It takes no memory until something is added.
    pub fn new(alloc: Global) -> FileTable
        ensures { result.entries ≡ [] }
    {
        FileTable {
            files: Vec::new(alloc),
        }
    }

    /// The table of these files, which rise by name.
    pub fn of(alloc: Global, list: &[FileRec]) -> Result<FileTable, NoMemory>
        requires { AreFiles list.now }
        ensures { IfOk result (λ table. table.entries ≡ list.now) }
    {
        let mut files = Vec::new(alloc);
        for file in list {
            files.push(Named::of(file))?;
        }
        Ok(FileTable { files })
    }

    /// How many files there are.
    pub fn len(&self) -> u64
        ensures count { result ≡ length self.now.entries }
        ensures valid { AreFiles self.now.entries }
    {
        self.files.len() as u64
    }

    /// A copy of the files, in their order.
    pub fn list(&self, alloc: Global) -> Result<Seq<FileRec>, NoMemory>
        ensures entries { IfOk result (λ list. list ≡ self.now.entries) }
        ensures valid { AreFiles self.now.entries }
    {
        let mut list = Seq::new(alloc);
        for file in &self.files {
            list.push(file.file(alloc)?)?;
        }
        Ok(list)
    }

    /// Makes room for n more files.
    pub fn reserve(&mut self, n: u64) -> Result<(), NoMemory>
        ensures entries { self.new.entries ≡ self.old.entries }
        ensures room { OnOk result (n ≤ self.new.spare) }
        ensures enough { n ≤ self.old.spare → IsOk result }
        ensures kept { self.old.spare ≤ self.new.spare }
        ensures err { OnErr result (self.new ≡ self.old) }
    {
        self.files.reserve(n as usize)?;
        Ok(())
    }

    /// What a name stands for.
    pub fn lookup(&self, name: &[u8]) -> Option<FileRef>
        ensures { result ≡ option_map ref_of (file_named self.now.entries name.now) }
    {
        find_named(&self.files, name).map(|file| file.file_ref())
    }

    /// The length in bytes of the file with an object.
    pub fn length_of(&self, object: u64) -> Option<u64>
        ensures { result ≡ option_map (λ f. f.length) (file_with self.now.entries object) }
    {
        match place_with(&self.files, object) {
            Some(place) => Some(self.files[place].file_ref().length),
            None => None,
        }
    }

    /// Creates an empty file with an object that is no file's. It takes no memory where there is
    /// room.
    pub fn create(&mut self, name: &[u8], object: u64) -> Result<(), CreateRefused>
        requires name { IsName name.now }
        requires object { file_with self.old.entries object ≡ None }
        ensures ok { OnOk result (self.new.entries
            ≡ with_file self.old.entries (empty_file name.now object)) }
        ensures exists { IsErrOf result Exists ↔ IsSome (file_named self.old.entries name.now) }
        ensures full { IsErrOf result TableFull
            ↔ ((file_named self.old.entries name.now ≡ None)
            × (length self.old.entries ≡ 64)) }
        ensures err { OnErr result (self.new ≡ self.old) }

        // With room only the first two refusals can come.
        ensures room { file_named self.old.entries name.now ≡ None
            → length self.old.entries < 64 → 1 ≤ self.old.spare → IsOk result }
        ensures spare { self.old.spare ≤ self.new.spare + 1 }
    {
        if find_named(&self.files, name).is_some() {
            return Err(CreateRefused::Exists);
        }
        if self.files.len() >= 64 {
            return Err(CreateRefused::TableFull);
        }
        let place = place_of(&self.files, name);
        insert(&mut self.files, place, Named::new(name, object))?;
        Ok(())
    }

    /// Sets the length in bytes of the file with an object.
    pub fn set_length(&mut self, object: u64, length: u64) -> Result<(), TooBig>
        requires { IsSome (file_with self.old.entries object) }
        ensures ok { OnOk result (self.new.entries ≡ with_length self.old.entries object length) }
        ensures too_big { IsErr result ↔ (1048576 < length) }
        ensures err { OnErr result (self.new ≡ self.old) }
        ensures spare { self.new.spare ≡ self.old.spare }
    {
        if length > 1_048_576 {
            return Err(TooBig);
        }
        if let Some(place) = place_with(&self.files, object) {
            self.files[place].set_length(length);
        }
        Ok(())
    }
}
