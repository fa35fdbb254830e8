ghost use Rattle.std.specs.Prelude.{◌≡◌, ◌≤◌, ◌+◌, [], length, OnOk, OnErr, IsOk, IsSome};
ghost use Rattle.std.specs.Option.{option_copied, option_copied_mut};
ghost use Rattle.std.specs.Borrow.{sem};
ghost use Rattle.tables.specs.Rising.{Rise, removed};
ghost use Rattle.shadow_chains.specs.Entries.{number_of, face_of, with_face};
ghost use Rattle.shadow_chains.specs.Lends.{LendsFace};

use crate::entry::Entry;
use crate::face::Face;
use lists::NoMemory;
use std::alloc::Global;
use std::marker::Model;
use tables::{find_in, insert_in, remove_in};

/// Faces by object number, in its order, with room for more.
#[derive(Debug, Drop)]
pub struct FaceTable {
    entries: Vec<Entry>,
}

impl Model for FaceTable {
    ghost use Rattle.std.specs.Prelude.{◌-◌};
    ghost use Rattle.std.specs.Vec.{vec_len, vec_capacity};
    ghost use Rattle.tables.specs.Rising.{Rise};
    ghost use Rattle.tables.specs.Rows.{Rows};
    ghost use Rattle.shadow_chains.specs.declared.entry.Entry.{Entry};
    ghost use Rattle.shadow_chains.specs.Entries.{number_of};

    ghost Value = { Rows Entry };

    ghost view = { λ t. record {
      entries = t.entries.items;
      spare = vec_capacity t.entries - vec_len t.entries;
    } };

    ghost invariant = { λ t. Rise number_of t.entries.items };
}

impl FaceTable {
    /// The empty table. It takes no memory until something is added.
    pub fn new(alloc: Global) -> FaceTable
        ensures { result.entries ≡ [] }
    {
        FaceTable {
            entries: Vec::new(alloc),
        }
    }

    pub fn len(&self) -> u64
        ensures count { result ≡ length self.now.entries }
        ensures rise { Rise number_of self.now.entries }
    {
        self.entries.len() as u64
    }

    /// Makes room for n more faces.
    pub fn reserve(&mut self, n: u64) -> Result<(), NoMemory>
        ensures entries { self.new.entries ≡ self.old.entries }
        ensures room { OnOk result (n ≤ self.new.spare) }
        ensures enough { n ≤ self.old.spare → IsOk result }
        ensures kept { self.old.spare ≤ self.new.spare }
        ensures err { OnErr result (self.new ≡ self.old) }
    {
        self.entries.reserve(n as usize)?;
        Ok(())
    }

    /// Puts a face under a number, in the place of the one that is there. No memory is taken where one is
    /// there, or where there is room.
    pub fn insert(&mut self, number: u64, face: Face) -> Result<(), NoMemory>
        ensures ok { OnOk result (self.new.entries ≡ with_face self.old.entries number face) }
        ensures err { OnErr result (self.new ≡ self.old) }
        ensures room { 1 ≤ self.old.spare → IsOk result }
        ensures replaces { IsSome (face_of self.old.entries number) → IsOk result }
        ensures spare { self.old.spare ≤ self.new.spare + 1 }
    {
        match find_in(&self.entries, number) {
            Some(place) => {
                self.entries[place] = Entry { number, face };
                Ok(())
            }
            None => insert_in(&mut self.entries, Entry { number, face }),
        }
    }

    /// Takes the face of a number out.
    pub fn remove(&mut self, number: u64) -> Option<Face>
        ensures value { result ≡ face_of self.old.entries number }
        ensures entries { self.new.entries ≡ removed number_of self.old.entries number }
        ensures spare { self.old.spare ≤ self.new.spare }
    {
        match remove_in(&mut self.entries, number) {
            Some(entry) => Some(entry.face),
            None => None,
        }
    }

    /// The face of a number.
    pub fn face(&self, number: u64) -> Option<&Face>
        ensures { option_copied result ≡ face_of self.now.entries number }
    {
        match find_in(&self.entries, number) {
            Some(place) => Some(&self.entries[place].face),
            None => None,
        }
    }

    /// The face of a number, to be changed in its place.
    pub fn face_mut(&mut self, number: u64) -> Option<&mut Face>
        ensures* lends { sem 𝓛 (LendsFace self.entry number result) }
        ensures value { option_copied_mut result ≡ face_of self.old.entries number }
    {
        match find_in(&self.entries, number) {
            Some(place) => {
                let entry = &mut self.entries[place];
                Some(&mut entry.face)
            }
            None => None,
        }
    }
}
