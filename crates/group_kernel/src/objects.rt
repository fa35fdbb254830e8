//! The faces of all objects, made ready for a barrier and frozen.
ghost use Rattle.std.specs.Prelude.{◌≡◌, ◌≤◌, ℕ, true, List, length, IfOk, IfSome, IsSome, IsSomeAnd, OnOk, is_some};
ghost use Rattle.group_kernel.specs.FirstFaces.{FreezesFirst, FreezesIn, IsOwner, PreparesFirst, PreparesIn, face_in_process, first_face};
ghost use Rattle.group_kernel.specs.Held.{FacesStandOver, kept_in, seen};
ghost use Rattle.group_kernel.specs.Standing.{AreReady, OwnersCounted};
ghost use Rattle.group_kernel.specs.Steps.{FreezesAll};
ghost use Rattle.proc_lease.specs.Private.{view_of};
ghost use Rattle.shadow_chains.specs.Entries.{entry_with, face_of};
ghost use Rattle.tables.specs.Rising.{Rise};

use crate::group_tables::GroupTables;
use crate::row::Row;
use lists::NoMemory;
use shadow_chains::{Face, FaceTable, Frozen, Layers};
use std::alloc::Global;

/// The deepest a face may be before it is flattened.
const DEEPEST: u64 = 8;

// Where the face of an object is.
enum Owner {
    Shared,
    File,
    Process { place: usize },
}

// Makes a face ready to be frozen, and flattens it before where it looks through many layers.
fn prepare_face(face: &mut Face) -> Result<(), NoMemory>
    ensures same { (number : ℕ) → view_of (entry_with number face.new)
        ≡ view_of (entry_with number face.old) }
    ensures ok { OnOk result (face.new.prepared ≡ true) }
    ensures depth { OnOk result (face.new.depth ≤ 9) }
{
    if face.depth() > DEEPEST {
        face.flatten()?;
    }
    face.prepare()
}

fn prepare_in(faces: &mut FaceTable, number: u64) -> Result<(), NoMemory>
    requires { IsSome (face_of faces.old.entries number) }
    ensures { PreparesIn faces.old.entries faces.new.entries number result }
{
    match faces.face_mut(number) {
        Some(face) => prepare_face(face),
        None => unreachable!(),
    }
}

fn freeze_in(faces: &mut FaceTable, number: u64) -> Frozen
    requires { IsSomeAnd (face_of faces.old.entries number) (λ f. f.prepared ≡ true) }
    ensures { FreezesIn faces.old.entries faces.new.entries number result }
{
    match faces.face_mut(number) {
        Some(face) => face.freeze(number),
        None => unreachable!(),
    }
}

fn has(faces: &FaceTable, number: u64) -> bool
    ensures { result ≡ is_some (face_of faces.now.entries number) }
{
    faces.face(number).is_some()
}

// Whether an object has its face in a process that is here.
fn has_privately(row: &Row, number: u64) -> bool
    ensures { result ≡ is_some (face_in_process row.now.process number) }
{
    match &row.process {
        Some(process) => has(&process.faces, number),
        None => false,
    }
}

impl GroupTables {
    // None for an object of a process on lease.
    fn owner_of(&self, number: u64) -> Option<Owner>
        ensures { IsOwner (seen self.now) number result }
    {
        if has(&self.shared, number) {
            return Some(Owner::Shared);
        }
        if has(&self.io.file_faces, number) {
            return Some(Owner::File);
        }
        for (place, row) in self.rows.iter().enumerate() {
            if has_privately(row, number) {
                return Some(Owner::Process { place });
            }
        }
        None
    }

    fn prepare_object(&mut self, number: u64) -> Result<(), NoMemory>
        ensures { PreparesFirst (seen self.old) (seen self.new) number result }
    {
        match self.owner_of(number) {
            Some(Owner::Shared) => prepare_in(&mut self.shared, number),
            Some(Owner::File) => prepare_in(&mut self.io.file_faces, number),
            Some(Owner::Process { place }) => match &mut self.rows[place].process {
                Some(process) => prepare_in(&mut process.faces, number),
                None => unreachable!(),
            },
            None => Ok(()),
        }
    }

    fn freeze_object(&mut self, number: u64) -> Option<Frozen>
        requires { IfSome (first_face (seen self.old) number) (λ f. f.prepared ≡ true) }
        ensures { FreezesFirst (seen self.old) (seen self.new) number result }
    {
        match self.owner_of(number) {
            Some(Owner::Shared) => Some(freeze_in(&mut self.shared, number)),
            Some(Owner::File) => Some(freeze_in(&mut self.io.file_faces, number)),
            Some(Owner::Process { place }) => match &mut self.rows[place].process {
                Some(process) => Some(freeze_in(&mut process.faces, number)),
                None => unreachable!(),
            },
            None => None,
        }
    }

    /// Makes each face that is here ready to be frozen. No page is copied but by a flattening.
    pub fn prepare_faces(&mut self) -> Result<(), NoMemory>
        ensures kept { kept_in (seen self.new) ≡ kept_in (seen self.old) }
        ensures faces { (memory : List (ℕ × List ℕ)) → (touched : List (ℕ × ℕ))
            → FacesStandOver memory touched (seen self.old)
            → FacesStandOver memory touched (seen self.new) }
        ensures owners { OwnersCounted (seen self.old) → OwnersCounted (seen self.new) }
        ensures ok { OnOk result (AreReady (seen self.new)) }
    {
        for place in 0..self.objects.len() {
            let number = self.objects[place].number;
            if self.prepare_object(number).is_err() {
                return Err(NoMemory);
            }
        }
        Ok(())
    }

    /// A place for each object's layers, with none in it yet.
    pub fn places(&self, alloc: Global) -> Result<Vec<Frozen>, NoMemory>
        ensures { IfOk result (λ frozen. length frozen.items ≡ length self.now.objects.items) }
    {
        let mut frozen = Vec::with_capacity(alloc, self.objects.len())?;
        for object in self.objects.iter() {
            frozen.push(Frozen {
                number: object.number,
                base: None,
                layers: Layers::new(alloc),
            })?;
        }
        Ok(frozen)
    }

    /// Freezes all objects, each into its place. No memory is taken.
    pub fn freeze_all(&mut self, frozen: &mut [Frozen])
        requires places { length frozen.old ≡ length self.old.objects.items }
        requires ready { AreReady (seen self.old) }
        requires once { Rise (λ o. o.number) self.old.objects.items }
        ensures frozen { FreezesAll (seen self.old) (seen self.new) frozen.new }
        ensures owners { OwnersCounted (seen self.old) → OwnersCounted (seen self.new) }
    {
        let _shared = self.shared.len();
        let _files = self.io.file_faces.len();
        for place in 0..frozen.len() {
            let number = self.objects[place].number;
            if let Some(object) = self.freeze_object(number) {
                frozen[place] = object;
            }
        }
    }
}
