//! The tables of the group that parts stand for.
ghost use Rattle.std.specs.Prelude.{◌≡◌, ◌<◌, ◌≤◌, ◌*◌, ◌==◌, ℕ, List, [], ◌∷◌, All, map, IfOk, OnOk, None, Some, length};
ghost use Rattle.std.specs.List.{AllZip};
ghost use Rattle.ckpt_records.specs.Parts.{group_of, memory_of, object_bytes};
ghost use Rattle.descriptors.specs.Descriptors.{AreDescriptors};
ghost use Rattle.descriptors.specs.Opens.{descriptions};
ghost use Rattle.descriptors.specs.Owners.{OwnersAre};
ghost use Rattle.address_maps.specs.Mappings.{AreMappings};
ghost use Rattle.group_parts.specs.Parts.{shared_mappings};
ghost use Rattle.group_defs.specs.Descriptions.{IsOpen};
ghost use Rattle.group_defs.specs.Valid.{GroupIsValid};
ghost use Rattle.group_parts.specs.Kept.{all_parts};
ghost use Rattle.group_kernel.specs.Calls.{MayBegin};
ghost use Rattle.group_kernel.specs.Faces.{base_memory};
ghost use Rattle.group_kernel.specs.Held.{FacesStandOver, kept_in, seen};
ghost use Rattle.group_kernel.specs.NewFaces.{AreWhole};
ghost use Rattle.group_kernel.specs.Standing.{OwnersCounted};
ghost use Rattle.group_kernel.specs.Starting.{HasFaces, HasTables, IsFirstFace, IsProcessOf, IsRowOf, TakeApart, faces_but, faces_that, take_face, takes_face};
ghost use Rattle.run_defs.specs.Progress.{progress_at};
ghost use Rattle.group_defs.specs.Fork.{maps_privately};
ghost use Rattle.shadow_chains.specs.Entries.{entry_with, face_of as face_in, number_of, with_face};
ghost use Rattle.tables.specs.Rising.{Rise, removed};

use crate::group_tables::GroupTables;
use crate::row::Row;
use address_maps::{Map, Mapping};
use ckpt_records::Parts;
use descriptors::{DescTable, Opens};
use group_defs::{FileRec, Frame, ObjectRec, Proc, ProcState};
use group_files::FileTable;
use lists::{NoMemory, Seq};
use mem_objects::{Layer, is_zero};
use pipes_socks::{PairTable, PipeTable};
use proc_lease::Process;
use rv64_core::Regs;
use shadow_chains::{Face, FaceTable};
use std::alloc::Global;
use syscalls_io::IoTables;

const PAGE: u64 = 4_096;

// Each page of a layer has 4,096 bytes.
fn pages_are_whole(layer: &Layer)
    ensures { AreWhole layer.now }
{
    for page in layer.as_slice() {
        page.1.as_array();
    }
}

// The face of an object of a new disk: without a base, and in its layers just the pages that aren't all zero.
fn new_face(alloc: Global, pages: u64, layer: &Layer) -> Result<Face, NoMemory>
    requires small { pages ≤ 16384 }
    requires whole { AreWhole layer.now }
    ensures { IfOk result (λ face. (number : ℕ) → IsFirstFace 0
        (number, object_bytes pages layer.now) (entry_with number face)) }
{
    let mut face = Face::zeroed(alloc, pages)?;
    for page in layer.as_slice() {
        if page.0 < pages && !is_zero(&page.1) {
            face.write(PAGE * page.0, page.1.as_array())?;
        }
    }
    Ok(face)
}

fn face_of(alloc: Global, epoch: u64, object: ObjectRec, layer: Layer) -> Result<Face, NoMemory>
    requires { object.pages ≤ 16384 }
    ensures { IfOk result (λ face. IsFirstFace epoch
        (object.number, object_bytes object.pages layer) (entry_with object.number face)) }
{
    pages_are_whole(&layer);
    if epoch == 0 {
        new_face(alloc, object.pages, &layer)
    } else {
        Face::of(alloc, object.pages, object.number, layer)
    }
}

// The faces of all objects; each has the layer in its place.
fn all_faces(
    alloc: Global,
    epoch: u64,
    objects: &[ObjectRec],
    layers: Seq<(u64, Layer)>,
) -> Result<FaceTable, NoMemory>
    requires layers { map (λ l. l.0) layers ≡ map (λ o. o.number) objects.now }
    requires rise { Rise (λ o. o.number) objects.now }
    requires small { All (λ o. o.pages ≤ 16384) objects.now }
    ensures first { IfOk result
        (λ faces. AllZip (IsFirstFace epoch) (memory_of objects.now layers) faces.entries) }
    ensures rise { IfOk result (λ faces. Rise number_of faces.entries) }
{
    let mut faces = FaceTable::new(alloc);
    let mut place = 0;
    for numbered in layers.into_vec() {
        let (_, layer) = numbered;
        let object = objects[place];
        let face = face_of(alloc, epoch, object, layer)?;
        faces.insert(object.number, face)?;
        place += 1;
    }
    faces.len();
    Ok(faces)
}

// Moves a face from one table to another, where it is in the first.
fn move_face(from: &mut FaceTable, to: &mut FaceTable, number: u64) -> Result<(), NoMemory>
    ensures from { OnOk result (from.new.entries ≡ removed number_of from.old.entries number) }
    ensures to { OnOk result (to.new.entries ≡ elim (face_in from.old.entries number) [
      | None ↦ to.old.entries
      | Some face ↦ with_face to.old.entries number face
    ]) }
{
    match from.remove(number) {
        Some(face) => to.insert(number, face),
        None => Ok(()),
    }
}

fn private_faces(
    alloc: Global,
    all: &mut FaceTable,
    maps: &[Mapping],
) -> Result<FaceTable, NoMemory>
    requires { Rise number_of all.old.entries }
    ensures taken { IfOk result
        (λ faces. faces.entries ≡ faces_that (maps_privately maps.now) all.old.entries) }
    ensures left { OnOk result
        (all.new.entries ≡ faces_but (maps_privately maps.now) all.old.entries) }
{
    let mut faces = FaceTable::new(alloc);
    for mapping in maps {
        if !mapping.shared {
            move_face(all, &mut faces, mapping.object)?;
        }
    }
    Ok(faces)
}

fn shared_of(alloc: Global, maps: &[Mapping]) -> Result<Seq<Mapping>, NoMemory>
    ensures { IfOk result (λ shared. shared ≡ shared_mappings maps.now) }
{
    let mut shared = Seq::new(alloc);
    for mapping in maps {
        if mapping.shared {
            shared.push(*mapping)?;
        }
    }
    Ok(shared)
}

fn descriptors_of(
    alloc: Global,
    list: &[(u32, u64)],
    opens: &mut Opens,
) -> Result<DescTable, NoMemory>
    requires fits { AreDescriptors list.now }
    requires open { All (λ d. IsOpen (descriptions opens.old.entries) d.1) list.now }
    ensures fds { IfOk result (λ fds. fds.entries ≡ list.now) }
    ensures same { OnOk result
        (descriptions opens.new.entries ≡ descriptions opens.old.entries) }
    ensures exact { OnOk result ((others : List (List (ℕ × ℕ)))
        → OwnersAre others [] opens.old.entries
        → OwnersAre (list.now ∷ others) [] opens.new.entries) }
{
    let mut fds = DescTable::new(alloc);
    for entry in list {
        fds.install(entry.0, entry.1, opens)?;
    }
    Ok(fds)
}

// The private part of a process that runs.
fn process_of(alloc: Global, proc: &Proc, all: &mut FaceTable) -> Result<Option<Process>, NoMemory>
    requires rise { Rise number_of all.old.entries }
    requires maps { AreMappings proc.now.maps }
    requires fits { HasFaces all.old.entries proc.now }
    ensures process { IfOk result (IsProcessOf all.old.entries proc.now) }
    ensures left { OnOk result
        (all.new.entries ≡ faces_but (takes_face proc.now) all.old.entries) }
{
    match proc.state {
        ProcState::Ended { .. } => Ok(None),
        ProcState::Running => Ok(Some(Process {
            regs: Regs {
                pc: proc.pc,
                x: proc.regs,
            },
            map: Map::of(alloc, proc.maps.as_slice())?,
            faces: private_faces(alloc, all, proc.maps.as_slice())?,
        })),
    }
}

fn row_of(
    alloc: Global,
    proc: &Proc,
    all: &mut FaceTable,
    opens: &mut Opens,
) -> Result<Row, NoMemory>
    requires rise { Rise number_of all.old.entries }
    requires tables { HasTables (descriptions opens.old.entries) proc.now }
    requires fits { HasFaces all.old.entries proc.now }
    ensures row { IfOk result (IsRowOf all.old.entries proc.now) }
    ensures left { OnOk result
        (all.new.entries ≡ faces_but (takes_face proc.now) all.old.entries) }
    ensures same { OnOk result
        (descriptions opens.new.entries ≡ descriptions opens.old.entries) }
    ensures exact { OnOk result ((others : List (List (ℕ × ℕ)))
        → OwnersAre others [] opens.old.entries
        → OwnersAre (proc.now.fds ∷ others) [] opens.new.entries) }
{
    Ok(Row {
        pid: proc.pid,
        parent: proc.parent,
        state: proc.state,
        brk_base: proc.brk_base,
        brk: proc.brk,
        shared: shared_of(alloc, proc.maps.as_slice())?,
        fds: descriptors_of(alloc, proc.fds.as_slice(), opens)?,
        process: process_of(alloc, proc, all)?,
    })
}

fn rows_of(
    alloc: Global,
    procs: &[Proc],
    all: &mut FaceTable,
    opens: &mut Opens,
) -> Result<Vec<Row>, NoMemory>
    requires rise { Rise number_of all.old.entries }
    requires apart { TakeApart procs.now }
    requires tables { All (HasTables (descriptions opens.old.entries)) procs.now }
    requires fits { All (HasFaces all.old.entries) procs.now }
    ensures rows { IfOk result
        (λ rows. AllZip (IsRowOf all.old.entries) procs.now rows.items) }
    ensures left { OnOk result
        (all.new.entries ≡ faces_but (take_face procs.now) all.old.entries) }
    ensures same { OnOk result
        (descriptions opens.new.entries ≡ descriptions opens.old.entries) }
    ensures exact { OnOk result (OwnersAre [] [] opens.old.entries
        → OwnersAre (map (λ p. p.fds) procs.now) [] opens.new.entries) }
{
    let mut rows = Vec::new(alloc);
    for proc in procs {
        rows.push(row_of(alloc, proc, all, opens)?)?;
    }
    Ok(rows)
}

fn file_faces_of(
    alloc: Global,
    files: &[FileRec],
    all: &mut FaceTable,
) -> Result<FaceTable, NoMemory>
    requires { files.now ≡ [] }
    ensures none { IfOk result (λ faces. faces.entries ≡ []) }
    ensures left { OnOk result (all.new.entries ≡ all.old.entries) }
{
    let mut faces = FaceTable::new(alloc);
    for file in files {
        move_face(all, &mut faces, file.object)?;
    }
    Ok(faces)
}

/// The tables and faces of the group that the parts stand for. At epoch 0 a face has no base, and in its layers are the
/// pages that aren't all zero; else its base is its own object, and no page is in its layers.
pub fn tables_of(alloc: Global, parts: Parts, epoch: u64) -> Result<GroupTables, NoMemory>
    requires { MayBegin parts epoch }
    ensures parts { IfOk result (λ t. kept_in (seen t) ≡ all_parts (group_of parts)) }
    ensures faces { IfOk result (λ t. FacesStandOver
        (base_memory (progress_at epoch (group_of parts)))
        (progress_at epoch (group_of parts)).touched (seen t)) }
    ensures owners { IfOk result (λ t. OwnersCounted (seen t)) }
{
    let Parts { frame, layers } = parts;
    let Frame {
        procs,
        objects,
        opens,
        pipes,
        pairs,
        files,
        next,
        out,
    } = frame;
    let mut all = all_faces(alloc, epoch, objects.as_slice(), layers)?;
    let mut opens = Opens::of(alloc, opens.as_slice())?;
    let rows = rows_of(alloc, procs.as_slice(), &mut all, &mut opens)?;
    let file_faces = file_faces_of(alloc, files.as_slice(), &mut all)?;
    let io = IoTables {
        opens,
        pipes: PipeTable::of(alloc, pipes.as_slice())?,
        pairs: PairTable::of(alloc, pairs.as_slice())?,
        files: FileTable::of(alloc, files.as_slice())?,
        file_faces,
        out,
        next,
    };
    Ok(GroupTables {
        rows,
        objects: objects.into_vec(),
        shared: all,
        io,
    })
}
