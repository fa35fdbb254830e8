ghost use Rattle.std.specs.Prelude.{◌≡◌, ◌↔◌, ◌⊎◌, ◌<◌, ◌≤◌, IsTrue, All, length, true};
ghost use Rattle.tables.specs.Rising.{Rise};
ghost use Rattle.group_files.specs.Files.{FileFits, NamesRise};
ghost use Rattle.group_defs.specs.Mappings.{IsInside};
ghost use Rattle.group_defs.specs.Objects as of_objects;
ghost use Rattle.group_defs.specs.Objects.{HasFileObject, IsMappedAs, IsSharedObject, IsPrivateObject, IsMemoryObject};
ghost use Rattle.group_defs.specs.Valid.{MapsSound, ObjectsSound, FilesSound};

use crate::mappings::is_inside;
use crate::sizes::{file_fits, memory_fits};
use group_defs::{ObjectRec, Proc, names_rise};
use group_files::FileRec;
use tables::rises;

/// Whether an object is a file's.
#[tactic(auto, unfolding(group_defs::specs::Objects::is_of_file))]
pub fn is_of_file(files: &[FileRec], number: u64) -> bool
    ensures { result ≡ of_objects.is_of_file files.now number }
{
    files.iter().any(|file| file.object == number)
}

/// Whether a process maps an object.
#[tactic(auto, unfolding(group_defs::specs::Objects::maps_object))]
pub fn maps_object(number: u64, p: &Proc) -> bool
    ensures { result ≡ of_objects.maps_object number p.now }
{
    p.maps.as_slice().iter().any(|m| m.object == number)
}

#[tactic(auto, unfolding(group_defs::specs::Objects::mappers))]
fn mappers(procs: &[Proc], number: u64) -> usize
    ensures { result ≡ of_objects.mappers procs.now number }
{
    procs.iter().filter(|p| maps_object(number, p)).count()
}

#[tactic(auto, unfolding(group_defs::specs::Objects::IsMappedAs))]
fn is_mapped_as(shared: bool, number: u64, p: &Proc) -> bool
    ensures { IsTrue result ↔ IsMappedAs shared number p.now }
{
    p.maps
        .as_slice()
        .iter()
        .all(|m| m.object != number || m.shared == shared)
}

#[tactic(auto, unfolding(group_defs::specs::Objects::IsSharedObject))]
fn is_shared_object(procs: &[Proc], number: u64) -> bool
    ensures { IsTrue result ↔ IsSharedObject procs.now number }
{
    procs.iter().all(|p| is_mapped_as(true, number, p))
}

#[tactic(auto, unfolding(group_defs::specs::Objects::IsPrivateObject))]
fn is_private_object(procs: &[Proc], number: u64) -> bool
    ensures { IsTrue result ↔ IsPrivateObject procs.now number }
{
    procs.iter().all(|p| is_mapped_as(false, number, p)) && mappers(procs, number) <= 1
}

#[tactic(auto, unfolding(group_defs::specs::Objects::IsMemoryObject))]
fn is_memory_object(procs: &[Proc], o: &ObjectRec) -> bool
    ensures { IsTrue result ↔ IsMemoryObject procs.now o.now }
{
    o.pages >= 1 && (is_shared_object(procs, o.number) || is_private_object(procs, o.number))
}

/// Whether each mapping lies inside its object, mappings of one object agree, and nobody maps a
/// file's.
pub fn maps_sound(procs: &[Proc], objects: &[ObjectRec], files: &[FileRec]) -> bool
    ensures { IsTrue result ↔ MapsSound procs.now objects.now files.now }
{
    procs.iter().all(|p| p.maps.as_slice().iter().all(|m| is_inside(objects, m)))
        && objects.iter().all(|o| is_of_file(files, o.number) || is_memory_object(procs, o))
        && files.iter().all(|file| mappers(procs, file.object) == 0)
}

/// Whether the objects rise, and are few and small enough.
pub fn objects_sound(next: u64, objects: &[ObjectRec], files: &[FileRec]) -> bool
    ensures { IsTrue result ↔ ObjectsSound next objects.now files.now }
{
    memory_fits(objects, files)
        && objects.iter().all(|o| o.pages <= 16_384)
        && rises(objects)
        && objects.iter().all(|o| o.number < next)
}

#[tactic(auto, unfolding(group_defs::specs::Objects::HasFileObject))]
fn has_file_object(objects: &[ObjectRec], file: &FileRec) -> bool
    ensures { IsTrue result ↔ HasFileObject objects.now file.now }
{
    objects
        .iter()
        .any(|o| o.number == file.object && o.pages == 256)
}

#[tactic(auto, unfolding(group_defs::specs::Objects::files_with))]
fn files_with(files: &[FileRec], number: u64) -> usize
    ensures { result ≡ of_objects.files_with files.now number }
{
    files.iter().filter(|file| file.object == number).count()
}

fn files_fit(files: &[FileRec]) -> bool
    ensures { IsTrue result ↔ ((length files.now ≤ 64) × All FileFits files.now
        × NamesRise files.now) }
{
    files.len() <= 64 && files.iter().all(|file| file_fits(file)) && names_rise(files)
}

/// Whether the files are few enough, rise by name, and have an object of 256 pages each.
pub fn files_sound(objects: &[ObjectRec], files: &[FileRec]) -> bool
    ensures { IsTrue result ↔ FilesSound objects.now files.now }
{
    files_fit(files)
        && files.iter().all(|file| has_file_object(objects, file))
        && files.iter().all(|file| files_with(files, file.object) == 1)
}
