//! The end of a process: what becomes of its row, its children, its descriptors and its objects.
//! No memory is taken.
ghost use Rattle.std.specs.Prelude.{◌≡◌, ◌≤◌, ◌<◌, ◌+◌, ◌==◌, Some, List, ℕ, [], ◌∷◌, filter, map, length, slice_index_or, slice_set};
ghost use Rattle.std.specs.List.{list_any};
ghost use Rattle.descriptors.specs.Owners.{OwnersAre};
ghost use Rattle.group_kernel.specs.Ending.{LeavesOwned, ended_row, filtered_from, maps_any, remains, row_maps, rows_left_by, stays_by, stays_shared, without_parent, without_unmapped};
ghost use Rattle.group_kernel.specs.Held.{pid_at, seen, with_process};
ghost use Rattle.group_kernel.specs.Steps.{ComesToEnd, MakesStep};

use crate::group_tables::GroupTables;
use crate::row::Row;
use address_maps::Mapping;
use descriptors::{DescTable, Opens};
use group_defs::{ObjectRec, ProcState};
use lists::Seq;
use proc_lease::Process;
use shadow_chains::FaceTable;
use std::alloc::Global;
use std::mem;

// Whether one of these mappings is of the object.
fn maps(mappings: &[Mapping], number: u64) -> bool
    ensures { result ≡ maps_any mappings.now number }
{
    mappings.iter().any(|mapping| mapping.object == number)
}

// Whether one of the rows maps the object shared.
fn is_mapped(rows: &[Row], number: u64) -> bool
    ensures { result ≡ list_any (row_maps number) rows.now }
{
    rows.iter().any(|row| maps(row.shared.as_slice(), number))
}

// Whether an object stays where a process ends that has these private faces and these shared
// mappings.
fn stays(faces: &FaceTable, shared: &[Mapping], rows: &[Row], number: u64) -> bool
    ensures { result ≡ stays_by faces.now.entries shared.now rows.now number }
{
    !(faces.face(number).is_some() || maps(shared, number)) || is_mapped(rows, number)
}

// Closes all descriptors of a process. What nobody is at any more of the outside or nothing takes
// nothing with it.
fn close_all(fds: &mut DescTable, opens: &mut Opens)
    ensures fds { fds.new.entries ≡ [] }
    ensures left { LeavesOwned opens.old.entries opens.new.entries }
    ensures exact { (others : List (List (ℕ × ℕ)))
        → OwnersAre (fds.old.entries ∷ others) [] opens.old.entries
        → OwnersAre ([] ∷ others) [] opens.new.entries }
{
    for fd in 0..64 {
        let _closed = fds.close(fd, opens);
    }
    // There are no others.
    let _none = fds.len();
}

// Leaves a process's pid, its parent and its status, and gives its shared mappings.
fn end_row(alloc: Global, row: &mut Row, status: u32, opens: &mut Opens) -> Seq<Mapping>
    ensures shared { result ≡ row.old.shared }
    ensures row { row.new ≡ ended_row status row.new.fds row.old }
    ensures fds { row.new.fds.entries ≡ [] }
    ensures left { LeavesOwned opens.old.entries opens.new.entries }
    ensures exact { (others : List (List (ℕ × ℕ)))
        → OwnersAre (row.old.fds.entries ∷ others) [] opens.old.entries
        → OwnersAre ([] ∷ others) [] opens.new.entries }
{
    close_all(&mut row.fds, opens);
    row.state = ProcState::Ended { status };
    row.brk_base = 0;
    row.brk = 0;
    row.process = None;
    mem::replace(&mut row.shared, Seq::new(alloc))
}

// Whether a row is left when a process ends: its own where it has a parent, and of its children
// those that run.
fn is_left(row: &Row, pid: u32) -> bool
    ensures { result ≡ remains pid row.now }
{
    if row.pid == pid {
        row.parent != 0
    } else {
        match row.state {
            ProcState::Running => true,
            ProcState::Ended { .. } => row.parent != pid,
        }
    }
}

// Tests the row at a place, and takes it away where it doesn't stay: the place of the next one.
fn test_row(rows: &mut Vec<Row>, place: usize, pid: u32) -> usize
    requires { place < length rows.old.items }
    ensures rest { filtered_from (remains pid) result rows.new.items
        ≡ filtered_from (remains pid) place rows.old.items }
    ensures fewer { length rows.new.items + place < length rows.old.items + result }
    ensures within { result ≤ length rows.new.items }
{
    if is_left(&rows[place], pid) {
        place + 1
    } else {
        rows.remove(place);
        place
    }
}

// Takes away the row of a process that has ended, where it has no parent, and those of its children
// that have ended.
fn drop_rows(rows: &mut Vec<Row>, pid: u32)
    ensures { rows.new.items ≡ filter (remains pid) rows.old.items }
{
    let mut place = 0;
    while place < rows.len() {
        place = test_row(rows, place, pid);
    }
}

// A child of a process that ends has no parent any more.
fn leave_parent(row: &mut Row, pid: u32)
    ensures { row.new ≡ without_parent pid row.old }
{
    if row.pid != pid && row.parent == pid {
        row.parent = 0;
    }
}

// All of its children.
fn part_from(rows: &mut [Row], pid: u32)
    ensures { rows.new ≡ map (without_parent pid) rows.old }
{
    for place in 0..rows.len() {
        leave_parent(&mut rows[place], pid);
    }
}

// The rows that are left when a process ends.
fn leave_rows(rows: &mut Vec<Row>, pid: u32)
    ensures { rows.new.items ≡ rows_left_by pid rows.old.items }
{
    drop_rows(rows, pid);
    part_from(rows, pid);
}

// Tests the object at a place, and takes it away where it doesn't stay: the place of the next one.
fn test_object(
    objects: &mut Vec<ObjectRec>,
    place: usize,
    faces: &FaceTable,
    shared: &[Mapping],
    rows: &[Row],
) -> usize
    requires { place < length objects.old.items }
    ensures rest { filtered_from (λ o. stays_by faces.now.entries shared.now rows.now o.number)
        result objects.new.items
        ≡ filtered_from (λ o. stays_by faces.now.entries shared.now rows.now o.number)
        place objects.old.items }
    ensures fewer { length objects.new.items + place < length objects.old.items + result }
    ensures within { result ≤ length objects.new.items }
{
    if stays(faces, shared, rows, objects[place].number) {
        place + 1
    } else {
        objects.remove(place);
        place
    }
}

// Takes away the objects that the process maps and no row does.
fn drop_objects(objects: &mut Vec<ObjectRec>, faces: &FaceTable, shared: &[Mapping], rows: &[Row])
    ensures { objects.new.items
        ≡ filter (λ o. stays_by faces.now.entries shared.now rows.now o.number)
        objects.old.items }
{
    let mut place = 0;
    while place < objects.len() {
        place = test_object(objects, place, faces, shared, rows);
    }
}

// Takes away the face of an object that no row maps.
fn drop_face(faces: &mut FaceTable, rows: &[Row], number: u64)
    ensures { faces.new.entries ≡ without_unmapped rows.now number faces.old.entries }
{
    if !is_mapped(rows, number) {
        faces.remove(number);
    }
}

// Takes away those of the objects that the process maps shared.
fn drop_faces(faces: &mut FaceTable, shared: &[Mapping], rows: &[Row])
    ensures { faces.new.entries
        ≡ filter (λ e. stays_shared shared.now rows.now e.number) faces.old.entries }
{
    for mapping in shared {
        drop_face(faces, rows, mapping.object);
    }
}

impl GroupTables {
    /// Ends a process that was given back, with this wait status.
    pub fn end(&mut self, alloc: Global, place: usize, process: Process, status: u32)
        requires within { place < length self.old.rows.items }
        requires ends { let pid = pid_at (seen self.old) place in
            ComesToEnd (with_process (seen self.old) pid (Some process)) pid status }
        ensures { let pid = pid_at (seen self.old) place in
            MakesStep (with_process (seen self.old) pid (Some process)) (seen self.new) pid }
    {
        let pid = self.rows[place].pid;
        let shared = end_row(alloc, &mut self.rows[place], status, &mut self.io.opens);
        leave_rows(&mut self.rows, pid);
        drop_objects(
            &mut self.objects,
            &process.faces,
            shared.as_slice(),
            &self.rows,
        );
        drop_faces(&mut self.shared, shared.as_slice(), &self.rows);
    }
}
