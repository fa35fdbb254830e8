//! The tables of a group.
ghost use Rattle.std.specs.Prelude.{◌≡◌};
ghost use Rattle.group_kernel.specs.Placed.{is_running_row};

use crate::row::Row;
use group_defs::{ObjectRec, ProcState};
use shadow_chains::FaceTable;
use syscalls_io::IoTables;

/// A group as tables and faces, apart from the private parts that are on lease.
#[derive(Drop)]
pub struct GroupTables {
    /// The processes, by pid.
    pub rows: Vec<Row>,
    /// All objects, by number, those on lease among them.
    pub objects: Vec<ObjectRec>,
    /// The faces of the objects that processes may share.
    pub shared: FaceTable,
    pub io: IoTables,
}

/// Whether the process runs.
pub fn is_running(row: &Row) -> bool
    ensures { result ≡ is_running_row row.now }
{
    match row.state {
        ProcState::Running => true,
        ProcState::Ended { .. } => false,
    }
}
