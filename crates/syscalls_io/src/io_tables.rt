//! The tables that calls on descriptors read and change.

use descriptors::Opens;
use group_defs::{Next, Out};
use group_files::FileTable;
use pipes_socks::{PairTable, PipeTable};
use shadow_chains::FaceTable;

/// What calls on descriptors read and change beside their caller's own tables.
#[derive(Drop)]
pub struct IoTables {
    pub opens: Opens,
    pub pipes: PipeTable,
    pub pairs: PairTable,
    pub files: FileTable,
    /// The faces of files' objects.
    pub file_faces: FaceTable,
    pub out: Out,
    pub next: Next,
}
