//! The ends of commands whose parts were refused.
ghost use Rattle.std.specs.Prelude.{◌≡◌};
ghost use Rattle.aurora_top.specs.Causes.{end_loading as loading_end, end_opening as opening_end, end_restoring as restoring_end};

use crate::opening::OpenRefused;
use command_words::End;
use group_boot::LoadRefused;
use restore_group::Refused;

/// The end of a command whose disk was refused.
pub fn end_opening(refused: OpenRefused) -> End
    ensures { result ≡ opening_end refused }
{
    match refused {
        OpenRefused::Occupied { epoch } => End::Occupied { epoch },
        OpenRefused::DiskFault => End::DiskFault,
    }
}

/// The end of a command whose manifest or image was refused.
pub fn end_loading(refused: LoadRefused) -> End
    ensures { result ≡ loading_end refused }
{
    match refused {
        LoadRefused::NotBuilt => End::NotBuilt,
        LoadRefused::FilesFault => End::FilesFault,
        LoadRefused::NoMemory => End::NoMemory,
    }
}

/// The end of a command whose checkpoint was refused.
pub fn end_restoring(refused: Refused) -> End
    ensures { result ≡ restoring_end refused }
{
    match refused {
        Refused::NoCheckpoint => End::NoCheckpoint,
        Refused::Damaged { epoch } => End::Damaged { epoch },
        Refused::DiskFault => End::DiskFault,
        Refused::NoMemory => End::NoMemory,
    }
}
