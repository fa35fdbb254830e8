//! The opening of a command's disk, and its slots where the run begins with a manifest.
ghost use Rattle.std.specs.Prelude.{◌≡◌, ◌≤◌, None, IfOk, IfErr};
ghost use Rattle.std.specs.Option.{ForSome};
ghost use Rattle.run_defs.specs.Limits.{LimitsFit};
ghost use Rattle.ckpt_chain.specs.Reads.{OnlyReads};
ghost use Rattle.ckpt_chain.specs.Slot.{newest, gates_of};
ghost use Rattle.ckpt_records.specs.Origin.{HasSize};
ghost use Rattle.command_words.specs.Words.{named_command};
ghost use Rattle.aurora_top.specs.Beginnings.{Asks};
ghost use Rattle.aurora_top.specs.Causes.{RefusedByDisk};
ghost use Rattle.aurora_top.specs.Starting.{IsOpened, IsUnopened};

use ckpt_chain::read_slots;
use ckpt_records::has_size;
use command_words::spelling::words_spell_one_command;
use command_words::{Command, End, command_of};
use dev_traits::{Disk, Word};

/// Why a disk isn't one to begin a new run on.
#[derive(Clone, Copy, Debug, PartialEq, Eq)]
pub enum OpenRefused {
    /// A slot is open; the newest one has this epoch.
    Occupied { epoch: u64 },
    DiskFault,
}

/// The command that the words spell, and the disk's moment when the opening sync answered Ok.
pub fn open<'a, D: Disk>(words: &'a [Word], disk: &mut D) -> Result<(Command<&'a str>, u64), End>
    ensures asks { IfOk result (λ r. Asks words.now (D.view disk.old).blocks (named_command r.0)) }
    ensures limits { IfOk result (λ r. LimitsFit r.0.limits) }
    ensures opened { IfOk result (λ r. IsOpened r.1 (D.view disk.old) (D.view disk.new)) }
    ensures err { IfErr result (λ e. IsUnopened words.now (D.view disk.old) (D.view disk.new) e) }
{
    let Some(command) = command_of(words) else {
        return Err(End::Usage);
    };
    // its limits fit a run
    words_spell_one_command();
    let blocks = disk.blocks();
    if !has_size(blocks) {
        return Err(End::DiskShape { blocks });
    }
    match disk.sync() {
        Ok(()) => Ok((command, disk.moment())),
        Err(_) => Err(End::DiskFault),
    }
}

/// Reads both slots, of which none may be open: their gate bytes.
pub fn unused_gates<D: Disk>(disk: &mut D) -> Result<[u8; 2], OpenRefused>
    requires { HasSize (D.view disk.old).blocks }
    ensures ok { IfOk result (λ gates. ForSome (D.view disk.old).reading
        (λ r. (newest r ≡ None) × (gates ≡ gates_of r))) }
    ensures err { IfErr result (λ e. RefusedByDisk (D.view disk.old) (D.view disk.new) e) }
    ensures reads { OnlyReads (D.view disk.old) (D.view disk.new) }
{
    let slots = match read_slots(disk) {
        Ok(slots) => slots,
        Err(_) => return Err(OpenRefused::DiskFault),
    };
    match slots.newest {
        None => Ok(slots.gates),
        Some((_, body)) => Err(OpenRefused::Occupied { epoch: body.epoch }),
    }
}
