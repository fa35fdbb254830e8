//! Where a run begins: with a manifest's first group, or with the checkpoint that the disk holds.
ghost use Rattle.std.specs.Prelude.{◌≡◌, ◌≤◌, ℕ, List, IfOk, IfErr};
ghost use Rattle.dev_traits.specs.Outside.{FilesView, SinkView};
ghost use Rattle.ckpt_chain.specs.Reads.{OnlyReads};
ghost use Rattle.ckpt_records.specs.Origin.{HasSize, IsWithin};
ghost use Rattle.aurora_top.specs.Beginnings.{Asks, AsksRestore, AsksRun};
ghost use Rattle.aurora_top.specs.Refusals.{Refused};
ghost use Rattle.aurora_top.specs.Starting.{IsBegun};
ghost use Rattle.command_words.specs.Words.{named_beginning};
ghost use Rattle.command_words.specs.declared.words.Command.{Command};
ghost use Rattle.command_words.specs.declared.words.Beginning.TheVariants.{Manifest, Checkpoint};

use crate::causes::{end_loading, end_opening, end_restoring};
use crate::opening::unused_gates;
use ckpt_records::{Origin, is_unworn, is_within};
use command_words::{Beginning, End};
use dev_traits::{Disk, Files, Sink};
use group_boot::{flat_origin, load};
use lists::NoMemory;
use restore_group::restore;
use std::alloc::Global;

/// The origin of the manifest's image, on a disk without an open slot.
fn new_origin<F: Files, D: Disk>(
    alloc: Global,
    manifest: &str,
    files: &mut F,
    disk: &mut D,
) -> Result<Origin, End>
    requires { HasSize (D.view disk.old).blocks }
    ensures ok { IfOk result (λ o. IsBegun (Manifest manifest.now) (D.view disk.old)
        (F.view files.old) o) }
    ensures err { IfErr result (λ e. (words : List (List ℕ)) (sink : SinkView)
        → AsksRun words (D.view disk.old).blocks manifest.now
        → Refused words (D.view disk.old) (D.view disk.new) (F.view files.old) (F.view files.new)
        sink e) }
    ensures reads { OnlyReads (D.view disk.old) (D.view disk.new) }
    ensures contents { (F.view files.new).contents ≡ (F.view files.old).contents }
    ensures later { (F.view files.old).faults ≤ (F.view files.new).faults }
{
    let gates = match unused_gates(disk) {
        Ok(gates) => gates,
        Err(refused) => return Err(end_opening(refused)),
    };
    let image = match load(alloc, files, manifest) {
        Ok(image) => image,
        Err(refused) => return Err(end_loading(refused)),
    };
    match flat_origin(alloc, image, gates) {
        Ok(origin) => Ok(origin),
        Err(NoMemory) => Err(End::NoMemory),
    }
}

/// The origin of the checkpoint that the disk holds, where it leaves room for a run.
fn held_origin<D: Disk>(alloc: Global, disk: &mut D) -> Result<Origin, End>
    requires { HasSize (D.view disk.old).blocks }
    ensures ok { IfOk result (λ o. (files : FilesView)
        → IsBegun Checkpoint (D.view disk.old) files o) }
    ensures err { IfErr result (λ e. (words : List (List ℕ)) (files files' : FilesView)
        (sink : SinkView) → AsksRestore words (D.view disk.old).blocks
        → Refused words (D.view disk.old) (D.view disk.new) files files' sink e) }
    ensures reads { OnlyReads (D.view disk.old) (D.view disk.new) }
{
    let origin = match restore(alloc, disk) {
        Ok(origin) => origin,
        Err(refused) => return Err(end_restoring(refused)),
    };
    if !is_unworn(&origin) {
        return Err(End::Worn {
            epoch: origin.epoch,
        });
    }
    Ok(origin)
}

/// The origin that the command names.
fn first_origin<F: Files, D: Disk>(
    alloc: Global,
    beginning: Beginning<&str>,
    files: &mut F,
    disk: &mut D,
) -> Result<Origin, End>
    requires { HasSize (D.view disk.old).blocks }
    ensures ok { IfOk result (λ o. IsBegun (named_beginning beginning.entry) (D.view disk.old)
        (F.view files.old) o) }
    ensures err { IfErr result (λ e. (words : List (List ℕ)) (command : Command (List ℕ))
        (sink : SinkView) → Asks words (D.view disk.old).blocks command
        → command.beginning ≡ named_beginning beginning.entry
        → Refused words (D.view disk.old) (D.view disk.new) (F.view files.old) (F.view files.new)
        sink e) }
    ensures reads { OnlyReads (D.view disk.old) (D.view disk.new) }
    ensures contents { (F.view files.new).contents ≡ (F.view files.old).contents }
    ensures later { (F.view files.old).faults ≤ (F.view files.new).faults }
{
    match beginning {
        Beginning::Manifest(manifest) => new_origin(alloc, manifest, files, disk),
        Beginning::Checkpoint => held_origin(alloc, disk),
    }
}

/// The origin that the command names, where the output's count is a position of its output.
pub fn begin<F: Files, D: Disk, O: Sink>(
    alloc: Global,
    beginning: Beginning<&str>,
    files: &mut F,
    disk: &mut D,
    out: &O,
) -> Result<Origin, End>
    requires { HasSize (D.view disk.old).blocks }
    ensures ok { IfOk result (λ o. IsBegun (named_beginning beginning.entry) (D.view disk.old)
        (F.view files.old) o) }
    ensures within { IfOk result (λ o. IsWithin (O.view out.now) o.parts.frame.out) }
    ensures err { IfErr result (λ e. (words : List (List ℕ)) (command : Command (List ℕ))
        → Asks words (D.view disk.old).blocks command
        → command.beginning ≡ named_beginning beginning.entry
        → Refused words (D.view disk.old) (D.view disk.new) (F.view files.old) (F.view files.new)
        (O.view out.now) e) }
    ensures reads { OnlyReads (D.view disk.old) (D.view disk.new) }
    ensures contents { (F.view files.new).contents ≡ (F.view files.old).contents }
    ensures later { (F.view files.old).faults ≤ (F.view files.new).faults }
{
    let origin = match first_origin(alloc, beginning, files, disk) {
        Ok(origin) => origin,
        Err(end) => return Err(end),
    };
    let first = &origin.parts.frame.out;
    if !is_within(out, first) {
        return Err(End::SinkStrange {
            count: out.taken(),
            from: first.from,
            last: first.mark,
        });
    }
    Ok(origin)
}
