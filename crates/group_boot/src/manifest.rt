//! The manifest and the image that it names.
ghost use Rattle.std.specs.Prelude.{◌≡◌, ◌≤◌, List, ℕ, IsTrue, Some, IfOk, IfErr, IfSome, IfNone, length, ◌↔◌};
ghost use Rattle.std.specs.Option.{ForSome};
ghost use Rattle.std.specs.List.{AllByRecursion};
ghost use Rattle.group_boot.specs.Manifest.{IsFlat, NamesImage};
ghost use Rattle.group_boot.specs.Causes.{RefusedByFiles, NoFile, NoImage};

use dev_traits::{Files, FilesFailed};
use std::alloc::Global;

/// How a manifest of one flat image begins.
const HEADING: &[u8; 14] = b"aurora 1\nflat ";

/// The most bytes of an image: 16 MiB.
const MOST_BYTES: usize = 16_777_216;

/// Why no image was loaded.
#[derive(Clone, Copy, Debug, PartialEq, Eq)]
pub enum LoadRefused {
    /// The manifest or the image isn't there, or isn't one that is built.
    NotBuilt,
    FilesFault,
    NoMemory,
}

/// Whether each byte may stand in a name.
fn is_printed(name: &[u8]) -> bool
    ensures { IsTrue result ↔ AllByRecursion (λ b. (33 ≤ b) × (b ≤ 126)) name.now }
{
    for b in name {
        if *b < 33 || *b > 126 {
            return false;
        }
    }
    true
}

/// The name in the manifest of one flat image.
fn flat_name(manifest: &[u8]) -> Option<&[u8]>
    ensures some { IfSome result (λ name. IsFlat manifest.now name.now) }
    ensures none { IfNone result ((name : List ℕ) → IsFlat manifest.now name → ⊥) }
{
    if manifest.len() < 16 || manifest.len() > 79 {
        return None;
    }
    let (front, rest) = manifest.split_at(HEADING.len());
    let (name, end) = rest.split_at(rest.len() - 1);
    if front == HEADING.as_slice() && end == b"\n".as_slice() && is_printed(name) {
        Some(name)
    } else {
        None
    }
}

/// The file of this name.
fn read_file<F: Files>(files: &mut F, alloc: Global, name: &str) -> Result<Vec<u8>, LoadRefused>
    ensures ok { IfOk result (λ bytes. ForSome (F.view files.old).contents
        (λ held. held name.now ≡ Some bytes.items)) }
    ensures err { IfErr result (λ e. NoFile name.now (F.view files.old) (F.view files.new) e) }
    ensures contents { (F.view files.new).contents ≡ (F.view files.old).contents }
    ensures later { (F.view files.old).faults ≤ (F.view files.new).faults }
{
    match files.read(alloc, name) {
        Ok(Some(bytes)) => Ok(bytes),
        Ok(None) => Err(LoadRefused::NotBuilt),
        Err(FilesFailed::Failed) => Err(LoadRefused::FilesFault),
        Err(FilesFailed::NoMemory) => Err(LoadRefused::NoMemory),
    }
}

/// The image of this name.
fn read_image<F: Files>(files: &mut F, alloc: Global, name: &str) -> Result<Vec<u8>, LoadRefused>
    ensures ok { IfOk result (λ image. ForSome (F.view files.old).contents
        (λ held. held name.now ≡ Some image.items)) }
    ensures size { IfOk result (λ image. (1 ≤ length image.items)
        × (length image.items ≤ 16777216)) }
    ensures err { IfErr result (λ e. NoImage name.now (F.view files.old) (F.view files.new) e) }
    ensures contents { (F.view files.new).contents ≡ (F.view files.old).contents }
    ensures later { (F.view files.old).faults ≤ (F.view files.new).faults }
{
    let image = match read_file(files, alloc, name) {
        Ok(image) => image,
        Err(refused) => return Err(refused),
    };
    if image.is_empty() || image.len() > MOST_BYTES {
        return Err(LoadRefused::NotBuilt);
    }
    Ok(image)
}

/// The name in a manifest's bytes, as a text.
fn image_name(manifest: &[u8]) -> Option<&str>
    ensures some { IfSome result (λ name. IsFlat manifest.now name.now) }
    ensures none { IfNone result ((name : List ℕ) → IsFlat manifest.now name → ⊥) }
{
    match flat_name(manifest) {
        Some(name) => match str::from_utf8(name) {
            Ok(name) => Some(name),
            Err(_) => None,
        },
        None => None,
    }
}

/// Reads the manifest, and the flat image that it names.
pub fn load<F: Files>(alloc: Global, files: &mut F, manifest: &str) -> Result<Vec<u8>, LoadRefused>
    ensures ok { IfOk result (λ image. ForSome (F.view files.old).contents
        (λ held. NamesImage held manifest.now image.items)) }
    ensures size { IfOk result (λ image. (1 ≤ length image.items)
        × (length image.items ≤ 16777216)) }
    ensures err { IfErr result (λ e. RefusedByFiles manifest.now (F.view files.old)
        (F.view files.new) e) }
    ensures contents { (F.view files.new).contents ≡ (F.view files.old).contents }
    ensures later { (F.view files.old).faults ≤ (F.view files.new).faults }
{
    let bytes = match read_file(files, alloc, manifest) {
        Ok(bytes) => bytes,
        Err(refused) => return Err(refused),
    };
    match image_name(&bytes) {
        Some(name) => read_image(files, alloc, name),
        None => Err(LoadRefused::NotBuilt),
    }
}
