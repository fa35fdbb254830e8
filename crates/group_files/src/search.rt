//! Files found by name and by object.

ghost use Rattle.std.specs.Prelude.{◌≡◌, ◌≤◌, ◌<◌, ◌==◌, false, All, IfNone, IfSome, length};
ghost use Rattle.std.specs.Option.{option_copied};
ghost use Rattle.group_files.specs.Names as of_names;
ghost use Rattle.group_files.specs.Files as of_files;
ghost use Rattle.group_files.specs.Files.{NamesRise, IsPlaceWith, file_named};

use crate::named::Named;

fn is_before(name: &[u8], other: &[u8]) -> bool
    ensures { result ≡ of_names.is_before name.now other.now }
{
    name.cmp(other).is_lt()
}

/// How many files have a name before this one.
pub(crate) fn place_of(files: &[Named], name: &[u8]) -> usize
    requires { NamesRise files.now }
    ensures place { result ≡ of_files.place_of_name files.now name.now }
    ensures within { result ≤ length files.now }
{
    files.partition_point(|file| is_before(file.name(), name))
}

/// The file of a name.
pub(crate) fn find_named<'a>(files: &'a [Named], name: &[u8]) -> Option<&'a Named>
    requires { NamesRise files.now }
    ensures { option_copied result ≡ file_named files.now name.now }
{
    let place = place_of(files, name);
    if place < files.len() && files[place].name() == name {
        Some(&files[place])
    } else {
        None
    }
}

/// The place of the file with an object.
pub(crate) fn place_with(files: &[Named], object: u64) -> Option<usize>
    ensures some { IfSome result (IsPlaceWith files.now object) }
    ensures none { IfNone result (All (λ f. (f.object == object) ≡ false) files.now) }
{
    files.iter().position(|file| file.object() == object)
}
