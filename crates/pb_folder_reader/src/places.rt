ghost use Rattle.std.specs.Prelude.{◌≡◌, option_map};
ghost use Rattle.std.specs.FinMap.{get};
ghost use Rattle.pb_folder.specs.Listed.{folder_of, objects_of};
ghost use Rattle.pb_folder_reader.specs.AtFault.{place_of};
ghost use Rattle.pb_payloads.specs.Places.{bytes_of};

use super::File;
use super::entered::{Entered, object_of};
use super::files::bytes_in;
use pb_names::{FileKind, Name, file};

/// The bytes of a number: those of the object that stands under it, where there is no local file; those of the local file,
/// where nothing stands under it.
pub(crate) fn bytes_of<'a>(
    files: &'a [File],
    objects: &'a [File],
    entries: &[Entered],
    number: u64,
) -> Option<&'a [u8]>
    ensures { option_map (λ bytes. bytes.now) result ≡ bytes_of (folder_of files.now) (objects_of objects.now) entries.now number }
{
    let own = bytes_in(files, &file(FileKind::Table, number));
    let Some(object) = object_of(entries, number) else {
        return own;
    };
    if own.is_some() {
        return None;
    }
    object_in(objects, &object)
}

/// The name at which the bytes of a number have to be.
pub(crate) fn place_of(files: &[File], entries: &[Entered], number: u64) -> Name
    ensures { result ≡ place_of (folder_of files.now) entries.now number }
{
    let own = file(FileKind::Table, number);
    let Some(object) = object_of(entries, number) else {
        return own;
    };
    if bytes_in(files, &own).is_some() {
        return own;
    }
    object
}

fn object_in<'a>(objects: &'a [File], name: &Name) -> Option<&'a [u8]>
    ensures { option_map (λ bytes. bytes.now) result ≡ get (objects_of objects.now) name.now }
{
    bytes_in(objects, name)
}
