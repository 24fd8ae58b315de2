ghost use Rattle.std.specs.Prelude.{◌≡◌, option_map, nat_eq};
ghost use Rattle.std.specs.Cmp.Lexicographic.{pointwise};
ghost use Rattle.pb_folder.specs.Listed.{folder_of};

use pb_keys::Bytes;
use pb_names::Name;
use std::marker::Model;

/// A file of a folder.
#[derive(Debug, Drop)]
pub struct File {
    pub name: Bytes,
    pub bytes: Bytes,
}

impl Model for File {
    ghost use Rattle.std.specs.Prelude.{ℕ, List};

    ghost Value = { List ℕ × List ℕ };

    ghost view = { λ file. (file.name, file.bytes) };
}

/// The bytes of the first file of the name, if there is one.
pub(crate) fn bytes_in<'a>(files: &'a [File], name: &Name) -> Option<&'a [u8]>
    ensures { option_map (λ bytes. bytes.now) result ≡ folder_of files.now name.now }
{
    for file in files {
        if is_named(file, name) {
            return Some(file.bytes.as_slice());
        }
    }
    None
}

fn is_named(file: &File, name: &Name) -> bool
    ensures { result ≡ pointwise nat_eq file.now.0 name.now }
{
    file.name.as_slice() == name.as_str().as_bytes()
}
