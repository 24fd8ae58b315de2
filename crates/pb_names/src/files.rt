ghost use Rattle.std.specs.Prelude.{◌≡◌};
ghost use Rattle.pb_names.specs.Spelling.{current_name, ending, file_name};

use crate::{FileKind, Name};

/// The name of a numbered file of a folder: `1.man`, `2.cat`, `3.log`, `4.tbl`.
///
/// The spellings stand in docs/FORMATS.md, "Names".
pub fn file(kind: FileKind, number: u64) -> Name
    ensures { result ≡ file_name kind number }
{
    let mut name = Name::empty();
    name.push_number(number);
    name.push(ending_of(kind));
    name
}

/// The name of the file that names the manifest and the catalogue.
pub fn current() -> Name
    ensures { result ≡ current_name }
{
    let mut name = Name::empty();
    name.push(b"CURRENT");
    name
}

/// What the name of such a file ends with.
pub(crate) fn ending_of(kind: FileKind) -> &'static [u8]
    ensures { result.now ≡ ending kind }
{
    match kind {
        FileKind::Manifest => b".man",
        FileKind::Catalogue => b".cat",
        FileKind::Log => b".log",
        FileKind::Table => b".tbl",
    }
}
