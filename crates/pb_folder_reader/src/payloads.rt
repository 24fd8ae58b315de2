ghost use Rattle.std.specs.Prelude.{◌≡◌, option_map, IfOk};
ghost use Rattle.pb_folder.specs.Listed.{folder_of};
ghost use Rattle.pb_gate_log.specs.Payloads.{payloads};

use super::File;
use super::files::bytes_in;
use pb_gate_log::payloads;
use pb_keys::Bytes;
use pb_names::Name;
use std::alloc::{AllocError, Global};

/// The payloads of the gate log of this name, if there is such a file.
pub(crate) fn payloads_in(
    alloc: Global,
    files: &[File],
    name: &Name,
) -> Result<Option<Vec<Bytes>>, AllocError>
    ensures { IfOk result (λ found. option_map (λ list. list.items) found ≡ option_map payloads (folder_of files.now name.now)) }
{
    let Some(bytes) = bytes_in(files, name) else {
        return Ok(None);
    };
    let list = payloads(alloc, bytes)?;
    Ok(Some(list))
}
