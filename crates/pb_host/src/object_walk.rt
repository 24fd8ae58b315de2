use crate::found::if_there;
use crate::object_names::{SPARES, join};
use std::alloc::Global;
use std::fs::{self, DirEntry};
use std::io::{self, ErrorKind};

/// The folders and the files that a walk found, by their paths from where it began, in no order.
#[derive(Drop)]
pub struct Found {
    pub folders: Vec<String>,
    pub names: Vec<String>,
}

/// Goes over the folder that a prefix names (`folder`) and those below it, and finds what begins with the prefix. A folder that
/// isn't there has nothing. What is neither file nor folder is left out, and so is a name that isn't UTF-8.
pub fn walk(
    alloc: Global,
    runtime: &HostRuntime,
    root: &str,
    folder: &str,
    prefix: &str,
) -> io::Result<Found> {
    let mut found = Found {
        folders: Vec::new(alloc),
        names: Vec::new(alloc),
    };
    found.folders.push(String::from_str(alloc, folder)?)?;
    for at in 0..usize::MAX {
        let Some(folder) = found.folders.get(at) else {
            break;
        };
        let mut below = list_folder(alloc, runtime, root, folder, prefix, &mut found.names)?;
        found.folders.append(&mut below)?;
    }
    Ok(found)
}

/// Adds the files of a folder that begin with a prefix to the names, and gives such folders.
fn list_folder(
    alloc: Global,
    runtime: &HostRuntime,
    root: &str,
    folder: &str,
    prefix: &str,
    names: &mut Vec<String>,
) -> io::Result<Vec<String>> {
    let mut below = Vec::new(alloc);
    let path = join(alloc, root, folder)?;
    if let Some(entries) = if_there(fs::read_dir(runtime, path.as_str()))? {
        for entry in entries {
            if let Some(entry) = if_text(entry)? {
                add_entry(alloc, folder, prefix, &entry, names, &mut below)?;
            }
        }
    }
    Ok(below)
}

/// None for a name that isn't UTF-8.
fn if_text(entry: io::Result<DirEntry>) -> io::Result<Option<DirEntry>> {
    match entry {
        Ok(entry) => Ok(Some(entry)),
        Err(error) if error.kind() == ErrorKind::InvalidFilename => Ok(None),
        Err(error) => Err(error),
    }
}

fn add_entry(
    alloc: Global,
    folder: &str,
    prefix: &str,
    entry: &DirEntry,
    names: &mut Vec<String>,
    below: &mut Vec<String>,
) -> io::Result<()> {
    let name = join(alloc, folder, entry.file_name())?;
    if !name.starts_with(prefix) || name.as_str() == SPARES {
        return Ok(());
    }
    let kind = entry.file_type()?;
    if kind.is_dir() {
        below.push(name)?;
    } else if kind.is_file() {
        names.push(name)?;
    }
    Ok(())
}
