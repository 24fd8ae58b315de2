use std::alloc::{AllocError, Global};

/// The folder beside the objects in which a put writes its file. No name leads into it.
pub const SPARES: &str = "tmp";

/// Whether an object may have a name: a path of plain parts that doesn't lead among the spare files.
pub fn is_object_name(name: &str) -> bool {
    is_path(name) && name.split('/').next() != Some(SPARES)
}

/// Whether objects may stand below a folder, by its path in the bucket: empty for the bucket's own.
pub fn may_hold_objects(folder: &str) -> bool {
    folder.is_empty() || is_object_name(folder)
}

fn is_path(path: &str) -> bool {
    path.split('/')
        .all(|part| !part.is_empty() && part != "." && part != "..")
}

/// The path of the folder that a name stands in: empty where it has no slash.
pub fn folder_of(name: &str) -> &str {
    match name.rsplit_once('/') {
        Some((folder, _)) => folder,
        None => "",
    }
}

/// Two paths in a row, of which either may be empty.
pub fn join(alloc: Global, folder: &str, name: &str) -> Result<String, AllocError> {
    if folder.is_empty() {
        return String::from_str(alloc, name);
    }
    if name.is_empty() {
        return String::from_str(alloc, folder);
    }
    format!(in alloc; "{folder}/{name}")
}
