ghost use Rattle.std.specs.Prelude.{◌≤◌, length, IfOk};
ghost use Rattle.pb_devices.specs.Reads.{Fits};

use crate::file::read_piece;
use crate::folder_syncs::FolderSyncs;
use crate::found::{if_there, length_if_there};
use crate::object_names::{SPARES, folder_of, is_object_name, join, may_hold_objects};
use crate::object_walk::{Found, walk};
use std::alloc::{AllocError, Global};
use std::fs::{self, File, OpenOptions};
use std::io::{self, ErrorKind, Write};

/// The objects of a bucket, each a file below a folder of the file system. docs/DECISIONS.md, "Host bucket", has the reason of
/// each order.
#[derive(Drop)]
pub struct Objects {
    alloc: Global,
    runtime: HostRuntime,
    path: String,
    syncs: FolderSyncs,
    /// How many spare files this process has made: each has a number of its own.
    spares: u64,
    /// Whether every name is durable as reads give it.
    is_settled: bool,
    /// Whether folders were made whose names may not be durable.
    has_made: bool,
}

impl Objects {
    pub fn new(alloc: Global, runtime: HostRuntime, path: &str) -> Result<Objects, AllocError> {
        Ok(Objects {
            alloc,
            runtime,
            path: String::from_str(alloc, path)?,
            syncs: FolderSyncs::new(runtime),
            spares: 0,
            is_settled: false,
            has_made: false,
        })
    }

    /// Puts an object: whole or not at all, and durable where it succeeds.
    pub fn put(&mut self, name: &str, bytes: &[u8]) -> io::Result<()> {
        self.settle()?;
        let path = self.path_of(name)?;
        let spare = self.next_spare()?;
        // Until the end, an error leaves names that the next call has to settle.
        self.is_settled = false;
        self.write_spare(spare.as_str(), bytes)?;
        self.move_into_place(spare.as_str(), path.as_str())?;
        self.settle_folder(folder_of(path.as_str()))
    }

    /// Removes an object, if it is there.
    pub fn delete(&mut self, name: &str) -> io::Result<()> {
        self.settle()?;
        let path = self.path_of(name)?;
        self.is_settled = false;
        if_there(fs::remove_file(&self.runtime, path.as_str()))?;
        self.syncs.sync_if_there(folder_of(path.as_str()))?;
        self.is_settled = true;
        Ok(())
    }

    pub fn size(&mut self, name: &str) -> io::Result<Option<u64>> {
        self.settle()?;
        let path = self.path_of(name)?;
        length_if_there(fs::metadata(&self.runtime, path.as_str()))
    }

    pub fn read_at(&mut self, name: &str, at: u64, into: &mut [u8]) -> io::Result<Option<usize>>
        ensures within { IfOk result (Fits (length into.old)) }
    {
        self.settle()?;
        let path = self.path_of(name)?;
        match if_there(File::open(&self.runtime, path.as_str()))? {
            Some(file) => Ok(Some(read_object(&file, at, into)?)),
            None => Ok(None),
        }
    }

    /// The names that begin with a prefix, ascending.
    pub fn list(&mut self, alloc: Global, prefix: &str) -> io::Result<Vec<String>> {
        let mut names = self.names_with(alloc, prefix)?;
        names.sort_unstable();
        Ok(names)
    }

    pub fn count(&mut self, prefix: &str) -> io::Result<u64> {
        Ok(self.names_with(self.alloc, prefix)?.len() as u64)
    }

    fn names_with(&mut self, alloc: Global, prefix: &str) -> io::Result<Vec<String>> {
        self.settle()?;
        let folder = folder_of(prefix);
        if !may_hold_objects(folder) {
            return Ok(Vec::new(alloc));
        }
        let Found { names, .. } = walk(alloc, &self.runtime, self.path.as_str(), folder, prefix)?;
        Ok(names)
    }

    /// Makes every name durable as reads give it, where that isn't known: at the first call of a process, since one before it may
    /// have been killed, and after a put or a delete that failed. Spare files that were left go.
    fn settle(&mut self) -> io::Result<()> {
        self.syncs.refuse_lost()?;
        if self.is_settled {
            return Ok(());
        }
        if if_there(fs::metadata(&self.runtime, self.path.as_str()))?.is_some() {
            self.remove_spares()?;
            self.sync_all_folders()?;
        }
        self.has_made = false;
        self.is_settled = true;
        Ok(())
    }

    fn remove_spares(&mut self) -> io::Result<()> {
        let left = walk(
            self.alloc,
            &self.runtime,
            self.path.as_str(),
            SPARES,
            SPARES,
        )?;
        for name in left.names.iter() {
            let path = self.path_in(name.as_str())?;
            if_there(fs::remove_file(&self.runtime, path.as_str()))?;
        }
        let folder = self.path_in(SPARES)?;
        self.syncs.sync_if_there(folder.as_str())
    }

    fn sync_all_folders(&mut self) -> io::Result<()> {
        let found = walk(self.alloc, &self.runtime, self.path.as_str(), "", "")?;
        for folder in found.folders.iter() {
            let path = self.path_in(folder.as_str())?;
            self.syncs.sync(path.as_str())?;
        }
        self.syncs.sync_above(self.path.as_str())
    }

    /// Makes the names of a folder durable, and those of the folders above where this call made some.
    fn settle_folder(&mut self, folder: &str) -> io::Result<()> {
        self.syncs.sync(folder)?;
        if self.has_made {
            self.syncs.sync_above(folder)?;
        }
        self.has_made = false;
        self.is_settled = true;
        Ok(())
    }

    fn next_spare(&mut self) -> Result<String, AllocError> {
        self.spares = self.spares.saturating_add(1);
        let folder = self.path.as_str();
        let number = self.spares;
        format!(in self.alloc; "{folder}/{SPARES}/{number}")
    }

    /// Writes a new file, and makes its bytes durable: no name may stand for bytes that aren't.
    fn write_spare(&mut self, spare: &str, bytes: &[u8]) -> io::Result<()> {
        let mut file = match if_there(self.make(spare))? {
            Some(file) => file,
            None => {
                self.make_folder(folder_of(spare))?;
                self.make(spare)?
            }
        };
        file.write_all(bytes)?;
        file.sync_all()
    }

    fn move_into_place(&mut self, spare: &str, path: &str) -> io::Result<()> {
        if if_there(fs::rename(&self.runtime, spare, path))?.is_none() {
            self.make_folder(folder_of(path))?;
            fs::rename(&self.runtime, spare, path)?;
        }
        Ok(())
    }

    fn make_folder(&mut self, folder: &str) -> io::Result<()> {
        self.has_made = true;
        fs::create_dir_all(&self.runtime, folder)
    }

    fn make(&self, path: &str) -> io::Result<File> {
        OpenOptions::new()
            .write(true)
            .create_new(true)
            .open(&self.runtime, path)
    }

    /// A name that no object may have is an error.
    fn path_of(&self, name: &str) -> io::Result<String> {
        if !is_object_name(name) {
            return Err(io::Error::from(ErrorKind::InvalidInput));
        }
        Ok(self.path_in(name)?)
    }

    /// The path of a name or a folder in the bucket.
    fn path_in(&self, name: &str) -> Result<String, AllocError> {
        join(self.alloc, self.path.as_str(), name)
    }
}

/// Reads bytes of what is opened by an object's name. What is no file is an error.
fn read_object(file: &File, at: u64, into: &mut [u8]) -> io::Result<usize>
    ensures within { IfOk result (λ n. n ≤ length into.old) }
{
    let stat = file.metadata()?;
    if !stat.is_file() {
        return Err(io::Error::from(ErrorKind::InvalidInput));
    }
    // The system refuses a place that is past the end of any file.
    if stat.len() <= at {
        return Ok(0);
    }
    let read = read_piece(file, at, into)?;
    Ok(read)
}
