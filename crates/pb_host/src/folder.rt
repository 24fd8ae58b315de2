ghost use Rattle.std.specs.Prelude.{◌<◌, ◌≤◌, length, IfOk, vec_len};

use crate::file::OpenFile;
use crate::folder_syncs::FolderSyncs;
use crate::found::{if_there, length_if_there};
use std::alloc::{AllocError, Global};
use std::fs::{self, DirEntry, File, OpenOptions};
use std::io;

/// The name of the new file that is to take the place of one whose sync failed. `list` leaves it out.
const SPARE: &str = ".spare";

/// A folder of the file system, made at the first file that is made in it.
#[derive(Drop)]
pub struct Folder {
    alloc: Global,
    runtime: HostRuntime,
    path: String,
    /// The files that were written since their last sync, those whose sync failed, and the one that was used last.
    files: Vec<OpenFile>,
    /// Whether this process has synced every file and the folders above, since it last made any of these folders.
    is_settled: bool,
    syncs: FolderSyncs,
}

impl Folder {
    pub fn new(alloc: Global, runtime: HostRuntime, path: &str) -> Result<Folder, AllocError> {
        Ok(Folder {
            alloc,
            runtime,
            path: String::from_str(alloc, path)?,
            files: Vec::new(alloc),
            is_settled: false,
            syncs: FolderSyncs::new(runtime),
        })
    }

    pub fn len(&self, name: &str) -> io::Result<Option<u64>> {
        let path = self.path_of(name)?;
        length_if_there(fs::metadata(&self.runtime, path.as_str()))
    }

    pub fn read_at(&mut self, name: &str, at: u64, into: &mut [u8]) -> io::Result<usize>
        ensures within { IfOk result (λ n. n ≤ length into.old) }
    {
        match if_there(self.place_of(name))? {
            Some(place) => self.files[place].read_at(at, into),
            None => Ok(0),
        }
    }

    /// The names of the files, ascending.
    pub fn list(&self, alloc: Global) -> io::Result<Vec<String>> {
        let mut names = Vec::new(alloc);
        if let Some(entries) = if_there(fs::read_dir(&self.runtime, self.path.as_str()))? {
            for entry in entries {
                self.add_file(alloc, &mut names, &entry?)?;
            }
        }
        names.sort_unstable();
        Ok(names)
    }

    fn add_file(&self, alloc: Global, names: &mut Vec<String>, entry: &DirEntry) -> io::Result<()> {
        let name = entry.file_name();
        if name != SPARE && fs::metadata(&self.runtime, entry.path())?.is_file() {
            names.push(String::from_str(alloc, name)?)?;
        }
        Ok(())
    }

    /// Makes an empty file, and the folder where it isn't there. A file that is there stays as it is, and that is an error.
    pub fn create(&mut self, name: &str) -> io::Result<()> {
        // The memory comes first: a file that is made is kept until it is synced.
        let kept = String::from_str(self.alloc, name)?;
        self.files.reserve(1)?;
        let path = self.path_of(name)?;
        let file = match if_there(self.make(path.as_str()))? {
            Some(file) => file,
            None => {
                self.is_settled = false;
                fs::create_dir_all(&self.runtime, self.path.as_str())?;
                self.make(path.as_str())?
            }
        };
        self.forget(name);
        self.files.push(OpenFile::made(kept, file))?;
        Ok(())
    }

    fn make(&self, path: &str) -> io::Result<File> {
        OpenOptions::new()
            .read(true)
            .write(true)
            .create_new(true)
            .open(&self.runtime, path)
    }

    pub fn write_at(&mut self, name: &str, at: u64, bytes: &[u8]) -> io::Result<()> {
        let place = self.place_of(name)?;
        self.files[place].write_at(at, bytes)
    }

    pub fn sync(&mut self, name: &str) -> io::Result<()> {
        let place = self.place_of(name)?;
        self.files[place].sync()
    }

    pub fn remove(&mut self, name: &str) -> io::Result<()> {
        let path = self.path_of(name)?;
        if_there(fs::remove_file(&self.runtime, path.as_str()))?;
        self.forget(name);
        Ok(())
    }

    /// Makes all files and the list of names durable as reads give them. A folder that isn't there is not made.
    pub fn barrier(&mut self) -> io::Result<()> {
        if if_there(fs::metadata(&self.runtime, self.path.as_str()))?.is_none() {
            return Ok(());
        }
        self.syncs.refuse_lost()?;
        self.renew_lost()?;
        self.sync_written()?;
        if !self.is_settled {
            self.sync_files()?;
        }
        self.sync_folders()?;
        self.files.clear();
        self.is_settled = true;
        Ok(())
    }

    /// Puts new files in place of those whose sync failed.
    fn renew_lost(&mut self) -> io::Result<()> {
        if !self.files.iter().any(|file| file.is_lost()) {
            return Ok(());
        }
        for file in self.files.iter() {
            if file.is_lost() {
                self.renew(file.name())?;
            }
        }
        self.sync_folder()?;
        self.files.retain(|file| !file.is_lost());
        Ok(())
    }

    /// Puts a new file with the bytes that reads give in place of a file. To write them again in place would put those at
    /// risk that are durable.
    fn renew(&self, name: &str) -> io::Result<()> {
        let path = self.path_of(name)?;
        let spare = self.path_of(SPARE)?;
        let mut old = File::open(&self.runtime, path.as_str())?;
        let mut new = File::create(&self.runtime, spare.as_str())?;
        io::copy(&mut old, &mut new)?;
        // The bytes first: a name may never stand for bytes that aren't durable.
        new.sync_all()?;
        fs::rename(&self.runtime, spare.as_str(), path.as_str())
    }

    fn sync_written(&mut self) -> io::Result<()> {
        for file in self.files.iter_mut() {
            if !file.is_synced() {
                file.sync()?;
            }
        }
        Ok(())
    }

    /// Syncs every file: another process may have been killed after it wrote some of them.
    fn sync_files(&mut self) -> io::Result<()> {
        for name in self.list(self.alloc)?.iter() {
            let place = self.place_of(name.as_str())?;
            self.files[place].sync()?;
        }
        self.remove(SPARE)
    }

    /// Syncs the folder, and those above where this process or one before it may have made them.
    fn sync_folders(&mut self) -> io::Result<()> {
        self.sync_folder()?;
        if !self.is_settled {
            self.syncs.sync_above(self.path.as_str())?;
        }
        Ok(())
    }

    fn sync_folder(&mut self) -> io::Result<()> {
        self.syncs.sync(self.path.as_str())
    }

    /// The place of a file among those that are open. It is opened where it isn't.
    fn place_of(&mut self, name: &str) -> io::Result<usize>
        ensures { IfOk result (λ place. place < vec_len self.new.files) }
    {
        if let Some(place) = self.files.iter().position(|file| file.name() == name) {
            return Ok(place);
        }
        self.files.retain(|file| !file.is_synced());
        let kept = String::from_str(self.alloc, name)?;
        let path = self.path_of(name)?;
        let file = OpenOptions::new()
            .read(true)
            .write(true)
            .open(&self.runtime, path.as_str())?;
        let place = self.files.len();
        self.files.push(OpenFile::found(kept, file))?;
        Ok(place)
    }

    fn forget(&mut self, name: &str) {
        self.files.retain(|file| file.name() != name);
    }

    fn path_of(&self, name: &str) -> Result<String, AllocError> {
        let folder = self.path.as_str();
        format!(in self.alloc; "{folder}/{name}")
    }
}
