ghost use Rattle.std.specs.Prelude.{◌≡◌, ◌↔◌, ◌⊎◌, true, false, OnOk, IsErr};

use crate::found::if_there;
use std::fs::File;
use std::io::{self, ErrorKind};
use std::marker::Model;
use std::path::Path;

/// The syncs of a device's folders. The names of a folder can't be written anew as a file's bytes can, so after a sync that
/// failed none is good. A folder that couldn't be opened has lost nothing, and the next call tries it again.
#[derive(Drop)]
pub struct FolderSyncs {
    runtime: HostRuntime,
    /// Whether the sync of a folder failed.
    is_lost: bool,
}

impl Model for FolderSyncs {
    ghost use Rattle.std.specs.Prelude.{Bool};

    /// Whether the sync of a folder failed.
    ghost Value = { Bool };

    ghost view = { λ syncs. syncs.is_lost };
}

impl FolderSyncs {
    pub fn new(runtime: HostRuntime) -> FolderSyncs
        ensures { result ≡ false }
    {
        FolderSyncs {
            runtime,
            is_lost: false,
        }
    }

    /// An error where the sync of a folder failed earlier.
    pub fn refuse_lost(&self) -> io::Result<()>
        ensures { IsErr result ↔ (self.now ≡ true) }
    {
        if self.is_lost {
            return Err(io::Error::from(ErrorKind::Other));
        }
        Ok(())
    }

    /// Makes the names of a folder durable as reads give them.
    pub fn sync(&mut self, folder: &str) -> io::Result<()>
        ensures ok { OnOk result (self.new ≡ false) }
        ensures lost { self.old ≡ true → IsErr result × (self.new ≡ true) }
    {
        self.refuse_lost()?;
        let names = File::open(&self.runtime, folder)?;
        self.sync_opened(&names)
    }

    /// The same of a folder that need not be there.
    pub fn sync_if_there(&mut self, folder: &str) -> io::Result<()>
        ensures ok { OnOk result (self.new ≡ false) }
        ensures lost { self.old ≡ true → IsErr result × (self.new ≡ true) }
    {
        self.refuse_lost()?;
        match if_there(File::open(&self.runtime, folder))? {
            Some(names) => self.sync_opened(&names),
            None => Ok(()),
        }
    }

    /// The same of the folders above one, up to the one that the process runs in or the root.
    pub fn sync_above(&mut self, folder: &str) -> io::Result<()> {
        for above in Path::new(folder).ancestors().skip(1) {
            let path = if above.as_str().is_empty() {
                "."
            } else {
                above.as_str()
            };
            self.sync(path)?;
        }
        Ok(())
    }

    /// The one place where a folder becomes lost.
    fn sync_opened(&mut self, names: &File) -> io::Result<()>
        ensures { (self.new ≡ true) ↔ ((self.old ≡ true) ⊎ IsErr result) }
    {
        let synced = names.sync_all();
        if synced.is_err() {
            self.is_lost = true;
        }
        synced
    }
}
