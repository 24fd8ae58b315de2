ghost use Rattle.std.specs.Prelude.{◌≡◌, ℕ, Ok, IfOk, false};
ghost use Rattle.pb_devices.specs.Counts.{HasCause};
ghost use Rattle.pb_host.specs.HostDisk.{untold, untold_may_be_left};

use crate::folder::Folder;
use pb_devices::{Disk, Failed, ListError};
use std::alloc::{AllocError, Global};
use std::io::{self, ErrorKind};
use std::marker::Model;

/// A disk over a folder of the host's file system. It tells nothing of contents: that the file system keeps what a disk
/// promises is taken for granted, and docs/DECISIONS.md, "Host disk", says what is done so that it can.
///
/// Each error of the system is a fault, want of memory for a path too. Another process may not use the folder meanwhile.
#[derive(Drop)]
pub struct HostDisk {
    folder: Folder,
    faults: u64,
}

impl Model for HostDisk {
    /// How often a call has failed.
    ghost Value = { ℕ };

    ghost view = { λ disk. disk.faults };
}

impl HostDisk {
    /// A disk over the folder at a path. Nothing is made until a file is made.
    pub fn new(alloc: Global, runtime: HostRuntime, path: &str) -> Result<HostDisk, AllocError>
        ensures { IfOk result (λ disk. disk ≡ 0) }
    {
        Ok(HostDisk {
            folder: Folder::new(alloc, runtime, path)?,
            faults: 0,
        })
    }

    /// Counts an error as a fault.
    fn counted<T>(&mut self, answer: io::Result<T>) -> Result<T, Failed>
        ensures ok { IfOk result (λ value. answer ≡ Ok value) }
        ensures cause { HasCause self.old self.new result }
    {
        match answer {
            Ok(value) => Ok(value),
            Err(_) => {
                self.faults = self.faults.saturating_add(1);
                Err(Failed)
            }
        }
    }
}

impl Disk for HostDisk {
    ghost told = { false };

    ghost contents = { λ _. untold };

    ghost fault_count = { λ disk. disk };

    ghost seen_may_be_left = { λ _ name _. untold_may_be_left name };

    fn len(&mut self, file: &str) -> Result<Option<u64>, Failed> {
        let found = self.folder.len(file);
        self.counted(found)
    }

    fn read_at(&mut self, file: &str, at: u64, into: &mut [u8]) -> Result<usize, Failed> {
        let read = self.folder.read_at(file, at, into);
        self.counted(read)
    }

    fn list(&mut self, alloc: Global) -> Result<Vec<String>, ListError> {
        match self.folder.list(alloc) {
            Err(error) if error.kind() == ErrorKind::OutOfMemory => Err(ListError::NoMemory),
            listed => match self.counted(listed) {
                Ok(names) => Ok(names),
                Err(Failed) => Err(ListError::Failed),
            },
        }
    }

    fn create(&mut self, file: &str) -> Result<(), Failed> {
        let made = self.folder.create(file);
        self.counted(made)
    }

    fn write_at(&mut self, file: &str, at: u64, bytes: &[u8]) -> Result<(), Failed> {
        let written = self.folder.write_at(file, at, bytes);
        self.counted(written)
    }

    fn sync(&mut self, file: &str) -> Result<(), Failed> {
        let synced = self.folder.sync(file);
        self.counted(synced)
    }

    fn barrier(&mut self) -> Result<(), Failed> {
        let settled = self.folder.barrier();
        self.counted(settled)
    }

    fn remove(&mut self, file: &str) -> Result<(), Failed> {
        let removed = self.folder.remove(file);
        self.counted(removed)
    }

    /// Does nothing: only the host's own power can be cut.
    fn power(&mut self) {}

    fn faults(&self) -> u64 {
        self.faults
    }
}

#[cfg(test)]
mod tests {
    use super::*;
    use std::fs;
    use std::test::Fail;

    #[test]
    fn a_folder_that_is_not_there_is_not_made(rt: HostRuntime) -> Result<(), Fail> {
        let _ = fs::remove_dir_all(&rt, "absent");
        let mut disk = HostDisk::new(rt.alloc(), rt, "absent/A")?;
        assert!(rt; disk.len("3.log")?.is_none());
        let mut piece = [7u8; 4];
        assert_eq!(rt; disk.read_at("3.log", 0, &mut piece)?, 0);
        assert_eq!(rt; disk.list(rt.alloc())?.len(), 0);
        disk.barrier()?;
        disk.remove("3.log")?;
        assert!(rt; !fs::exists(&rt, "absent")?);
        assert_eq!(rt; disk.faults(), 0);
        Ok(())
    }

    #[test]
    fn a_file_that_was_synced_reads_back(rt: HostRuntime) -> Result<(), Fail> {
        let _ = fs::remove_dir_all(&rt, "synced");
        let mut disk = HostDisk::new(rt.alloc(), rt, "synced/A")?;
        disk.barrier()?;
        disk.create("CURRENT")?;
        disk.create("3.log")?;
        disk.write_at("3.log", 0, b"first")?;
        disk.write_at("3.log", 3, b"mly")?;
        disk.sync("3.log")?;
        disk.barrier()?;
        let names = disk.list(rt.alloc())?;
        assert_eq!(rt; names.len(), 2);
        assert_eq!(rt; names[0].as_str(), "3.log");
        assert_eq!(rt; names[1].as_str(), "CURRENT");

        let mut again = HostDisk::new(rt.alloc(), rt, "synced/A")?;
        again.barrier()?;
        assert_eq!(rt; again.len("3.log")?, Some(6));
        assert_eq!(rt; again.len("CURRENT")?, Some(0));
        let mut piece = [0u8; 8];
        assert_eq!(rt; again.read_at("3.log", 2, &mut piece)?, 4);
        assert_eq!(rt; piece, *b"rmly\0\0\0\0");
        again.remove("3.log")?;
        again.barrier()?;
        assert!(rt; again.len("3.log")?.is_none());
        assert_eq!(rt; again.list(rt.alloc())?.len(), 1);
        assert_eq!(rt; again.faults(), 0);
        fs::remove_dir_all(&rt, "synced")?;
        Ok(())
    }

    #[test]
    fn each_error_of_the_system_is_a_fault(rt: HostRuntime) -> Result<(), Fail> {
        fs::write(&rt, "file", b"no folder".as_slice())?;
        let mut disk = HostDisk::new(rt.alloc(), rt, "file/A")?;
        assert!(rt; disk.len("3.log").is_err());
        let mut piece = [0u8; 4];
        assert!(rt; disk.read_at("3.log", 0, &mut piece).is_err());
        assert!(rt; disk.list(rt.alloc()).is_err());
        assert!(rt; disk.create("3.log").is_err());
        assert!(rt; disk.write_at("3.log", 0, b"a").is_err());
        assert!(rt; disk.sync("3.log").is_err());
        assert!(rt; disk.barrier().is_err());
        assert!(rt; disk.remove("3.log").is_err());
        disk.power();
        assert_eq!(rt; disk.faults(), 8);
        fs::remove_file(&rt, "file")?;
        Ok(())
    }
}
