ghost use Rattle.std.specs.Prelude.{◌≡◌, ◌≢◌, ◌≤◌, ◌↔◌, length, IfOk, OnOk, OnErr, IsErr, IsTrue};

use std::fs::File;
use std::io;
use std::marker::Model;
use std::os::unix::fs::FileExt;

/// What is known of the bytes that reads give of a file.
#[derive(Clone, Copy, PartialEq, Eq)]
pub enum Standing {
    /// They are durable, as far as this process has written them.
    Synced,
    /// Some were written since the last sync.
    Written,
    /// A sync failed. Those that it was to write may be lost, and the system may report the next sync as good.
    Lost,
}

/// A file of a folder, kept open from its first write to its sync, so that no error of the system goes unseen between them.
#[derive(Drop)]
pub struct OpenFile {
    name: String,
    file: File,
    standing: Standing,
}

impl Model for OpenFile {
    ghost use Rattle.pb_host.specs.declared.file.Standing.{Standing};

    ghost Value = { Standing };

    ghost view = { λ file. file.standing };
}

impl OpenFile {
    /// A file that this process hasn't written since its last sync.
    pub fn found(name: String, file: File) -> OpenFile
        ensures { result ≡ Standing.Synced }
    {
        OpenFile {
            name,
            file,
            standing: Standing::Synced,
        }
    }

    /// A file that this process has just made.
    pub fn made(name: String, file: File) -> OpenFile
        ensures { result ≡ Standing.Written }
    {
        OpenFile {
            name,
            file,
            standing: Standing::Written,
        }
    }

    pub fn name(&self) -> &str {
        self.name.as_str()
    }

    pub fn is_synced(&self) -> bool
        ensures { IsTrue result ↔ (self.now ≡ Standing.Synced) }
    {
        self.standing == Standing::Synced
    }

    pub fn is_lost(&self) -> bool
        ensures { IsTrue result ↔ (self.now ≡ Standing.Lost) }
    {
        self.standing == Standing::Lost
    }

    /// Reads bytes from a place on, and answers how many: fewer than asked only at the end.
    pub fn read_at(&self, at: u64, into: &mut [u8]) -> io::Result<usize>
        ensures within { IfOk result (λ n. n ≤ length into.old) }
        ensures lost { self.now ≡ Standing.Lost → IsErr result }
    {
        self.refuse_lost()?;
        read_piece(&self.file, at, into)
    }

    /// Writes all the bytes. A short write goes on, and one that takes nothing is an error.
    pub fn write_at(&mut self, at: u64, bytes: &[u8]) -> io::Result<()>
        ensures written { self.new ≢ Standing.Synced }
        ensures lost { self.old ≡ Standing.Lost → IsErr result × (self.new ≡ Standing.Lost) }
    {
        self.refuse_lost()?;
        // A write that fails may have written a part.
        self.standing = Standing::Written;
        self.file.write_all_at(bytes, at)
    }

    /// Makes the bytes durable as reads give them. After an error they may be lost, and no later sync is tried.
    pub fn sync(&mut self) -> io::Result<()>
        ensures ok { OnOk result (self.new ≡ Standing.Synced) }
        ensures err { OnErr result (self.new ≡ Standing.Lost) }
        ensures lost { self.old ≡ Standing.Lost → IsErr result }
    {
        self.refuse_lost()?;
        let synced = self.file.sync_all();
        self.standing = match synced {
            Ok(()) => Standing::Synced,
            Err(_) => Standing::Lost,
        };
        synced
    }

    fn refuse_lost(&self) -> io::Result<()>
        ensures { IsErr result ↔ (self.now ≡ Standing.Lost) }
    {
        if self.is_lost() {
            return Err(io::Error::from(io::ErrorKind::Other));
        }
        Ok(())
    }
}

/// Reads bytes of a file from a place on, and answers how many: fewer than asked only at the end. A short read goes on.
pub fn read_piece(file: &File, at: u64, into: &mut [u8]) -> io::Result<usize>
    ensures within { IfOk result (λ n. n ≤ length into.old) }
{
    let mut done = 0;
    while done < into.len() {
        let place = at.saturating_add(done as u64);
        let n = file.read_at(&mut into[done..], place)?;
        if n == 0 {
            break;
        }
        done += n;
    }
    Ok(done)
}
