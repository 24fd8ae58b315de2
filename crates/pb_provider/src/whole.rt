ghost use Rattle.std.specs.Prelude.{◌≡◌, ◌≤◌, ◌<◌, ◌+◌, ◌++◌, ℕ, List, true, None, Some, Err, IfNone, IfOk, IfSome, OnOk, drop, length, min, take, vec_len};
ghost use Rattle.std.specs.FinMap.{get};
ghost use Rattle.pb_devices.specs.Counts.{HasCauseAs};
ghost use Rattle.pb_devices.specs.DiskCalls.{Stays};
ghost use Rattle.pb_payloads.specs.Places.{bytes_of, object_of};
ghost use Rattle.pb_provider.specs.Faults.{IsWholeBucket, IsWholeDisk, of_read_error};
ghost use Rattle.pb_provider.specs.Places.{IsThere};

use crate::{Provider, ReadError, ReadWholeError};
use pb_devices::{Bucket, Disk};
use std::alloc::{AllocError, Global};

/// How many bytes are read at once.
const PIECE: u64 = 65_536;

impl Provider {
    /// The first `size` bytes of a number, or all where it has fewer, in pieces of 65,536 bytes by [`Provider::read`]: a
    /// call of one device for each piece, none for `size` 0. A piece that gives none ends them.
    ///
    /// The memory that is taken grows with what was read, whatever the size. After an error the devices' contents are as
    /// before.
    pub fn read_whole<D: Disk, B: Bucket>(
        &self,
        alloc: Global,
        disk: &mut D,
        bucket: &mut B,
        backing: u64,
        size: u64,
    ) -> Result<Vec<u8>, ReadWholeError>
        ensures within { IfOk result (λ read. length read.items ≤ size) }
        ensures read { D.told ≡ true → B.told ≡ true → (bytes : List ℕ)
            → bytes_of (D.contents disk.old).seen (B.objects bucket.old) self.now.catalogue.entries backing ≡ Some bytes
            → IfOk result (λ read. read.items ≡ take size bytes) }
        ensures local { IfNone (object_of self.now.catalogue.entries backing) (bucket.new ≡ bucket.old) }
        ensures remote { IfSome (object_of self.now.catalogue.entries backing) (λ _. disk.new ≡ disk.old) }
        ensures named { (name : List ℕ) → result ≡ Err (ReadWholeError.Missing name) → object_of self.now.catalogue.entries backing ≡ Some name }
        ensures missing { B.told ≡ true → (name : List ℕ) → result ≡ Err (ReadWholeError.Missing name) → get (B.objects bucket.old) name ≡ None }
        ensures there { B.told ≡ true → 0 < size → OnOk result (IsThere (object_of self.now.catalogue.entries backing) (B.objects bucket.old)) }
        ensures stays { D.told ≡ true → Stays (D.contents disk.old) (D.contents disk.new) }
        ensures kept { B.told ≡ true → B.objects bucket.new ≡ B.objects bucket.old }
        ensures disk_cause { HasCauseAs IsWholeDisk (D.fault_count disk.old) (D.fault_count disk.new) result }
        ensures bucket_cause { HasCauseAs IsWholeBucket (B.fault_count bucket.old) (B.fault_count bucket.new) result }
    {
        let Ok(mut piece) = new_piece(alloc, size) else {
            return Err(ReadWholeError::NoMemory);
        };
        let piece = piece.as_mut_slice();
        let mut bytes = Vec::new(alloc);
        while (bytes.len() as u64) < size {
            let before = bytes.len();
            let want = (size - before as u64).min(PIECE) as usize;
            self.read_piece(disk, bucket, backing, &mut piece[..want], &mut bytes)?;
            if bytes.len() == before {
                return Ok(bytes);
            }
        }
        Ok(bytes)
    }

    /// Reads a piece behind the bytes that are there.
    fn read_piece<D: Disk, B: Bucket>(
        &self,
        disk: &mut D,
        bucket: &mut B,
        backing: u64,
        piece: &mut [u8],
        bytes: &mut Vec<u8>,
    ) -> Result<(), ReadWholeError>
        ensures longer { vec_len bytes.old ≤ vec_len bytes.new }
        ensures within { OnOk result (vec_len bytes.new ≤ vec_len bytes.old + length piece.old) }
        ensures read { D.told ≡ true → B.told ≡ true → (all : List ℕ)
            → bytes_of (D.contents disk.old).seen (B.objects bucket.old) self.now.catalogue.entries backing ≡ Some all
            → OnOk result (bytes.new.items ≡ bytes.old.items ++ take (length piece.old) (drop (vec_len bytes.old) all)) }
        ensures local { IfNone (object_of self.now.catalogue.entries backing) (bucket.new ≡ bucket.old) }
        ensures remote { IfSome (object_of self.now.catalogue.entries backing) (λ _. disk.new ≡ disk.old) }
        ensures named { (name : List ℕ) → result ≡ Err (ReadWholeError.Missing name) → object_of self.now.catalogue.entries backing ≡ Some name }
        ensures missing { B.told ≡ true → (name : List ℕ) → result ≡ Err (ReadWholeError.Missing name) → get (B.objects bucket.old) name ≡ None }
        ensures there { B.told ≡ true → OnOk result (IsThere (object_of self.now.catalogue.entries backing) (B.objects bucket.old)) }
        ensures stays { D.told ≡ true → Stays (D.contents disk.old) (D.contents disk.new) }
        ensures kept { B.told ≡ true → B.objects bucket.new ≡ B.objects bucket.old }
        ensures disk_cause { HasCauseAs IsWholeDisk (D.fault_count disk.old) (D.fault_count disk.new) result }
        ensures bucket_cause { HasCauseAs IsWholeBucket (B.fault_count bucket.old) (B.fault_count bucket.new) result }
    {
        match self.read(disk, bucket, backing, bytes.len() as u64, piece) {
            Ok(count) => {
                if bytes.extend_from_slice(&piece[..count]).is_err() {
                    return Err(ReadWholeError::NoMemory);
                }
                Ok(())
            }
            Err(error) => Err(of_read(error)),
        }
    }
}

/// The error of a piece as one of the whole.
fn of_read(error: ReadError) -> ReadWholeError
    ensures { result ≡ of_read_error error }
{
    match error {
        ReadError::Disk => ReadWholeError::Disk,
        ReadError::Bucket => ReadWholeError::Bucket,
        ReadError::Missing(name) => ReadWholeError::Missing(name),
    }
}

/// The place that a piece is read into.
fn new_piece(alloc: Global, size: u64) -> Result<Vec<u8>, AllocError>
    ensures { IfOk result (λ piece. vec_len piece ≡ min size 65536) }
{
    vec![in alloc; 0; size.min(PIECE) as usize]
}
