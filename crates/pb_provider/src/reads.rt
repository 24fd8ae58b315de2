ghost use Rattle.std.specs.Prelude.{◌≡◌, ◌≤◌, ℕ, List, true, Some, None, Err, length, IfErr, IfOk, OnOk};
ghost use Rattle.std.specs.FinMap.{get};
ghost use Rattle.pb_catalog.specs.Catalog.{IsEntered};
ghost use Rattle.pb_devices.specs.Counts.{HasCauseAs, one_more};
ghost use Rattle.pb_devices.specs.DiskCalls.{Stays};
ghost use Rattle.pb_names.specs.Spelling.{file_name};
ghost use Rattle.pb_names.specs.declared.file_kind.FileKind.TheVariants.{Table};
ghost use Rattle.pb_payloads.specs.Payloads.{standing_of};
ghost use Rattle.pb_payloads.specs.Places.{standing_name};
ghost use Rattle.pb_provider.specs.Faults.{IsReadBucket, IsReadDisk};
ghost use Rattle.pb_provider.specs.Places.{Reads};

use crate::ReadError;
use pb_devices::{Bucket, Disk};
use pb_names::{FileKind, Name, file, object};
use pb_payloads::Entry;

/// The name of an entry's object.
pub(crate) fn name_of(number: u64, entry: &Entry) -> Name
    requires { IsEntered (number, standing_of entry.now) }
    ensures { result ≡ standing_name (standing_of entry.now) }
{
    match entry {
        Entry::Shared(id) => object(id),
        Entry::External(_) => unreachable!(),
    }
}

/// Reads bytes of a table's file: one device call.
pub(crate) fn read_file<D: Disk>(
    disk: &mut D,
    number: u64,
    at: u64,
    into: &mut [u8],
) -> Result<usize, ReadError>
    ensures within { IfOk result (λ n. n ≤ length into.old) }
    ensures read { D.told ≡ true → (bytes : List ℕ) → (D.contents disk.old).seen (file_name Table number) ≡ Some bytes
        → IfOk result (Reads bytes at into.old into.new) }
    ensures known { IfErr result (λ error. error ≡ ReadError.Disk) }
    ensures stays { D.told ≡ true → Stays (D.contents disk.old) (D.contents disk.new) }
    ensures cause { HasCauseAs IsReadDisk (D.fault_count disk.old) (D.fault_count disk.new) result }
{
    let name = file(FileKind::Table, number);
    match disk.read_at(name.as_str(), at, into) {
        Ok(count) => Ok(count),
        Err(_) => Err(ReadError::Disk),
    }
}

/// Reads bytes of an object: one device call.
pub(crate) fn read_object<B: Bucket>(
    bucket: &mut B,
    name: Name,
    at: u64,
    into: &mut [u8],
) -> Result<usize, ReadError>
    ensures within { IfOk result (λ n. n ≤ length into.old) }
    ensures read { B.told ≡ true → (bytes : List ℕ) → get (B.objects bucket.old) name ≡ Some bytes
        → IfOk result (Reads bytes at into.old into.new) }
    ensures there { B.told ≡ true → OnOk result (get (B.objects bucket.old) name ≡ None → ⊥) }
    ensures named { (other : List ℕ) → result ≡ Err (ReadError.Missing other) → other ≡ name }
    ensures missing { B.told ≡ true → (other : List ℕ) → result ≡ Err (ReadError.Missing other) → get (B.objects bucket.old) name ≡ None }
    ensures not_disk { result ≡ Err ReadError.Disk → ⊥ }
    ensures kept { B.told ≡ true → B.objects bucket.new ≡ B.objects bucket.old }
    ensures calls { B.call_count bucket.new ≡ one_more (B.call_count bucket.old) }
    ensures cause { HasCauseAs IsReadBucket (B.fault_count bucket.old) (B.fault_count bucket.new) result }
{
    match bucket.read_at(name.as_str(), at, into) {
        Ok(Some(count)) => Ok(count),
        Ok(None) => Err(ReadError::Missing(name)),
        Err(_) => Err(ReadError::Bucket),
    }
}
