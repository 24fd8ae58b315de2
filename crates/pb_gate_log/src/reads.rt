ghost use Rattle.std.specs.Prelude.{◌≡◌, ◌≢◌, ◌+◌, ◌-◌, ◌≤◌, ◌++◌, true, ℕ, List, length, take, drop, min, unwrap_or, vec_len, [], Option, Some, Ok, Err, IfOk, OnOk};
ghost use Rattle.pb_devices.specs.Counts.{HasCauseAs};
ghost use Rattle.pb_devices.specs.Faults.{IsDiskFault};
ghost use Rattle.pb_devices.specs.DiskCalls.{Stays};
ghost use Rattle.pb_devices.specs.Reads.{IsLength, read_len};

use pb_devices::{Disk, Failed, Fault};
use std::alloc::Global;

/// How many bytes are read at once.
const PIECE: u64 = 65_536;

/// The bytes of a file, in pieces. A read that gives none ends them.
pub(crate) fn read_whole<D: Disk>(alloc: Global, disk: &mut D, file: &str) -> Result<Vec<u8>, Fault>
    ensures bytes { D.told ≡ true → (bytes : List ℕ) → (D.contents disk.old).seen file.now ≡ Some bytes
        → IfOk result (λ read. read.items ≡ bytes) }
    ensures kept { D.told ≡ true → Stays (D.contents disk.old) (D.contents disk.new) }
    ensures cause { HasCauseAs IsDiskFault (D.fault_count disk.old) (D.fault_count disk.new) result }
    ensures bucket { result ≢ Err Fault.Bucket }
{
    let len = len_of(disk, file)?;
    let mut bytes = Vec::new(alloc);
    let Ok(mut piece) = vec![in alloc; 0; len.min(PIECE) as usize] else {
        return Err(Fault::NoMemory);
    };
    let piece = piece.as_mut_slice();
    while (bytes.len() as u64) < len {
        let before = bytes.len();
        let want = (len - before as u64).min(PIECE) as usize;
        read_piece(disk, file, &mut piece[..want], &mut bytes)?;
        if bytes.len() == before {
            break;
        }
    }
    Ok(bytes)
}

fn len_of<D: Disk>(disk: &mut D, file: &str) -> Result<u64, Fault>
    ensures ok { D.told ≡ true → (bytes : List ℕ) → (D.contents disk.old).seen file.now ≡ Some bytes
        → IfOk result (λ len. len ≡ length bytes) }
    ensures kept { D.told ≡ true → Stays (D.contents disk.old) (D.contents disk.new) }
    ensures cause { HasCauseAs IsDiskFault (D.fault_count disk.old) (D.fault_count disk.new) result }
    ensures bucket { result ≢ Err Fault.Bucket }
{
    match disk.len(file) {
        Ok(found) => Ok(found.unwrap_or(0)),
        Err(Failed) => Err(Fault::Disk),
    }
}

// Reads a piece behind the bytes that are there.
fn read_piece<D: Disk>(
    disk: &mut D,
    file: &str,
    piece: &mut [u8],
    bytes: &mut Vec<u8>,
) -> Result<(), Fault>
    ensures bytes { D.told ≡ true → (all : List ℕ) → (D.contents disk.old).seen file.now ≡ Some all
        → OnOk result (bytes.new.items ≡ bytes.old.items ++ take (length piece.old) (drop (vec_len bytes.old) all)) }
    ensures longer { vec_len bytes.old ≤ vec_len bytes.new }
    ensures kept { D.told ≡ true → Stays (D.contents disk.old) (D.contents disk.new) }
    ensures cause { HasCauseAs IsDiskFault (D.fault_count disk.old) (D.fault_count disk.new) result }
    ensures bucket { result ≢ Err Fault.Bucket }
{
    let Ok(count) = disk.read_at(file, bytes.len() as u64, piece) else {
        return Err(Fault::Disk);
    };
    if bytes.extend_from_slice(&piece[..count]).is_err() {
        return Err(Fault::NoMemory);
    }
    Ok(())
}
