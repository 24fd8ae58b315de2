ghost use Rattle.std.specs.Prelude.{ℕ, ◌≡◌, ◌≤◌, ◌++◌, List, IfNone, IfSome, OnErr, OnOk, length, take, option_map};
ghost use Rattle.pb_bytes.specs.Reading.{field_at};
ghost use Rattle.pb_bytes.specs.Varint.{field};

use crate::varint::{put_varint, read_varint};
use std::alloc::{AllocError, Global};

/// The content of the field that begins these bytes, and the length of the field with its varint;
/// bytes may follow it. None where no field does (docs/FORMATS.md, "Numbers and fields").
pub fn read_field(from: &[u8]) -> Option<(&[u8], usize)>
    ensures within { IfSome result (λ read. read.1 ≤ length from.now) }
    ensures found { IfSome result (λ read. take read.1 from.now ≡ field read.0.now) }
    ensures none { IfNone result ((bytes rest : List ℕ) → from.now ≡ field bytes ++ rest → ⊥) }

    // The same as a function of the bytes.
    ensures exact { option_map (λ read. (read.0.now, read.1)) result ≡ field_at from.now }
{
    let (len, used) = read_varint(from)?;
    let rest = &from[used..];
    if len > rest.len() as u64 {
        return None;
    }
    let len = len as usize;
    Some((&rest[..len], used + len))
}

/// Appends the field of these bytes. Without memory `out` is as before.
pub fn put_field(alloc: Global, out: &mut Vec<u8>, bytes: &[u8]) -> Result<(), AllocError>
    ensures ok { OnOk result (out.new.items ≡ out.old.items ++ field bytes.now) }
    ensures err { OnErr result (out.new.items ≡ out.old.items) }
{
    let before = out.len();
    put_varint(alloc, out, bytes.len() as u64)?;
    if let Err(error) = out.extend_from_slice(bytes) {
        // A length without its bytes would be no field.
        out.truncate(before);
        return Err(error);
    }
    Ok(())
}
