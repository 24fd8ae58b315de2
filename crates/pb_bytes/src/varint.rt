ghost use Rattle.std.specs.Prelude.{ℕ, ◌≡◌, ◌<◌, ◌≤◌, ◌^◌, ◌++◌, List, IfNone, IfSome, OnErr, OnOk, length, take};
ghost use Rattle.pb_bytes.specs.Reading.{varint_at};
ghost use Rattle.pb_bytes.specs.Varint.{varint};

use std::alloc::{AllocError, Global};

/// Numbers, ranks, sizes and counts stand below this.
pub const NUMBERS: u64 = 1 << 62;

/// The longest varint, in bytes.
const MAX_VARINT: usize = 10;

/// The number whose varint begins these bytes, and the length of the varint; bytes may follow it.
/// None where no varint does: the bytes end before a last group, the last of several groups is 0,
/// or the number is 2^64 or more (docs/FORMATS.md, "Numbers and fields").
pub fn read_varint(from: &[u8]) -> Option<(u64, usize)>
    ensures within { IfSome result (λ read. read.1 ≤ length from.now) }
    ensures found { IfSome result (λ read. take read.1 from.now ≡ varint read.0) }
    ensures none { IfNone result ((value : ℕ) (rest : List ℕ) → value < 2 ^ 64
        → from.now ≡ varint value ++ rest → ⊥) }

    // The same as a function of the bytes.
    ensures exact { result ≡ varint_at from.now }
{
    read_groups(from)
}

fn read_groups(from: &[u8]) -> Option<(u64, usize)>
    ensures { result ≡ varint_at from.now }
{
    let mut value = 0;
    let mut scale = 1;
    for place in 0..MAX_VARINT - 1 {
        let group = u64::from(*from.get(place)?);
        if group < 128 {
            if group == 0 && place > 0 {
                return None;
            }
            return Some((value + group * scale, place + 1));
        }
        value += (group - 128) * scale;
        scale *= 128;
    }
    // Nine groups have 63 bits, so the tenth is the last bit alone.
    let last = *from.get(MAX_VARINT - 1)?;
    if last != 1 {
        return None;
    }
    Some((value + scale, MAX_VARINT))
}

/// Appends the varint of a number. Without memory the bytes are as before.
pub fn put_varint(_alloc: Global, out: &mut Vec<u8>, value: u64) -> Result<(), AllocError>
    ensures ok { OnOk result (out.new.items ≡ out.old.items ++ varint value) }
    ensures err { OnErr result (out.new.items ≡ out.old.items) }
{
    let (bytes, len) = spell(value);
    out.extend_from_slice(&bytes[..len])?;
    Ok(())
}

// The varint is the first bytes of the array, as many as the number says.
fn spell(value: u64) -> ([u8; MAX_VARINT], usize)
    ensures within { result.1 ≤ MAX_VARINT }
    ensures spelled { take result.1 result.0 ≡ varint value }
{
    let mut bytes = [0; MAX_VARINT];
    let mut len = 0;
    let mut rest = value;
    while rest >= 128 {
        bytes[len] = (128 + rest % 128) as u8;
        rest /= 128;
        len += 1;
    }
    bytes[len] = rest as u8;
    (bytes, len + 1)
}
