ghost use Rattle.std.specs.Prelude.{◌≡◌, ◌<◌, ◌↔◌, IsNone, IfSome, length, take};
ghost use Rattle.pb_bytes.specs.BigEndian.{be32, be64, number_of};

use byteorder::{BigEndian, ByteOrder};

/// The four bytes of a number, the highest first (docs/FORMATS.md, "Numbers and fields").
#[tactic(auto, unfolding(crate::specs::BigEndian::be32))]
pub fn be32(value: u32) -> [u8; 4]
    ensures { result ≡ be32 value }
{
    let mut bytes = [0; 4];
    BigEndian::write_u32(&mut bytes, value);
    bytes
}

/// The eight bytes of a number, the highest first.
#[tactic(auto, unfolding(crate::specs::BigEndian::be64))]
pub fn be64(value: u64) -> [u8; 8]
    ensures { result ≡ be64 value }
{
    let mut bytes = [0; 8];
    BigEndian::write_u64(&mut bytes, value);
    bytes
}

/// The number that the first four bytes spell, or None where there are fewer.
pub fn read_be32(from: &[u8]) -> Option<u32>
    ensures short { IsNone result ↔ (length from.now < 4) }
    ensures found { IfSome result (λ value. take 4 from.now ≡ be32 value) }
    ensures number { IfSome result (λ value. value ≡ number_of (take 4 from.now)) }
{
    if from.len() < 4 {
        return None;
    }
    Some(BigEndian::read_u32(from))
}

/// The number that the first eight bytes spell, or None where there are fewer.
pub fn read_be64(from: &[u8]) -> Option<u64>
    ensures short { IsNone result ↔ (length from.now < 8) }
    ensures found { IfSome result (λ value. take 8 from.now ≡ be64 value) }
    ensures number { IfSome result (λ value. value ≡ number_of (take 8 from.now)) }
{
    if from.len() < 8 {
        return None;
    }
    Some(BigEndian::read_u64(from))
}
