ghost use Rattle.std.specs.Prelude.{ℕ, ◌≡◌, ◌<◌, ◌^◌, ◌++◌, List, IfNone, IfSome, length, option_map};
ghost use Rattle.pb_bytes.specs.Number.{IsNumber};
ghost use Rattle.pb_bytes.specs.Reading.{varint_split, field_split, number_split};
ghost use Rattle.pb_bytes.specs.Varint.{varint, field};

use crate::{NUMBERS, read_field, read_varint};

/// The number whose varint begins these bytes, and what stands behind it. None where no varint does
/// (docs/FORMATS.md, "Numbers and fields").
pub fn split_varint(from: &[u8]) -> Option<(u64, &[u8])>
    ensures found { IfSome result (λ split. from.now ≡ varint split.0 ++ split.1.now) }
    ensures below { IfSome result (λ split. split.0 < 2 ^ 64) }
    ensures none { IfNone result ((value : ℕ) (rest : List ℕ) → value < 2 ^ 64 → from.now ≡ varint value ++ rest → ⊥) }

    // The same as a function of the bytes.
    ensures exact { option_map (λ split. (split.0, split.1.now)) result ≡ varint_split from.now }
{
    let (value, used) = read_varint(from)?;
    let (_, rest) = from.split_at(used);
    Some((value, rest))
}

/// The content of the field that begins these bytes, and what stands behind it. None where no field does
/// (docs/FORMATS.md, "Numbers and fields").
pub fn split_field(from: &[u8]) -> Option<(&[u8], &[u8])>
    ensures found { IfSome result (λ split. from.now ≡ field split.0.now ++ split.1.now) }
    ensures short { IfSome result (λ split. length split.0.now < 2 ^ 64) }
    ensures none { IfNone result ((bytes rest : List ℕ) → from.now ≡ field bytes ++ rest → ⊥) }

    // The same as a function of the bytes.
    ensures exact { option_map (λ split. (split.0.now, split.1.now)) result ≡ field_split from.now }
{
    let (bytes, used) = read_field(from)?;
    let (_, rest) = from.split_at(used);
    Some((bytes, rest))
}

/// The number below 2^62 whose varint begins these bytes, and what stands behind it. None where no such varint does
/// (docs/FORMATS.md, "Numbers and fields").
pub fn split_number(from: &[u8]) -> Option<(u64, &[u8])>
    ensures found { IfSome result (λ split. from.now ≡ varint split.0 ++ split.1.now) }
    ensures below { IfSome result (λ split. IsNumber split.0) }
    ensures none { IfNone result ((number : ℕ) (rest : List ℕ) → IsNumber number → from.now ≡ varint number ++ rest → ⊥) }

    // The same as a function of the bytes.
    ensures exact { option_map (λ split. (split.0, split.1.now)) result ≡ number_split from.now }
{
    let (number, rest) = split_varint(from)?;
    if number >= NUMBERS {
        return None;
    }
    Some((number, rest))
}
