ghost use Rattle.std.specs.Prelude.{◌≡◌, ℕ, ◌++◌, List, IfNone, IfSome};
ghost use Rattle.pb_bytes.specs.Varint.{field};

use pb_bytes::split_field;

/// The contents of the two fields that these bytes are.
pub(crate) fn read_two(from: &[u8]) -> Option<(&[u8], &[u8])>
    ensures found { IfSome result (λ read. from.now ≡ field read.0.now ++ field read.1.now) }
    ensures none { IfNone result ((first second : List ℕ) → from.now ≡ field first ++ field second → ⊥) }
{
    let (first, rest) = split_field(from)?;
    let second = read_last(rest)?;
    Some((first, second))
}

/// The content of the field that these bytes are; nothing stands behind it.
pub(crate) fn read_last(from: &[u8]) -> Option<&[u8]>
    ensures found { IfSome result (λ read. from.now ≡ field read.now) }
    ensures none { IfNone result ((content : List ℕ) → from.now ≡ field content → ⊥) }
{
    let (content, rest) = split_field(from)?;
    if !rest.is_empty() {
        return None;
    }
    Some(content)
}
