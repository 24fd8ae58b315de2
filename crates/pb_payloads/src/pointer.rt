ghost use Rattle.std.specs.Prelude.{◌≡◌, [], IfNone, IfOk, IfSome};
ghost use Rattle.pb_payloads.specs.Current.{Pointer, IsPointer, SaysCurrent, pointer_spelling, pointer_to};

use pb_bytes::{put_varint, split_number};
use pb_keys::Bytes;
use std::alloc::{AllocError, Global};

/// The payload of `CURRENT` that names this manifest and this catalogue: docs/FORMATS.md, "Current pointer".
pub fn spell_pointer(alloc: Global, manifest: u64, catalogue: u64) -> Result<Vec<u8>, AllocError>
    ensures { IfOk result (λ bytes. bytes.items ≡ pointer_spelling (pointer_to manifest catalogue)) }
{
    let mut bytes = Vec::new(alloc);
    put_varint(alloc, &mut bytes, manifest)?;
    put_varint(alloc, &mut bytes, catalogue)?;
    Ok(bytes)
}

/// The numbers of the manifest and of the catalogue that a payload of `CURRENT` names. None exactly where it names none.
pub fn read_pointer(from: &[u8]) -> Option<(u64, u64)>
    ensures form { IfSome result (λ read. IsPointer (pointer_to read.0 read.1)) }
    ensures some { IfSome result (λ read. from.now ≡ pointer_spelling (pointer_to read.0 read.1)) }
    ensures none { IfNone result ((pointer : Pointer) → IsPointer pointer → from.now ≡ pointer_spelling pointer → ⊥) }
{
    let Some((manifest, rest)) = split_number(from) else {
        return None;
    };
    let Some((catalogue, rest)) = split_number(rest) else {
        return None;
    };
    if !rest.is_empty() {
        return None;
    }
    Some((manifest, catalogue))
}

/// What the last of some payloads names. None exactly where it names none.
pub fn last_pointer(payloads: &[Bytes]) -> Option<(u64, u64)>
    requires { payloads.now ≡ [] → ⊥ }
    ensures some { IfSome result (λ read. SaysCurrent payloads.now (pointer_to read.0 read.1)) }
    ensures none { IfNone result ((pointer : Pointer) → SaysCurrent payloads.now pointer → ⊥) }
{
    let at = payloads.len() - 1;
    let last = &payloads[at];
    read_pointer(last.as_slice())
}
