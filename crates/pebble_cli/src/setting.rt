ghost use Rattle.std.specs.Prelude.{◌≡◌, ◌<◌, ◌^◌, ◌++◌, ◌∷◌, IfSome, IfNone, IfOk, List, ℕ, length};
ghost use Rattle.pb_bytes.specs.Varint.{varint};
ghost use Rattle.pebble_cli.specs.Settings.{Set, IsSet, payload_of};

use pb_bytes::{put_field, put_varint, split_field, split_number};
use std::alloc::{AllocError, Global};

/// Counts stand below this.
pub const COUNTS: u64 = 1 << 62;

/// The kind of an entry that sets a key.
const SET: u8 = 1;

/// A command as the log keeps it: the count that it made, its key and its value.
#[derive(Clone, Copy, Debug)]
pub struct Setting<'a> {
    pub count: u64,
    pub key: &'a [u8],
    pub value: &'a [u8],
}

/// The payload of a command.
pub fn spell_setting(alloc: Global, setting: &Setting<'_>) -> Result<Vec<u8>, AllocError>
    ensures { IfOk result (λ payload. payload.items
        ≡ payload_of (record { count = setting.now.count; key = setting.now.key.now; value = setting.now.value.now })) }
{
    let mut payload = Vec::new(alloc);
    put_varint(alloc, &mut payload, setting.count)?;
    payload.push(SET)?;
    put_field(alloc, &mut payload, setting.key)?;
    put_field(alloc, &mut payload, setting.value)?;
    Ok(payload)
}

/// The command that a payload spells, `None` where it spells none.
pub fn read_setting(payload: &[u8]) -> Option<Setting<'_>>
    ensures found { IfSome result (λ s. payload.now ≡ payload_of (record { count = s.count; key = s.key.now; value = s.value.now })) }
    ensures below { IfSome result (λ s. s.count < 2 ^ 62) }
    ensures short { IfSome result (λ s. (length s.key.now < 2 ^ 64) × (length s.value.now < 2 ^ 64)) }
    ensures none { IfNone result ((set : Set) → IsSet set → payload.now ≡ payload_of set → ⊥) }
{
    let (count, rest) = count_at(payload)?;
    let (key, rest) = split_field(rest)?;
    let (value, rest) = split_field(rest)?;
    if !rest.is_empty() {
        return None;
    }
    Some(Setting { count, key, value })
}

// The count and the kind that begin a payload, and what stands behind them.
fn count_at(payload: &[u8]) -> Option<(u64, &[u8])>
    ensures found { IfSome result (λ read. payload.now ≡ varint read.0 ++ 1 ∷ read.1.now) }
    ensures below { IfSome result (λ read. read.0 < 2 ^ 62) }
    ensures none { IfNone result ((count : ℕ) (rest : List ℕ) → count < 2 ^ 62 → payload.now ≡ varint count ++ 1 ∷ rest → ⊥) }
{
    let (count, behind) = split_number(payload)?;
    let (kind, rest) = behind.split_first()?;
    if *kind != SET {
        return None;
    }
    Some((count, rest))
}
