ghost use Rattle.std.specs.Prelude.{◌≡◌, ℕ, ◌<◌, List, map, IfNone, IfOk, IfSome};
ghost use Rattle.pb_folder_reader.specs.Left.{IsNext};
ghost use Rattle.pb_payloads.specs.Log.{LogEntry, SaysLog};
ghost use Rattle.pb_wal.specs.Changes.{entry_of};

use pb_keys::Bytes;
use pb_wal::Entry;
use std::alloc::{AllocError, Global};

/// The entries of a log. None exactly where it has none: a payload is no entry, or a count isn't above the one before, the
/// first above `flushed`.
pub(crate) fn log_of(
    alloc: Global,
    payloads: &[Bytes],
    flushed: u64,
) -> Result<Option<Vec<Entry>>, AllocError>
    ensures some { IfOk result (λ found. IfSome found (λ log. SaysLog flushed payloads.now (map entry_of log.items))) }
    ensures none { IfOk result (λ found. IfNone found ((log : List LogEntry) → SaysLog flushed payloads.now log → ⊥)) }
{
    let mut log = Vec::new(alloc);
    let mut last = flushed;
    for payload in payloads {
        let Some(entry) = next_entry(alloc, payload.as_slice(), last)? else {
            return Ok(None);
        };
        last = entry.count;
        log.push(entry)?;
    }
    Ok(Some(log))
}

/// The entry that a payload spells, if its count is above the last one.
fn next_entry(alloc: Global, payload: &[u8], last: u64) -> Result<Option<Entry>, AllocError>
    ensures some { IfOk result (λ found. IfSome found (λ entry. IsNext last payload.now (entry_of entry))) }
    ensures none { IfOk result (λ found. IfNone found ((entry : LogEntry) → IsNext last payload.now entry → ⊥)) }
{
    let Some(entry) = Entry::decode(alloc, payload)? else {
        return Ok(None);
    };
    if entry.count <= last {
        return Ok(None);
    }
    Ok(Some(entry))
}
