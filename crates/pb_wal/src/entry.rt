ghost use Rattle.std.specs.Prelude.{◌≡◌, ◌↔◌, ◌<◌, ◌≤◌, ◌^◌, ◌++◌, OnOk, OnErr, IfOk, IfSome};
ghost use Rattle.std.specs.Option.{option_map};
ghost use Rattle.pb_payloads.specs.Log.{LogEntry, IsEntry, entry_spelling};
ghost use Rattle.pb_wal.specs.Changes.{HasShortValue, changing_of, entry_of, length_of_changing};
ghost use Rattle.pb_wal.specs.declared.entry.Change.TheVariants.{Set};

use crate::decode::read_change;
use crate::encode::put_entry;
use pb_bytes::split_number;
use pb_keys::{Bytes, Copies, Key, Span};
use std::alloc::{AllocError, Global};

/// A command that changes a map.
#[derive(Debug, Drop)]
pub enum Change {
    /// The key has this value, of at most 65,536 bytes where it stands in a log.
    Set(Key, Bytes),
    /// The key has no value.
    Del(Key),
    /// No key of the span has a value.
    DelRange(Span),
}

/// A command with the count of commands up to it.
#[derive(Debug, Drop)]
pub struct Entry {
    pub count: u64,
    pub change: Change,
}

impl Change {
    /// How many bytes its key and value have, or its ends: what a memtable counts of it.
    pub fn len(&self) -> u64
        ensures length { result ≡ length_of_changing (changing_of self.now) }
        ensures low { HasShortValue self.now → result ≤ 66560 }
    {
        match self {
            Change::Set(key, value) => {
                key.as_bytes().len() as u64 + value.as_slice().len() as u64
            }
            Change::Del(key) => key.as_bytes().len() as u64,
            Change::DelRange(span) => span.lo().len() as u64 + span.hi().len() as u64,
        }
    }

    /// Another value of the same command.
    pub fn copy(&self, alloc: Global) -> Result<Change, AllocError>
        ensures { IfOk result (λ copy. copy ≡ self.now) }
    {
        match self {
            Change::Set(key, value) => copy_of_set(alloc, key, value),
            Change::Del(key) => {
                let key = key.copy(alloc)?;
                Ok(Change::Del(key))
            }
            Change::DelRange(span) => {
                let span = span.copy(alloc)?;
                Ok(Change::DelRange(span))
            }
        }
    }
}

impl Copies for Change {
    fn copied(&self, alloc: Global) -> Result<Change, AllocError> {
        self.copy(alloc)
    }
}

fn copy_of_set(alloc: Global, key: &Key, value: &Bytes) -> Result<Change, AllocError>
    ensures { IfOk result (λ copy. copy ≡ Set key.now value.now) }
{
    let key = key.copy(alloc)?;
    let value = value.copy(alloc)?;
    Ok(Change::Set(key, value))
}

impl Entry {
    /// Appends the payload of a log that spells the entry (docs/FORMATS.md, "Log entries"). Without memory `out` is as
    /// before.
    pub fn encode(&self, alloc: Global, out: &mut Vec<u8>) -> Result<(), AllocError>
        requires low { self.now.count < 2 ^ 62 }
        requires short { HasShortValue self.now.change }
        ensures ok { OnOk result (out.new.items ≡ out.old.items ++ entry_spelling (entry_of self.now)) }
        ensures in_form { OnOk result (IsEntry (entry_of self.now)) }
        ensures err { OnErr result (out.new.items ≡ out.old.items) }
    {
        let before = out.len();
        if let Err(error) = put_entry(alloc, out, self) {
            // A part of an entry is none.
            out.truncate(before);
            return Err(error);
        }
        Ok(())
    }

    /// The entry that these bytes spell, from the first to the last. None exactly where they spell none.
    ///
    /// Each byte of a key, an end or a value is copied once. A length that the bytes claim is looked at before memory is
    /// taken for it, so no more is taken than the bytes are long.
    pub fn decode(alloc: Global, from: &[u8]) -> Result<Option<Entry>, AllocError>
        ensures some { IfOk result (λ found. IfSome found (λ entry. from.now ≡ entry_spelling (entry_of entry))) }
        ensures in_form { IfOk result (λ found. IfSome found (λ entry. IsEntry (entry_of entry))) }
        ensures none { (result ≡ Ok None) ↔ ((entry : LogEntry) → IsEntry entry → from.now ≡ entry_spelling entry → ⊥) }

        // The same of an entry that the caller knows.
        ensures exact { IfOk result (λ found. (entry : LogEntry) → IsEntry entry → from.now ≡ entry_spelling entry
            → option_map entry_of found ≡ Some entry) }
    {
        let Some((count, rest)) = split_number(from) else {
            return Ok(None);
        };
        let Some(change) = read_change(alloc, rest)? else {
            return Ok(None);
        };
        Ok(Some(Entry { count, change }))
    }
}
