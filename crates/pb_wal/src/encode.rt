ghost use Rattle.std.specs.Prelude.{◌≡◌, ◌++◌, ◌∷◌, OnOk, OnErr, length, take};
ghost use Rattle.pb_bytes.specs.Varint.{field};
ghost use Rattle.pb_payloads.specs.Log.{entry_spelling};
ghost use Rattle.pb_payloads.specs.Logged.{IsCommand, command_spelling};
ghost use Rattle.pb_wal.specs.Changes.{entry_of, logged_of, HasShortValue};

use crate::kinds::{DEL, DEL_RANGE, SET};
use crate::{Change, Entry};
use pb_bytes::{put_field, put_varint};
use std::alloc::{AllocError, Global};

/// Appends the entry's spelling. Without memory a part of it may stand behind what `out` held.
pub(crate) fn put_entry(alloc: Global, out: &mut Vec<u8>, entry: &Entry) -> Result<(), AllocError>
    ensures ok { OnOk result (out.new.items ≡ out.old.items ++ entry_spelling (entry_of entry.now)) }
    ensures in_form { HasShortValue entry.now.change → OnOk result (IsCommand (logged_of entry.now.change)) }
    ensures err { OnErr result (take (length out.old.items) out.new.items ≡ out.old.items) }
{
    put_varint(alloc, out, entry.count)?;
    put_change(alloc, out, &entry.change)?;
    Ok(())
}

fn put_change(alloc: Global, out: &mut Vec<u8>, change: &Change) -> Result<(), AllocError>
    ensures ok { OnOk result (out.new.items ≡ out.old.items ++ command_spelling (logged_of change.now)) }
    ensures in_form { HasShortValue change.now → OnOk result (IsCommand (logged_of change.now)) }
    ensures err { OnErr result (take (length out.old.items) out.new.items ≡ out.old.items) }
{
    match change {
        Change::Set(key, value) => put_two(alloc, out, SET, key.as_bytes(), value.as_slice()),
        Change::Del(key) => put_one(alloc, out, DEL, key.as_bytes()),
        Change::DelRange(span) => put_two(alloc, out, DEL_RANGE, span.lo(), span.hi()),
    }
}

fn put_two(
    alloc: Global,
    out: &mut Vec<u8>,
    kind: u8,
    first: &[u8],
    second: &[u8],
) -> Result<(), AllocError>
    ensures ok { OnOk result (out.new.items ≡ out.old.items ++ kind ∷ (field first.now ++ field second.now)) }
    ensures err { OnErr result (take (length out.old.items) out.new.items ≡ out.old.items) }
{
    put_one(alloc, out, kind, first)?;
    put_field(alloc, out, second)?;
    Ok(())
}

fn put_one(alloc: Global, out: &mut Vec<u8>, kind: u8, bytes: &[u8]) -> Result<(), AllocError>
    ensures ok { OnOk result (out.new.items ≡ out.old.items ++ kind ∷ field bytes.now) }
    ensures err { OnErr result (take (length out.old.items) out.new.items ≡ out.old.items) }
{
    out.push(kind)?;
    put_field(alloc, out, bytes)?;
    Ok(())
}
