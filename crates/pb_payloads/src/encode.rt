ghost use Rattle.std.specs.Prelude.{◌≡◌, ◌++◌, ◌∷◌, OnErr, OnOk, drop, length, take};
ghost use Rattle.pb_bytes.specs.Varint.{field, varint};
ghost use Rattle.pb_payloads.specs.Catalogued.{catalogued_spelling};
ghost use Rattle.pb_payloads.specs.Payloads.{catalogued_of, standing_of};
ghost use Rattle.pb_payloads.specs.Catalogued.Catalogued.{Entered};

use crate::kinds::{DROPPED, EXTERNAL, ID, SHARED};
use crate::{CataloguePayload, Entry};
use pb_bytes::{put_field, put_varint};
use pb_names::{Name, ObjectId};
use std::alloc::{AllocError, Global};

/// Appends a payload of a catalogue: docs/FORMATS.md, "Catalogue". Without memory `out` is as before.
pub fn put_catalogued(
    alloc: Global,
    out: &mut Vec<u8>,
    payload: &CataloguePayload,
) -> Result<(), AllocError>
    ensures ok { OnOk result (out.new.items ≡ out.old.items ++ catalogued_spelling (catalogued_of payload.now)) }
    ensures err { OnErr result (out.new.items ≡ out.old.items) }
{
    let before = out.len();
    if let Err(error) = put_payload(alloc, out, payload) {
        // A part of a payload is none.
        out.truncate(before);
        return Err(error);
    }
    Ok(())
}

fn put_payload(
    alloc: Global,
    out: &mut Vec<u8>,
    payload: &CataloguePayload,
) -> Result<(), AllocError>
    ensures ok { OnOk result (out.new.items ≡ out.old.items ++ catalogued_spelling (catalogued_of payload.now)) }
    ensures err { OnErr result (take (length out.old.items) out.new.items ≡ out.old.items) }
{
    match payload {
        CataloguePayload::Id(id) => put_one(alloc, out, ID, *id),
        CataloguePayload::Entered { number, entry } => put_entered(alloc, out, *number, entry),
        CataloguePayload::Dropped(number) => put_one(alloc, out, DROPPED, *number),
    }
}

fn put_entered(
    alloc: Global,
    out: &mut Vec<u8>,
    number: u64,
    entry: &Entry,
) -> Result<(), AllocError>
    ensures ok { OnOk result (out.new.items ≡ out.old.items ++ catalogued_spelling (Entered number (standing_of entry.now))) }
    ensures err { OnErr result (take (length out.old.items) out.new.items ≡ out.old.items) }
{
    match entry {
        Entry::Shared(object) => put_shared(alloc, out, number, object),
        Entry::External(name) => put_external(alloc, out, number, name),
    }
}

fn put_shared(
    alloc: Global,
    out: &mut Vec<u8>,
    number: u64,
    object: &ObjectId,
) -> Result<(), AllocError>
    ensures ok { OnOk result (out.new.items ≡ out.old.items ++ SHARED ∷ (varint number ++ varint object.now.creator ++ varint object.now.number)) }
    ensures err { OnErr result (take (length out.old.items) out.new.items ≡ out.old.items) }
{
    put_one(alloc, out, SHARED, number)?;
    put_varint(alloc, out, object.creator)?;
    put_varint(alloc, out, object.number)?;
    Ok(())
}

fn put_external(
    alloc: Global,
    out: &mut Vec<u8>,
    number: u64,
    name: &Name,
) -> Result<(), AllocError>
    ensures ok { OnOk result (out.new.items ≡ out.old.items ++ EXTERNAL ∷ (varint number ++ field (drop 2 name.now))) }
    ensures err { OnErr result (take (length out.old.items) out.new.items ≡ out.old.items) }
{
    put_one(alloc, out, EXTERNAL, number)?;
    put_field(alloc, out, behind_two(name.as_str().as_bytes()))?;
    Ok(())
}

fn behind_two(bytes: &[u8]) -> &[u8]
    ensures { result.now ≡ drop 2 bytes.now }
{
    if bytes.len() < 2 {
        return &[];
    }
    &bytes[2..]
}

fn put_one(alloc: Global, out: &mut Vec<u8>, kind: u8, number: u64) -> Result<(), AllocError>
    ensures ok { OnOk result (out.new.items ≡ out.old.items ++ kind ∷ varint number) }
    ensures err { OnErr result (take (length out.old.items) out.new.items ≡ out.old.items) }
{
    out.push(kind)?;
    put_varint(alloc, out, number)?;
    Ok(())
}
