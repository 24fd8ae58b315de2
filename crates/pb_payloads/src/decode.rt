ghost use Rattle.std.specs.Prelude.{◌≡◌, ◌↔◌, ℕ, ◌<◌, ◌^◌, ◌++◌, IfNone, IfSome, IsTrue};
ghost use Rattle.pb_bytes.specs.Varint.{varint};
ghost use Rattle.pb_names.specs.Identity.{Identity, IsObject, IsStore};
ghost use Rattle.pb_payloads.specs.Catalogued.{Catalogued, IsCatalogued, catalogued_spelling};
ghost use Rattle.pb_payloads.specs.Contents.{IsBehind};
ghost use Rattle.pb_payloads.specs.Payloads.{catalogued_of};

use crate::kinds::{DROPPED, ID, SHARED};
use crate::{CataloguePayload, Entry};
use pb_bytes::{NUMBERS, split_number, split_varint};
use pb_names::ObjectId;

/// What a payload of a catalogue says. None exactly where the bytes, from the first to the last, spell none that a catalogue
/// may have: docs/FORMATS.md, "Catalogue". It takes no memory.
pub fn read_catalogued(from: &[u8]) -> Option<CataloguePayload>
    ensures some { IfSome result (λ read. from.now ≡ catalogued_spelling (catalogued_of read)) }
    ensures in_form { IfSome result (λ read. IsCatalogued (catalogued_of read)) }
    ensures none { IfNone result ((catalogued : Catalogued) → IsCatalogued catalogued → from.now ≡ catalogued_spelling catalogued → ⊥) }
{
    let [kind, rest @ ..] = from else {
        return None;
    };
    match *kind {
        ID => read_id(rest),
        SHARED => read_shared(rest),
        DROPPED => read_dropped(rest),
        _ => None,
    }
}

fn read_id(from: &[u8]) -> Option<CataloguePayload>
    ensures some { IfSome result (λ read. IsBehind ID from.now (catalogued_of read)) }
    ensures none { IfNone result ((catalogued : Catalogued) → IsBehind ID from.now catalogued → ⊥) }
{
    let Some(id) = last_varint(from) else {
        return None;
    };
    Some(CataloguePayload::Id(id))
}

fn read_shared(from: &[u8]) -> Option<CataloguePayload>
    ensures some { IfSome result (λ read. IsBehind SHARED from.now (catalogued_of read)) }
    ensures none { IfNone result ((catalogued : Catalogued) → IsBehind SHARED from.now catalogued → ⊥) }
{
    let Some((number, rest)) = split_number(from) else {
        return None;
    };
    let Some(object) = read_object(rest) else {
        return None;
    };
    Some(CataloguePayload::Entered {
        number,
        entry: Entry::Shared(object),
    })
}

fn read_dropped(from: &[u8]) -> Option<CataloguePayload>
    ensures some { IfSome result (λ read. IsBehind DROPPED from.now (catalogued_of read)) }
    ensures none { IfNone result ((catalogued : Catalogued) → IsBehind DROPPED from.now catalogued → ⊥) }
{
    let Some(number) = last_number(from) else {
        return None;
    };
    Some(CataloguePayload::Dropped(number))
}

/// The shared object whose creator and number these bytes are.
fn read_object(from: &[u8]) -> Option<ObjectId>
    ensures some { IfSome result (λ object. from.now ≡ varint object.creator ++ varint object.number) }
    ensures in_form { IfSome result (λ object. IsObject object) }
    ensures none { IfNone result ((object : Identity) → IsObject object → from.now ≡ varint object.creator ++ varint object.number → ⊥) }
{
    let Some((creator, rest)) = split_number(from) else {
        return None;
    };
    let Some(number) = last_number(rest) else {
        return None;
    };
    if !is_store(creator) {
        return None;
    }
    Some(ObjectId { creator, number })
}

fn is_store(creator: u64) -> bool
    ensures { IsTrue result ↔ IsStore creator }
{
    (1..=8).contains(&creator)
}

/// The number below 2^62 whose varint these bytes are.
fn last_number(from: &[u8]) -> Option<u64>
    ensures some { IfSome result (λ number. from.now ≡ varint number) }
    ensures low { IfSome result (λ number. number < 2 ^ 62) }
    ensures none { IfNone result ((number : ℕ) → number < 2 ^ 62 → from.now ≡ varint number → ⊥) }
{
    let Some(number) = last_varint(from) else {
        return None;
    };
    if number >= NUMBERS {
        return None;
    }
    Some(number)
}

/// The number whose varint these bytes are.
fn last_varint(from: &[u8]) -> Option<u64>
    ensures some { IfSome result (λ number. from.now ≡ varint number) }
    ensures fits { IfSome result (λ number. number < 2 ^ 64) }
    ensures none { IfNone result ((number : ℕ) → number < 2 ^ 64 → from.now ≡ varint number → ⊥) }
{
    let Some((number, rest)) = split_varint(from) else {
        return None;
    };
    if !rest.is_empty() {
        return None;
    }
    Some(number)
}
