ghost use Rattle.std.specs.Prelude.{◌≡◌, ◌++◌, ◌∷◌, ℕ, [], true, false, None, Some, Err, All, IfErr, IfNone, IfOk, IfSome};
ghost use Rattle.pb_catalog.specs.Catalog.{IsEntered};
ghost use Rattle.pb_catalog.specs.Entered.{entries_of};
ghost use Rattle.pb_catalog.specs.Found.{IsDamaged, IsOfAnother};
ghost use Rattle.pb_payloads.specs.Left.{ChangesTo, IsChange};
ghost use Rattle.pb_payloads.specs.Catalogue.{Entries, SaysCatalogue, entries_after, with_id};
ghost use Rattle.pb_payloads.specs.Catalogued.{Catalogued as said, IsCatalogued, catalogued_spelling};
ghost use Rattle.pb_payloads.specs.Payloads.{catalogued_of, standing_of};

use crate::CatalogError;
use crate::entries::{add, remove, stands};
use indexmap::IndexMap;
use pb_keys::Bytes;
use pb_payloads::{CataloguePayload, Entry, read_catalogued};
use std::alloc::{AllocError, Global};

/// What stands after the payloads of the catalogue of this store.
pub(crate) fn read_entries(
    alloc: Global,
    payloads: &[Bytes],
    id: u64,
) -> Result<IndexMap<u64, Entry>, CatalogError>
    ensures says { IfOk result (λ entries. SaysCatalogue payloads.now (with_id id (entries_of entries.entries))) }
    ensures in_form { IfOk result (λ entries. All IsEntered (entries_of entries.entries)) }
    ensures wrong { (other : ℕ) → result ≡ Err (CatalogError.WrongStore other) → IsOfAnother id other payloads.now }
    ensures damaged { result ≡ Err CatalogError.Damaged → IsDamaged id payloads.now }
    ensures pure { result ≡ Err CatalogError.Disk → ⊥ }
{
    let [first, rest @ ..] = payloads else {
        return Err(CatalogError::Damaged);
    };
    let Some(found) = id_of(first.as_slice()) else {
        return Err(CatalogError::Damaged);
    };
    if found != id {
        return Err(CatalogError::WrongStore(found));
    }
    match follow_all(alloc, rest) {
        Ok(Some(entries)) => Ok(entries),
        Ok(None) => Err(CatalogError::Damaged),
        Err(_) => Err(CatalogError::NoMemory),
    }
}

/// The id that a payload tells.
fn id_of(from: &[u8]) -> Option<u64>
    ensures some { IfSome result (λ id. from.now ≡ catalogued_spelling (said.Id id)) }
    ensures in_form { IfSome result (λ id. IsCatalogued (said.Id id)) }
    ensures none { IfNone result ((id : ℕ) → IsCatalogued (said.Id id) → from.now ≡ catalogued_spelling (said.Id id) → ⊥) }
{
    let Some(read) = read_catalogued(from) else {
        return None;
    };
    id_in(read)
}

fn id_in(read: CataloguePayload) -> Option<u64>
    ensures some { IfSome result (λ id. catalogued_of read ≡ said.Id id) }
    ensures none { IfNone result ((id : ℕ) → catalogued_of read ≡ said.Id id → ⊥) }
{
    match read {
        CataloguePayload::Id(id) => Some(id),
        CataloguePayload::Entered {
            number: _,
            entry: _,
        } => None,
        CataloguePayload::Dropped(_) => None,
    }
}

/// What stands after the payloads behind the id. None exactly where one of them is none, or isn't allowed.
fn follow_all(alloc: Global, payloads: &[Bytes]) -> Result<Option<IndexMap<u64, Entry>>, AllocError>
    ensures some { IfOk result (λ found. IfSome found (λ entries. ChangesTo [] payloads.now (entries_of entries.entries))) }
    ensures none { IfOk result (λ found. IfNone found ((entries : Entries) → ChangesTo [] payloads.now entries → ⊥)) }
{
    let mut entries = IndexMap::new(alloc);
    for payload in payloads {
        if !follow(&mut entries, payload.as_slice())? {
            return Ok(None);
        }
    }
    Ok(Some(entries))
}

/// Changes the entries as a payload says. False where it says nothing, or isn't allowed.
fn follow(entries: &mut IndexMap<u64, Entry>, payload: &[u8]) -> Result<bool, AllocError>
    ensures yes { IfOk result (λ done. done ≡ true
        → IsChange payload.now (entries_of entries.old.entries) (entries_of entries.new.entries)) }
    ensures no { IfOk result (λ done. done ≡ false
        → (new : Entries) → IsChange payload.now (entries_of entries.old.entries) new → ⊥) }
{
    let Some(read) = read_catalogued(payload) else {
        return Ok(false);
    };
    let done = change(entries, read)?;
    Ok(done)
}

fn change(entries: &mut IndexMap<u64, Entry>, read: CataloguePayload) -> Result<bool, AllocError>
    ensures yes { IfOk result (λ done. done ≡ true
        → entries_after (entries_of entries.old.entries) (catalogued_of read) ≡ Some (entries_of entries.new.entries)) }
    ensures no { IfOk result (λ done. done ≡ false → entries_after (entries_of entries.old.entries) (catalogued_of read) ≡ None) }
{
    match read {
        CataloguePayload::Id(_) => Ok(false),
        CataloguePayload::Entered { number, entry } => enter(entries, number, &entry),
        CataloguePayload::Dropped(number) => Ok(drop_standing(entries, number)),
    }
}

fn enter(entries: &mut IndexMap<u64, Entry>, number: u64, entry: &Entry) -> Result<bool, AllocError>
    ensures yes { IfOk result (λ done. done ≡ true
        → entries_after (entries_of entries.old.entries) (said.Entered number (standing_of entry.now)) ≡ Some (entries_of entries.new.entries)) }
    ensures no { IfOk result (λ done. done ≡ false
        → entries_after (entries_of entries.old.entries) (said.Entered number (standing_of entry.now)) ≡ None) }
{
    if stands(entries, number) {
        return Ok(false);
    }
    entries.reserve(1)?;
    add(entries, number, entry);
    Ok(true)
}

fn drop_standing(entries: &mut IndexMap<u64, Entry>, number: u64) -> bool
    ensures yes { result ≡ true
        → entries_after (entries_of entries.old.entries) (said.Dropped number) ≡ Some (entries_of entries.new.entries) }
    ensures no { result ≡ false → entries_after (entries_of entries.old.entries) (said.Dropped number) ≡ None }
{
    if !stands(entries, number) {
        return false;
    }
    remove(entries, number);
    true
}
