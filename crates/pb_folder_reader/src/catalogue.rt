ghost use Rattle.std.specs.Prelude.{◌≡◌, [], true, false, None, Some, IfNone, IfOk, IfSome};
ghost use Rattle.pb_payloads.specs.Left.{ChangesTo, IsChange};
ghost use Rattle.pb_payloads.specs.Catalogued.{Catalogued as said, IsCatalogued, catalogued_spelling};
ghost use Rattle.pb_payloads.specs.Catalogued.Standing.{Shared};
ghost use Rattle.pb_payloads.specs.Catalogue.{Entries, SaysCatalogue, entries_after, with_id};
ghost use Rattle.pb_payloads.specs.Payloads.{catalogued_of, standing_of};

use super::entered::{Entered, drop_number, stands_under};
use pb_keys::Bytes;
use pb_names::ObjectId;
use pb_payloads::{CataloguePayload, Entry, read_catalogued};
use std::alloc::{AllocError, Global};

/// What stands after the payloads of a catalogue. None exactly where they say no catalogue of this id.
pub(crate) fn entries_of(
    alloc: Global,
    payloads: &[Bytes],
    id: u64,
) -> Result<Option<Vec<Entered>>, AllocError>
    ensures some { IfOk result (λ found. IfSome found (λ entries. SaysCatalogue payloads.now (with_id id entries.items))) }
    ensures none { IfOk result (λ found. IfNone found ((entries : Entries) → SaysCatalogue payloads.now (with_id id entries) → ⊥)) }
{
    let [first, rest @ ..] = payloads else {
        return Ok(None);
    };
    if !spells_id(first.as_slice(), id) {
        return Ok(None);
    }
    let entries = changed_by(alloc, rest)?;
    Ok(entries)
}

/// Whether a payload tells this id.
fn spells_id(from: &[u8], id: u64) -> bool
    ensures yes { result ≡ true → from.now ≡ catalogued_spelling (said.Id id) }
    ensures no { result ≡ false → from.now ≡ catalogued_spelling (said.Id id) → ⊥ }
{
    let Some(read) = read_catalogued(from) else {
        return false;
    };
    is_id(read, id)
}

fn is_id(read: CataloguePayload, id: u64) -> bool
    ensures yes { result ≡ true → catalogued_of read ≡ said.Id id }
    ensures no { result ≡ false → catalogued_of read ≡ said.Id id → ⊥ }
{
    match read {
        CataloguePayload::Id(found) => found == id,
        CataloguePayload::Entered {
            number: _,
            entry: _,
        } => false,
        CataloguePayload::Dropped(_) => false,
    }
}

/// What stands after the payloads behind the id. None exactly where one of them is none, or isn't allowed.
fn changed_by(alloc: Global, payloads: &[Bytes]) -> Result<Option<Vec<Entered>>, AllocError>
    ensures some { IfOk result (λ found. IfSome found (λ entries. ChangesTo [] payloads.now entries.items)) }
    ensures none { IfOk result (λ found. IfNone found ((entries : Entries) → ChangesTo [] payloads.now entries → ⊥)) }
{
    let mut entries = Vec::new(alloc);
    for payload in payloads {
        if !follow(&mut entries, payload.as_slice())? {
            return Ok(None);
        }
    }
    Ok(Some(entries))
}

/// Changes the entries as a payload says. False where it says nothing, or isn't allowed.
fn follow(entries: &mut Vec<Entered>, payload: &[u8]) -> Result<bool, AllocError>
    ensures yes { IfOk result (λ done. done ≡ true → IsChange payload.now entries.old.items entries.new.items) }
    ensures no { IfOk result (λ done. done ≡ false → (new : Entries) → IsChange payload.now entries.old.items new → ⊥) }
{
    let Some(read) = read_catalogued(payload) else {
        return Ok(false);
    };
    let done = change(entries, read)?;
    Ok(done)
}

fn change(entries: &mut Vec<Entered>, read: CataloguePayload) -> Result<bool, AllocError>
    requires { IsCatalogued (catalogued_of read) }
    ensures yes { IfOk result (λ done. done ≡ true → entries_after entries.old.items (catalogued_of read) ≡ Some entries.new.items) }
    ensures no { IfOk result (λ done. done ≡ false → entries_after entries.old.items (catalogued_of read) ≡ None) }
{
    match read {
        CataloguePayload::Id(_) => Ok(false),
        CataloguePayload::Entered { number, entry } => enter(entries, number, entry),
        CataloguePayload::Dropped(number) => Ok(drop_standing(entries, number)),
    }
}

fn enter(entries: &mut Vec<Entered>, number: u64, entry: Entry) -> Result<bool, AllocError>
    requires { IsCatalogued (said.Entered number (standing_of entry)) }
    ensures yes { IfOk result (λ done. done ≡ true
        → entries_after entries.old.items (said.Entered number (standing_of entry)) ≡ Some entries.new.items) }
    ensures no { IfOk result (λ done. done ≡ false → entries_after entries.old.items (said.Entered number (standing_of entry)) ≡ None) }
{
    match entry {
        Entry::Shared(object) => enter_shared(entries, number, object),
        Entry::External(_) => unreachable!(),
    }
}

fn enter_shared(
    entries: &mut Vec<Entered>,
    number: u64,
    object: ObjectId,
) -> Result<bool, AllocError>
    requires { IsCatalogued (said.Entered number (Shared object)) }
    ensures yes { IfOk result (λ done. done ≡ true
        → entries_after entries.old.items (said.Entered number (Shared object)) ≡ Some entries.new.items) }
    ensures no { IfOk result (λ done. done ≡ false → entries_after entries.old.items (said.Entered number (Shared object)) ≡ None) }
{
    if stands_under(entries, number) {
        return Ok(false);
    }
    entries.push(Entered { number, object })?;
    Ok(true)
}

fn drop_standing(entries: &mut Vec<Entered>, number: u64) -> bool
    ensures yes { result ≡ true → entries_after entries.old.items (said.Dropped number) ≡ Some entries.new.items }
    ensures no { result ≡ false → entries_after entries.old.items (said.Dropped number) ≡ None }
{
    if !stands_under(entries, number) {
        return false;
    }
    drop_number(entries, number);
    true
}
