ghost use Rattle.std.specs.Prelude.{◌≡◌, ℕ, List, true, Some, Err, All, IfOk, IfSome, IsSome, IsSomeAnd, length, map};
ghost use Rattle.pb_catalog.specs.Catalog.{IsEntered};
ghost use Rattle.pb_devices.specs.Counts.{HasCauseAs};
ghost use Rattle.pb_devices.specs.DiskCalls.{Stays};
ghost use Rattle.pb_folder.specs.Held.{IsTableOf};
ghost use Rattle.pb_keys.specs.Span.{holds_key};
ghost use Rattle.pb_payloads.specs.Payloads.{standing_of};
ghost use Rattle.pb_payloads.specs.Places.{bytes_of, standing_name};
ghost use Rattle.pb_read.specs.Damage.{IsDamaged, IsMissing, place_name};
ghost use Rattle.pb_read.specs.Faults.{IsBucket, IsDisk};
ghost use Rattle.pb_read.specs.Tables.{AreStored, HasTable, IsByBounds};
ghost use Rattle.pb_rows.specs.Found.{as_verdict};
ghost use Rattle.pb_rows.specs.Layer.{KeyLayer};
ghost use Rattle.pb_rows.specs.Verdict.{verdict, verdicts};
ghost use Rattle.pb_rows.specs.Viewed.{viewed};
ghost use Rattle.pb_version.specs.Meaning.{layer_of_table};
ghost use Rattle.pb_version.specs.Stored.{backing_of};
ghost use Rattle.pb_virtual.specs.Shown.{IsShown};

use crate::ReadFault;
use crate::fault::of_whole;
use pb_catalog::Entry;
use pb_devices::{Bucket, Disk};
use pb_keys::{Bytes, Key};
use pb_names::{FileKind, Name, file, object};
use pb_provider::Provider;
use pb_rows::{Found, Layer};
use pb_version::Table;
use pb_virtual::VirtualTable;
use std::alloc::{AllocError, Global};

/// What these tables say of the key, the first that says something: None where none does, `Some(None)` for a deleted key.
pub(crate) fn look_in<D: Disk, B: Bucket>(
    alloc: Global,
    provider: &Provider,
    disk: &mut D,
    bucket: &mut B,
    tables: &[Table],
    key: &Key,
) -> Result<Option<Option<Bytes>>, ReadFault>
    requires { All IsByBounds tables.now }
    ensures found { D.told ≡ true → B.told ≡ true → (layers : ℕ → KeyLayer)
        → AreStored (D.contents disk.old).seen (B.objects bucket.old) provider.now.catalogue.entries layers tables.now
        → IfOk result (λ said. said ≡ verdicts (map (layer_of_table layers) tables.now) key.now) }
    ensures damaged { D.told ≡ true → B.told ≡ true → (name : List ℕ) → result ≡ Err (ReadFault.Damaged name)
        → HasTable (IsDamaged (D.contents disk.old).seen (B.objects bucket.old) provider.now.catalogue.entries name) key.now tables.now }
    ensures missing { B.told ≡ true → (name : List ℕ) → result ≡ Err (ReadFault.Missing name)
        → HasTable (IsMissing (B.objects bucket.old) provider.now.catalogue.entries name) key.now tables.now }
    ensures stays { D.told ≡ true → Stays (D.contents disk.old) (D.contents disk.new) }
    ensures kept { B.told ≡ true → B.objects bucket.new ≡ B.objects bucket.old }
    ensures disk_cause { HasCauseAs IsDisk (D.fault_count disk.old) (D.fault_count disk.new) result }
    ensures bucket_cause { HasCauseAs IsBucket (B.fault_count bucket.old) (B.fault_count bucket.new) result }
{
    for table in tables {
        match ask(alloc, provider, disk, bucket, table, key) {
            Ok(None) => {}
            Ok(Some(answer)) => return Ok(Some(answer)),
            Err(fault) => return Err(fault),
        }
    }
    Ok(None)
}

/// What a table says of the key. Its bytes are read only where its bounds hold the key.
fn ask<D: Disk, B: Bucket>(
    alloc: Global,
    provider: &Provider,
    disk: &mut D,
    bucket: &mut B,
    table: &Table,
    key: &Key,
) -> Result<Option<Option<Bytes>>, ReadFault>
    requires { IsByBounds table.now }
    ensures found { D.told ≡ true → B.told ≡ true → (layer : KeyLayer)
        → IsSomeAnd (bytes_of (D.contents disk.old).seen (B.objects bucket.old) provider.now.catalogue.entries table.now.backing) (IsTableOf table.now.size layer)
        → IfOk result (λ said. said ≡ verdict (viewed table.now.view layer) key.now) }
    ensures damaged { D.told ≡ true → B.told ≡ true → (name : List ℕ) → result ≡ Err (ReadFault.Damaged name)
        → (holds_key table.now.view.bounds key.now ≡ true) × IsDamaged (D.contents disk.old).seen (B.objects bucket.old) provider.now.catalogue.entries name (backing_of table.now) }
    ensures missing { B.told ≡ true → (name : List ℕ) → result ≡ Err (ReadFault.Missing name)
        → (holds_key table.now.view.bounds key.now ≡ true) × IsMissing (B.objects bucket.old) provider.now.catalogue.entries name (backing_of table.now) }
    ensures stays { D.told ≡ true → Stays (D.contents disk.old) (D.contents disk.new) }
    ensures kept { B.told ≡ true → B.objects bucket.new ≡ B.objects bucket.old }
    ensures disk_cause { HasCauseAs IsDisk (D.fault_count disk.old) (D.fault_count disk.new) result }
    ensures bucket_cause { HasCauseAs IsBucket (B.fault_count bucket.old) (B.fault_count bucket.new) result }
{
    if !table.view.bounds.contains(key) {
        return Ok(None);
    }
    match read_layer(alloc, provider, disk, bucket, table) {
        Ok(layer) => match answer_of(alloc, layer.get(key)) {
            Ok(answer) => Ok(answer),
            Err(_) => Err(ReadFault::NoMemory),
        },
        Err(fault) => Err(fault),
    }
}

/// What the table shows of its backing, whose bytes are read up to the kept size.
fn read_layer<D: Disk, B: Bucket>(
    alloc: Global,
    provider: &Provider,
    disk: &mut D,
    bucket: &mut B,
    table: &Table,
) -> Result<Layer, ReadFault>
    requires { IsByBounds table.now }
    ensures shown { D.told ≡ true → B.told ≡ true → (layer : KeyLayer)
        → IsSomeAnd (bytes_of (D.contents disk.old).seen (B.objects bucket.old) provider.now.catalogue.entries table.now.backing) (IsTableOf table.now.size layer)
        → IfOk result (λ shown. shown ≡ viewed table.now.view layer) }
    ensures damaged { D.told ≡ true → B.told ≡ true → (name : List ℕ) → result ≡ Err (ReadFault.Damaged name)
        → IsDamaged (D.contents disk.old).seen (B.objects bucket.old) provider.now.catalogue.entries name (backing_of table.now) }
    ensures missing { B.told ≡ true → (name : List ℕ) → result ≡ Err (ReadFault.Missing name)
        → IsMissing (B.objects bucket.old) provider.now.catalogue.entries name (backing_of table.now) }
    ensures stays { D.told ≡ true → Stays (D.contents disk.old) (D.contents disk.new) }
    ensures kept { B.told ≡ true → B.objects bucket.new ≡ B.objects bucket.old }
    ensures disk_cause { HasCauseAs IsDisk (D.fault_count disk.old) (D.fault_count disk.new) result }
    ensures bucket_cause { HasCauseAs IsBucket (B.fault_count bucket.old) (B.fault_count bucket.new) result }
{
    match provider.read_whole(alloc, disk, bucket, table.backing, table.size) {
        Ok(bytes) => match layer_of(alloc, table, bytes.as_slice()) {
            Ok(Some(layer)) => Ok(layer),
            Ok(None) => Err(ReadFault::Damaged(place_of(provider, table.backing))),
            Err(_) => Err(ReadFault::NoMemory),
        },
        Err(error) => Err(of_whole(error)),
    }
}

/// What the table shows of the layer that these bytes spell; None where they are no table of the kept size.
fn layer_of(alloc: Global, table: &Table, bytes: &[u8]) -> Result<Option<Layer>, AllocError>
    requires { IsByBounds table.now }
    ensures exact { (layer : KeyLayer) → IsTableOf table.now.size layer bytes.now
        → IfOk result (λ found. found ≡ Some (viewed table.now.view layer)) }
    ensures sized { IfOk result (λ found. IsSome found → length bytes.now ≡ table.now.size) }
    ensures shown { IfOk result (λ found. IfSome found (IsShown table.now.view bytes.now)) }
{
    if bytes.len() as u64 != table.size {
        return Ok(None);
    }
    let view = table.view.copy(alloc)?;
    let found = VirtualTable::new(view).layer(alloc, bytes)?;
    Ok(found)
}

/// A value of its own of what was found.
pub(crate) fn answer_of(
    alloc: Global,
    found: Found<'_>,
) -> Result<Option<Option<Bytes>>, AllocError>
    ensures { IfOk result (λ said. said ≡ as_verdict found.entry) }
{
    match found {
        Found::Value(bytes) => {
            let value = Bytes::new(alloc, bytes)?;
            Ok(Some(Some(value)))
        }
        Found::Deleted => Ok(Some(None)),
        Found::Absent => Ok(None),
    }
}

/// The name under which a number's bytes stand: its object's, or its table file's.
fn place_of(provider: &Provider, number: u64) -> Name
    ensures { result ≡ place_name provider.now.catalogue.entries number }
{
    match provider.entry(number) {
        None => file(FileKind::Table, number),
        Some(entry) => name_of(number, &entry),
    }
}

/// The name of an entry's object.
fn name_of(number: u64, entry: &Entry) -> Name
    requires { IsEntered (number, standing_of entry.now) }
    ensures { result ≡ standing_name (standing_of entry.now) }
{
    match entry {
        Entry::Shared(id) => object(id),
        Entry::External(_) => unreachable!(),
    }
}
