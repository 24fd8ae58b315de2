ghost use Rattle.std.specs.Prelude.{◌≤◌, drop, All, IfErr, IfNone, IfOk, IfSome, OnOk};
ghost use Rattle.pb_folder.specs.Held.{IsTableOf};
ghost use Rattle.pb_folder.specs.Listed.{folder_of, objects_of};
ghost use Rattle.pb_folder_reader.specs.AtFault.{AreTablesAtFault, IsKeptAtFault, IsPlaceAtFault, IsShownAtFault, IsTableAtFault};
ghost use Rattle.pb_folder_reader.specs.Faults.{IfDamaged};
ghost use Rattle.pb_folder_reader.specs.Tables.{AllShow, HasSome, IsBehind, Shows, ShowsAll};
ghost use Rattle.pb_payloads.specs.Places.{bytes_of};
ghost use Rattle.pb_rows.specs.Layer.{KeyLayer};
ghost use Rattle.pb_version.specs.Version.{flattened};

use super::entered::Entered;
use super::places::{bytes_of, place_of};
use super::shown::{Shown, shown_of};
use super::{Fault, File};
use pb_edit::Created;
use pb_names::{FileKind, file};
use pb_rows::Layer;
use pb_table::read_table;
use pb_version::{Table, Version};
use std::alloc::{AllocError, Global};

/// What each table of a version shows, in the version's order, where each table's backing and each backing has its bytes.
pub(crate) fn shown_by(
    alloc: Global,
    files: &[File],
    objects: &[File],
    entries: &[Entered],
    version: &Version,
) -> Result<Vec<Shown>, Fault>
    ensures ok { IfOk result (λ shown. ShowsAll (bytes_of (folder_of files.now) (objects_of objects.now) entries.now) version.now shown.items) }
    ensures err { IfErr result (λ fault. IfDamaged fault
        (AreTablesAtFault (folder_of files.now) (objects_of objects.now) entries.now version.now)) }
{
    let shown = shown_from(alloc, files, objects, entries, version, 0)?;
    let snapshot = version.snapshot(alloc)?;
    check_backings(alloc, files, objects, entries, snapshot.created.as_slice())?;
    Ok(shown)
}

/// What the tables of this level and of those behind it show.
fn shown_from(
    alloc: Global,
    files: &[File],
    objects: &[File],
    entries: &[Entered],
    version: &Version,
    level: u8,
) -> Result<Vec<Shown>, Fault>
    requires { level ≤ 7 }
    ensures ok { IfOk result (λ shown. AllShow (bytes_of (folder_of files.now) (objects_of objects.now) entries.now)
        (flattened (drop level version.now.levels)) shown.items) }
    ensures err { IfErr result (λ fault. IfDamaged fault
        (IsShownAtFault (folder_of files.now) (objects_of objects.now) entries.now (flattened (drop level version.now.levels)))) }
{
    let tables = version.tables(level);
    if level == 7 {
        return Ok(Vec::new(alloc));
    }
    let mut shown = shown_tables(alloc, files, objects, entries, tables)?;
    let mut deeper = shown_from(alloc, files, objects, entries, version, level + 1)?;
    if shown.append(&mut deeper).is_err() {
        return Err(Fault::NoMemory);
    }
    Ok(shown)
}

fn shown_tables(
    alloc: Global,
    files: &[File],
    objects: &[File],
    entries: &[Entered],
    tables: &[Table],
) -> Result<Vec<Shown>, Fault>
    ensures ok { IfOk result (λ shown. AllShow (bytes_of (folder_of files.now) (objects_of objects.now) entries.now) tables.now shown.items) }
    ensures err { IfErr result (λ fault. IfDamaged fault
        (IsShownAtFault (folder_of files.now) (objects_of objects.now) entries.now tables.now)) }
{
    let mut shown = Vec::new(alloc);
    for table in tables {
        let next = shown_table(alloc, files, objects, entries, table)?;
        if shown.push(next).is_err() {
            return Err(Fault::NoMemory);
        }
    }
    Ok(shown)
}

fn shown_table(
    alloc: Global,
    files: &[File],
    objects: &[File],
    entries: &[Entered],
    table: &Table,
) -> Result<Shown, Fault>
    ensures ok { IfOk result (λ shown. Shows (bytes_of (folder_of files.now) (objects_of objects.now) entries.now) table.now shown) }
    ensures err { IfErr result (λ fault. IfDamaged fault
        (IsTableAtFault (folder_of files.now) (objects_of objects.now) entries.now table.now)) }
{
    let layer = layer_of(alloc, files, objects, entries, table.backing, table.size)?;
    match shown_of(alloc, &table.view, &layer)? {
        Some(shown) => Ok(shown),
        None => Err(Fault::Damaged(file(FileKind::Table, table.backing))),
    }
}

fn check_backings(
    alloc: Global,
    files: &[File],
    objects: &[File],
    entries: &[Entered],
    backings: &[Created],
) -> Result<(), Fault>
    ensures ok { OnOk result (All (HasSome (bytes_of (folder_of files.now) (objects_of objects.now) entries.now)) backings.now) }
    ensures err { IfErr result (λ fault. IfDamaged fault
        (IsKeptAtFault (folder_of files.now) (objects_of objects.now) entries.now backings.now)) }
{
    for backing in backings {
        layer_of(alloc, files, objects, entries, backing.number, backing.size)?;
    }
    Ok(())
}

/// The layer that the bytes of a number spell, where they have this size.
fn layer_of(
    alloc: Global,
    files: &[File],
    objects: &[File],
    entries: &[Entered],
    number: u64,
    size: u64,
) -> Result<Layer, Fault>
    ensures ok { IfOk result (λ layer. IsBehind (bytes_of (folder_of files.now) (objects_of objects.now) entries.now) number size layer) }
    ensures err { IfErr result (λ fault. IfDamaged fault
        (IsPlaceAtFault (folder_of files.now) (objects_of objects.now) entries.now number size)) }
{
    let name = place_of(files, entries, number);
    let Some(bytes) = bytes_of(files, objects, entries, number) else {
        return Err(Fault::Damaged(name));
    };
    match table_of(alloc, bytes, size)? {
        Some(layer) => Ok(layer),
        None => Err(Fault::Damaged(name)),
    }
}

fn table_of(alloc: Global, bytes: &[u8], size: u64) -> Result<Option<Layer>, AllocError>
    ensures some { IfOk result (λ found. IfSome found (λ layer. IsTableOf size layer bytes.now)) }
    ensures none { IfOk result (λ found. IfNone found ((layer : KeyLayer) → IsTableOf size layer bytes.now → ⊥)) }
{
    if bytes.len() as u64 != size {
        return Ok(None);
    }
    let layer = read_table(alloc, bytes)?;
    Ok(layer)
}
