// Catalogues of the store 1 in the file 2 of a disk in memory, as tests open and change them.
ghost use Rattle.std.specs.Prelude.{◌≡◌, ◌<◌, ◌^◌, true, IfOk, IfSome};
ghost use Rattle.pb_catalog.specs.Catalog.{EachCatalogue, IsEntered};
ghost use Rattle.pb_mem.specs.Disk.{held};
ghost use Rattle.pb_payloads.specs.Payloads.{standing_of};

use super::files::{catalogue_2, new_disk, put};
use super::plain::Answer;
use pb_catalog::{Catalog, CatalogError, Entry};
use pb_devices::{Disk, Fault};
use pb_mem::MemDisk;
use pb_names::ObjectId;
use std::alloc::{AllocError, Global};
use std::process::Abort;
use std::test::Fail;

/// Opens the catalogue behind a barrier: two calls, and those of the opening. None where the file isn't there.
pub(crate) fn reopened(alloc: Global, disk: &mut MemDisk) -> Result<Option<Catalog>, CatalogError>
    ensures { IfOk result (λ found. IfSome found (λ catalog. EachCatalogue catalog (held disk.new))) }
{
    let name = catalogue_2();
    let Ok(len) = disk.len(name.as_str()) else {
        return Err(CatalogError::Disk);
    };
    let Ok(()) = disk.barrier() else {
        return Err(CatalogError::Disk);
    };
    if len.is_none() {
        return Ok(None);
    }
    let catalog = Catalog::open(alloc, disk, name, 1)?;
    Ok(Some(catalog))
}

/// The entries in the order in which they stand.
pub(crate) fn listed(alloc: Global, catalog: &Catalog) -> Result<Vec<(u64, Entry)>, AllocError> {
    let mut entries = Vec::new(alloc);
    for place in 0..catalog.len() {
        add_at(&mut entries, catalog, place)?;
    }
    Ok(entries)
}

fn add_at(
    entries: &mut Vec<(u64, Entry)>,
    catalog: &Catalog,
    place: usize,
) -> Result<(), AllocError> {
    if let Some(entry) = catalog.at(place) {
        entries.push(entry)?;
    }
    Ok(())
}

/// What an opening answers of the file as it stands.
pub(crate) fn answered(alloc: Global, disk: &mut MemDisk) -> Result<Answer, Fail> {
    match reopened(alloc, disk) {
        Ok(found) => {
            let catalog = found.ok_or("no file")?;
            let entries = listed(alloc, &catalog)?;
            Ok(Ok(entries))
        }
        Err(error) => Ok(Err(error)),
    }
}

/// Asserts that openings of a file of these bytes answer so, the first and a second behind it.
pub(crate) fn assert_answers(
    rt: &impl Abort,
    alloc: Global,
    file: &[u8],
    wanted: &Answer,
) -> Result<(), Fail> {
    let mut disk = new_disk(alloc);
    put(rt, &mut disk, catalogue_2(), file)?;
    let first = answered(alloc, &mut disk)?;
    assert!(rt; first == *wanted, "{file:?}");
    let second = answered(alloc, &mut disk)?;
    assert!(rt; second == *wanted, "{file:?}, once more");
    Ok(())
}

/// The object of store 1 with the number.
pub(crate) fn own(number: u64) -> Entry
    ensures { number < 2 ^ 62 → IsEntered (number, standing_of result) }
{
    Entry::Shared(ObjectId { creator: 1, number })
}

/// Each of these numbers with the object of store 1 that has it.
pub(crate) fn own_entries(alloc: Global, numbers: &[u64]) -> Result<Vec<(u64, Entry)>, AllocError> {
    let mut entries = Vec::new(alloc);
    for number in numbers {
        entries.push((*number, own(*number)))?;
    }
    Ok(entries)
}

/// The file of a log of these payloads, each shorter than 256 bytes.
pub(crate) fn log_of(alloc: Global, payloads: &[&[u8]]) -> Result<Vec<u8>, AllocError> {
    let mut file = Vec::new(alloc);
    for payload in payloads {
        file.extend_from_slice(&[1, 0, 0, 0, (payload.len() % 256) as u8])?;
        file.extend_from_slice(payload)?;
    }
    file.push(0)?;
    Ok(file)
}

/// The catalogue that a file of these payloads has, on a disk of its own.
pub(crate) fn catalogue_of(
    rt: &impl Abort,
    alloc: Global,
    payloads: &[&[u8]],
) -> Result<Catalog, Fail> {
    let file = log_of(alloc, payloads)?;
    let mut disk = new_disk(alloc);
    put(rt, &mut disk, catalogue_2(), &file)?;
    let found = reopened(alloc, &mut disk)?;
    let catalog = found.ok_or("no file")?;
    Ok(catalog)
}

/// Enters the store's own object under its number. False where the disk failed.
pub(crate) fn enters(
    rt: &impl Abort,
    alloc: Global,
    disk: &mut MemDisk,
    catalog: &mut Catalog,
    number: u64,
) -> Result<bool, Fail>
    requires number { number < 2 ^ 62 }
    requires kept { EachCatalogue catalog.old (held disk.old) }
    ensures { IfOk result (λ done. done ≡ true → EachCatalogue catalog.new (held disk.new)) }
{
    assert!(rt; catalog.entry(number).is_none());
    match catalog.intend(alloc, disk, number, own(number)) {
        Ok(()) => Ok(true),
        Err(fault) => {
            assert_eq!(rt; fault, Fault::Disk);
            Ok(false)
        }
    }
}

/// Drops the entry of a number. False where the disk failed.
pub(crate) fn drops(
    rt: &impl Abort,
    alloc: Global,
    disk: &mut MemDisk,
    catalog: &mut Catalog,
    number: u64,
) -> Result<bool, Fail>
    requires { EachCatalogue catalog.old (held disk.old) }
    ensures { IfOk result (λ done. done ≡ true → EachCatalogue catalog.new (held disk.new)) }
{
    assert!(rt; catalog.entry(number).is_some());
    match catalog.drop_entry(alloc, disk, number) {
        Ok(()) => Ok(true),
        Err(fault) => {
            assert_eq!(rt; fault, Fault::Disk);
            Ok(false)
        }
    }
}
