// A catalogue at the size of the product.
ghost use Rattle.std.specs.Prelude.{IfOk, OnOk};
ghost use Rattle.pb_catalog.specs.Catalog.{EachCatalogue};
ghost use Rattle.pb_mem.specs.Disk.{held};

use super::catalogues::{drops, enters, listed, own, reopened};
use super::files::{assert_absent, catalogue_2, new_disk};
use pb_catalog::{Catalog, Entry};
use pb_devices::Disk;
use pb_mem::MemDisk;
use std::alloc::{AllocError, Global};
use std::process::Abort;
use std::test::Fail;

/// The first number of 4,096 entries.
const FIRST: u64 = 64;

/// The number behind the last.
const END: u64 = 4_160;

/// Makes a catalogue without an entry in a folder that has none.
fn created(rt: &impl Abort, alloc: Global, disk: &mut MemDisk) -> Result<Catalog, Fail>
    ensures { IfOk result (λ catalog. EachCatalogue catalog (held disk.new)) }
{
    assert_absent(rt, disk, catalogue_2())?;
    let catalog = Catalog::create(alloc, disk, catalogue_2(), 1)?;
    Ok(catalog)
}

fn enter_all(
    rt: &impl Abort,
    alloc: Global,
    disk: &mut MemDisk,
    catalog: &mut Catalog,
) -> Result<(), Fail>
    requires { EachCatalogue catalog.old (held disk.old) }
    ensures { OnOk result (EachCatalogue catalog.new (held disk.new)) }
{
    for number in FIRST..END {
        let done = enters(rt, alloc, disk, catalog, number)?;
        assert!(rt; done, "{number}");
    }
    Ok(())
}

/// The entries from a number on, each the store's own object under its number.
fn entries_from(alloc: Global, first: u64) -> Result<Vec<(u64, Entry)>, AllocError> {
    let mut entries = Vec::new(alloc);
    for number in first..END {
        entries.push((number, own(number)))?;
    }
    Ok(entries)
}

/// Opens the catalogue behind a power cut. It has the entries from a number on, in their order.
fn opened(rt: &impl Abort, alloc: Global, disk: &mut MemDisk, first: u64) -> Result<Catalog, Fail>
    ensures { IfOk result (λ catalog. EachCatalogue catalog (held disk.new)) }
{
    disk.power();
    let found = reopened(alloc, disk)?;
    let catalog = found.ok_or("no file")?;
    let entries = listed(alloc, &catalog)?;
    let wanted = entries_from(alloc, first)?;
    assert!(rt; entries == wanted, "from {first}");
    Ok(catalog)
}

#[test]
fn a_catalogue_of_4096_entries_opens_as_it_was_entered(rt: HostRuntime) -> Result<(), Fail> {
    let alloc = rt.alloc();
    let mut disk = new_disk(alloc);
    let mut catalog = created(&rt, alloc, &mut disk)?;
    enter_all(&rt, alloc, &mut disk, &mut catalog)?;
    assert_eq!(rt; catalog.len(), 4_096);
    let mut catalog = opened(&rt, alloc, &mut disk, FIRST)?;
    let done = drops(&rt, alloc, &mut disk, &mut catalog, FIRST)?;
    assert!(rt; done);
    let catalog = opened(&rt, alloc, &mut disk, FIRST + 1)?;
    assert_eq!(rt; catalog.entry(FIRST), None);
    Ok(())
}
