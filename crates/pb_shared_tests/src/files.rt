// Files of a disk in memory, as tests make and ask for them.
ghost use Rattle.std.specs.Prelude.{◌≡◌, ℕ, List, None, OnOk};
ghost use Rattle.pb_devices.specs.DiskCalls.{Stays};
ghost use Rattle.pb_mem.specs.Disk.{held};
ghost use Rattle.pb_names.specs.Spelling.{file_name};
ghost use Rattle.pb_names.specs.declared.file_kind.FileKind.TheVariants.{Catalogue, Table};

use pb_devices::Disk;
use pb_mem::MemDisk;
use pb_names::{FileKind, Name, file};
use std::alloc::Global;
use std::process::Abort;
use std::test::Fail;

pub(crate) fn catalogue_2() -> Name
    ensures { result ≡ file_name Catalogue 2 }
{
    file(FileKind::Catalogue, 2)
}

pub(crate) fn table(number: u64) -> Name
    ensures { result ≡ file_name Table number }
{
    file(FileKind::Table, number)
}

/// An empty folder, of which no call fails.
pub(crate) fn new_disk(alloc: Global) -> MemDisk {
    MemDisk::new(alloc, Vec::new(alloc), 0)
}

/// Asserts that a file isn't there: one call.
pub(crate) fn assert_absent(rt: &impl Abort, disk: &mut MemDisk, name: Name) -> Result<(), Fail>
    ensures absent { OnOk result ((held disk.new).seen name ≡ None) }
    ensures stays { Stays (held disk.old) (held disk.new) }
{
    assert!(rt; disk.len(name.as_str())?.is_none());
    Ok(())
}

/// Makes a file of these bytes, and settles the folder: four calls with the asking.
pub(crate) fn put(
    rt: &impl Abort,
    disk: &mut MemDisk,
    name: Name,
    bytes: &[u8],
) -> Result<(), Fail> {
    assert_absent(rt, disk, name)?;
    let file = name.as_str();
    disk.create(file)?;
    disk.write_at(file, 0, bytes)?;
    disk.barrier()?;
    Ok(())
}

/// Asserts that reads give these bytes of a file, at most eight: two calls.
pub(crate) fn assert_holds(
    rt: &impl Abort,
    disk: &mut MemDisk,
    name: Name,
    bytes: &[u8],
) -> Result<(), Fail> {
    let mut found = [0; 8];
    let len = disk.len(name.as_str())?;
    assert_eq!(rt; len, Some(bytes.len() as u64));
    let count = disk.read_at(name.as_str(), 0, &mut found)?;
    assert_eq!(rt; found.get(..count), Some(bytes));
    Ok(())
}
