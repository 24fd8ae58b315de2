// A store's parts: two devices in memory, where the bytes of numbers stand, tables and commands.
ghost use Rattle.std.specs.Prelude.{◌≡◌, None, IfOk, OnOk};
ghost use Rattle.pb_catalog.specs.Catalog.{EachCatalogue};
ghost use Rattle.pb_devices.specs.DiskCalls.{Stays};
ghost use Rattle.pb_mem.specs.Disk.{held};
ghost use Rattle.pb_payloads.specs.Places.{object_of};

use pb_catalog::{Catalog, Entry};
use pb_devices::Disk;
use pb_keys::{Bytes, Key};
use pb_mem::{MemBucket, MemDisk};
use pb_memtable::Memtable;
use pb_names::{FileKind, Name, ObjectId, file};
use pb_provider::Provider;
use pb_version::Version;
use pb_wal::{Change, Entry as Command};
use std::alloc::Global;
use std::process::Abort;
use std::test::Fail;

#[derive(Drop)]
pub(crate) struct Store {
    pub(crate) disk: MemDisk,
    pub(crate) bucket: MemBucket,
    pub(crate) provider: Provider,
    pub(crate) version: Version,
    pub(crate) memtable: Memtable,
}

/// The first edit, which reserves the numbers below 64.
pub(crate) const FIRST: &[u8] = b"\x01\0\x02\x40\x03\x03\x04\0\x05\x01";

/// The object 1/4.
pub(crate) const OBJECT: ObjectId = ObjectId {
    creator: 1,
    number: 4,
};

fn version_of(alloc: Global, edits: &[&[u8]]) -> Result<Version, Fail> {
    let mut payloads = Vec::new(alloc);
    for edit in edits {
        payloads.push(Bytes::new(alloc, edit)?)?;
    }
    let found = Version::of_payloads(alloc, payloads.as_slice())?;
    let version = found.ok_or("no version")?;
    Ok(version)
}

/// An empty folder, of which no call fails.
fn new_disk(alloc: Global) -> MemDisk {
    MemDisk::new(alloc, Vec::new(alloc), 0)
}

/// Asserts that a file isn't there: one call.
fn assert_absent(rt: &impl Abort, disk: &mut MemDisk, name: Name) -> Result<(), Fail>
    ensures absent { OnOk result ((held disk.new).seen name ≡ None) }
    ensures stays { Stays (held disk.old) (held disk.new) }
{
    assert!(rt; disk.len(name.as_str())?.is_none());
    Ok(())
}

/// The catalogue of store 1, in a folder that has none.
fn new_catalog(rt: &impl Abort, alloc: Global, disk: &mut MemDisk) -> Result<Catalog, Fail>
    ensures { IfOk result (λ catalog. EachCatalogue catalog (held disk.new)) }
{
    let name = file(FileKind::Catalogue, 2);
    assert_absent(rt, disk, name)?;
    let catalog = Catalog::create(alloc, disk, name, 1)?;
    Ok(catalog)
}

/// Enters the object 1/4 under 4.
fn enter(
    rt: &impl Abort,
    alloc: Global,
    disk: &mut MemDisk,
    catalog: &mut Catalog,
) -> Result<(), Fail>
    requires { EachCatalogue catalog.old (held disk.old) }
{
    assert!(rt; catalog.entry(4).is_none());
    catalog.intend(alloc, disk, 4, Entry::Shared(OBJECT))?;
    Ok(())
}

/// Where the bytes stand: with `shared` those of 4 are the object 1/4, else there is no entry. The catalogue has a disk of its own.
fn provider_of(
    rt: &impl Abort,
    alloc: Global,
    version: &Version,
    shared: bool,
) -> Result<Provider, Fail> {
    let mut disk = new_disk(alloc);
    let mut catalog = new_catalog(rt, alloc, &mut disk)?;
    if shared {
        enter(rt, alloc, &mut disk, &mut catalog)?;
    }
    assert_eq!(rt; catalog.id(), 1);
    let provider = Provider::new(alloc, 1, catalog, version)?;
    Ok(provider)
}

/// The store whose version these edits fold to, with no bytes behind its tables. With `shared` those of 4 are the object 1/4.
pub(crate) fn new_store(
    rt: &impl Abort,
    alloc: Global,
    edits: &[&[u8]],
    shared: bool,
) -> Result<Store, Fail> {
    let version = version_of(alloc, edits)?;
    let provider = provider_of(rt, alloc, &version, shared)?;
    Ok(Store {
        disk: new_disk(alloc),
        bucket: MemBucket::new(alloc, Vec::new(alloc)),
        provider,
        version,
        memtable: Memtable::new(alloc),
    })
}

fn assert_unentered(rt: &impl Abort, provider: &Provider, number: u64) -> Result<(), Fail>
    ensures { OnOk result (object_of provider.now.catalogue.entries number ≡ None) }
{
    assert!(rt; provider.entry(number).is_none());
    Ok(())
}

fn make_file(
    rt: &impl Abort,
    disk: &mut MemDisk,
    provider: &mut Provider,
    number: u64,
    bytes: &[u8],
) -> Result<(), Fail> {
    assert_absent(rt, disk, file(FileKind::Table, number))?;
    assert_unentered(rt, provider, number)?;
    provider.create_local(disk, number, bytes)?;
    Ok(())
}

/// Makes the table file of a number.
pub(crate) fn make_table(
    rt: &impl Abort,
    store: &mut Store,
    number: u64,
    bytes: &[u8],
) -> Result<(), Fail> {
    make_file(rt, &mut store.disk, &mut store.provider, number, bytes)
}

/// Makes these table files.
pub(crate) fn make_tables(
    rt: &impl Abort,
    store: &mut Store,
    tables: &[(u64, &[u8])],
) -> Result<(), Fail> {
    for (number, bytes) in tables {
        make_table(rt, store, *number, bytes)?;
    }
    Ok(())
}

/// Deletes a key in the memtable.
pub(crate) fn del(
    rt: &impl Abort,
    alloc: Global,
    memtable: &mut Memtable,
    key: &[u8],
) -> Result<(), Fail> {
    let command = Command {
        count: 1,
        change: Change::Del(Key::new(alloc, key)?),
    };
    assert!(rt; memtable.size() <= 1 << 62);
    memtable.reserve(alloc, &command)?;
    memtable.add(command);
    Ok(())
}
