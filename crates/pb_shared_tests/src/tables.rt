// The files of tables that are made and removed, each device call failing in turn.
ghost use Rattle.std.specs.Prelude.{◌≡◌, None, OnOk};
ghost use Rattle.pb_payloads.specs.Places.{object_of};

use super::files::table;
use super::places::{no_version, provider_of};
use super::sweep::{Subject, sweep};
use pb_devices::Disk;
use pb_mem::{MemBucket, MemDisk};
use pb_provider::Provider;
use std::alloc::Global;
use std::process::Abort;
use std::test::Fail;

/// The bytes of the tables 4 and 5.
const FOUR: &[u8] = b"four";

const FIVE: &[u8] = b"five!";

/// The provider of a store without an entry, whose catalogue stands on a disk of its own.
fn provider(rt: &impl Abort, alloc: Global) -> Result<Provider, Fail> {
    let version = no_version(alloc);
    provider_of(rt, alloc, &[b"\x01\x01"], &version)
}

fn assert_unentered(rt: &impl Abort, provider: &Provider, number: u64) -> Result<(), Fail>
    ensures { OnOk result (object_of provider.now.catalogue.entries number ≡ None) }
{
    assert!(rt; provider.entry(number).is_none());
    Ok(())
}

/// Asks for the file of a table and makes it: five calls. False where the disk failed.
fn creates(
    rt: &impl Abort,
    disk: &mut MemDisk,
    provider: &mut Provider,
    number: u64,
    bytes: &[u8],
) -> Result<bool, Fail> {
    let name = table(number);
    let Ok(len) = disk.len(name.as_str()) else {
        return Ok(false);
    };
    assert!(rt; len.is_none());
    assert_unentered(rt, provider, number)?;
    let made = provider.create_local(disk, number, bytes);
    Ok(made.is_ok())
}

/// Whether the file of a table has exactly these bytes.
fn is_whole(
    alloc: Global,
    disk: &mut MemDisk,
    provider: &Provider,
    number: u64,
    bytes: &[u8],
) -> Result<bool, Fail> {
    let mut bucket = MemBucket::new(alloc, Vec::new(alloc));
    let mut found = [0; 8];
    let len = disk.len(table(number).as_str())?;
    let count = provider.read(disk, &mut bucket, number, 0, &mut found)?;
    Ok(len == Some(count as u64) && found.get(..count) == Some(bytes))
}

fn is_gone(disk: &mut MemDisk, number: u64) -> Result<bool, Fail> {
    Ok(disk.len(table(number).as_str())?.is_none())
}

struct Tables;

// The table 4 is asked for by call 1 and made by 2 to 5, the table 5 by 6 to 10, and 4 is removed by 11.
impl Subject for Tables {
    fn calls(&self) -> u8 {
        11
    }

    fn steps_before(&self, call: u8) -> usize {
        if call <= 5 {
            0
        } else if call <= 10 {
            1
        } else if call <= 11 {
            2
        } else {
            3
        }
    }

    fn drive<R: Abort>(&self, rt: &R, alloc: Global, disk: &mut MemDisk) -> Result<usize, Fail> {
        let mut provider = provider(rt, alloc)?;
        if !creates(rt, disk, &mut provider, 4, FOUR)? {
            return Ok(0);
        }
        if !creates(rt, disk, &mut provider, 5, FIVE)? {
            return Ok(1);
        }
        match provider.remove_local(disk, 4) {
            Ok(()) => Ok(3),
            Err(_) => Ok(2),
        }
    }

    // What was made is whole, and the table that was removed, or perhaps removed, is whole or has gone.
    fn judge<R: Abort>(
        &self,
        rt: &R,
        alloc: Global,
        disk: &mut MemDisk,
        done: usize,
    ) -> Result<(), Fail> {
        let provider = provider(rt, alloc)?;
        let four = is_whole(alloc, disk, &provider, 4, FOUR)?;
        let five = is_whole(alloc, disk, &provider, 5, FIVE)?;
        let gone = is_gone(disk, 4)?;
        assert!(rt; done < 1 || four || done > 1 && gone, "{done} done");
        assert!(rt; done < 2 || five, "{done} done");
        Ok(())
    }
}

#[test]
fn a_table_that_was_made_is_whole(rt: HostRuntime) -> Result<(), Fail> {
    sweep(&rt, rt.alloc(), &Tables)
}
