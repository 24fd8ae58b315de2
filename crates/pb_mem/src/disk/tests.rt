mod plain;
mod steps;

use super::*;
use std::process::Abort;
use std::test::Fail;

/// Two calls: the length, and the creation where there is no such file.
fn make(disk: &mut MemDisk, file: &str) -> Result<(), Failed> {
    match disk.len(file)? {
        None => disk.create(file),
        Some(_) => Ok(()),
    }
}

/// Two calls: the length, and the write where it begins within the file.
fn write(disk: &mut MemDisk, file: &str, at: u64, bytes: &[u8]) -> Result<(), Failed> {
    match disk.len(file)? {
        None => Ok(()),
        Some(len) => {
            if at <= len {
                disk.write_at(file, at, bytes)
            } else {
                Ok(())
            }
        }
    }
}

fn expect_file(
    rt: &impl Abort,
    disk: &mut MemDisk,
    file: &str,
    bytes: &[u8],
) -> Result<(), Failed> {
    let mut piece = [0u8; 16];
    let count = disk.read_at(file, 0, &mut piece)?;
    assert_eq!(rt; &piece[..count], bytes);
    Ok(())
}

/// A file of which four bytes are durable, and the last two and two more are pending.
fn pending(alloc: Global, fail: Vec<u64>, pick: u64) -> Result<MemDisk, Failed> {
    let mut disk = MemDisk::new(alloc, fail, pick);
    make(&mut disk, "a")?;
    write(&mut disk, "a", 0, b"abcd")?;
    disk.sync("a")?;
    disk.barrier()?;
    write(&mut disk, "a", 2, b"XYZW")?;
    Ok(disk)
}

#[test]
fn a_power_cut_leaves_the_image_of_the_pick(rt: HostRuntime) -> Result<(), Fail> {
    let alloc = rt.alloc();
    let images: [&[u8]; 4] = [
        b"abcd",
        b"abXYZW",
        &[97, 98, 96, 113, 130, 147],
        &[97, 98, 127, 144],
    ];
    for (pick, image) in images.iter().enumerate() {
        let mut disk = pending(alloc, Vec::new(alloc), pick as u64)?;
        expect_file(&rt, &mut disk, "a", b"abXYZW")?;
        disk.power();
        expect_file(&rt, &mut disk, "a", image)?;
        disk.power();
        expect_file(&rt, &mut disk, "a", image)?;
    }
    Ok(())
}

#[test]
fn a_barrier_makes_durable_what_a_failed_sync_did_not(rt: HostRuntime) -> Result<(), Fail> {
    let alloc = rt.alloc();
    let mut disk = pending(alloc, [9].to_vec(alloc)?, 0)?;
    assert_eq!(rt; disk.sync("a"), Err(Failed), "call 9");
    disk.barrier()?;
    disk.power();
    expect_file(&rt, &mut disk, "a", b"abXYZW")?;
    assert_eq!(rt; disk.faults(), 1);
    assert_eq!(rt; disk.wants(), 0);
    Ok(())
}

#[test]
fn creations_and_removals_without_a_barrier_happen_by_the_pick(
    rt: HostRuntime,
) -> Result<(), Fail> {
    let alloc = rt.alloc();
    for (pick, happens) in [(0, false), (1, true), (2, true), (3, false)] {
        let mut disk = MemDisk::new(alloc, Vec::new(alloc), pick);
        make(&mut disk, "old")?;
        disk.barrier()?;
        make(&mut disk, "new")?;
        disk.sync("new")?;
        disk.remove("old")?;
        disk.power();
        assert_eq!(rt; disk.len("new")?.is_some(), happens, "pick {pick}");
        assert_eq!(rt; disk.len("old")?.is_none(), happens, "pick {pick}");
        let names = disk.list(alloc).map_err(|_| "a list")?;
        assert_eq!(rt; names.len(), 1, "pick {pick}");
    }
    Ok(())
}

#[test]
fn a_creation_or_removal_that_fails_happens_by_the_pick(rt: HostRuntime) -> Result<(), Fail> {
    let alloc = rt.alloc();
    for (pick, happens) in [(0, false), (1, true), (2, true), (3, false)] {
        let mut disk = MemDisk::new(alloc, [4, 5].to_vec(alloc)?, pick);
        make(&mut disk, "old")?;
        assert_eq!(rt; make(&mut disk, "new"), Err(Failed), "call 4, pick {pick}");
        assert_eq!(rt; disk.remove("old"), Err(Failed), "call 5, pick {pick}");
        assert_eq!(rt; disk.len("new")?.is_some(), happens, "pick {pick}");
        assert_eq!(rt; disk.len("old")?.is_none(), happens, "pick {pick}");
        disk.barrier()?;
        disk.power();
        assert_eq!(rt; disk.len("new")?.is_some(), happens, "pick {pick}");
        assert_eq!(rt; disk.len("old")?.is_none(), happens, "pick {pick}");
        assert_eq!(rt; disk.faults(), 2, "pick {pick}");
        assert_eq!(rt; disk.wants(), 0, "pick {pick}");
    }
    Ok(())
}

#[test]
fn a_list_fails_at_its_number(rt: HostRuntime) -> Result<(), Fail> {
    let alloc = rt.alloc();
    let mut disk = MemDisk::new(alloc, [2].to_vec(alloc)?, 0);
    assert!(rt;
        disk.list(alloc).is_ok_and(|names| names.is_empty()),
        "call 1"
    );
    assert!(rt;
        disk.list(alloc).is_err_and(|e| e == ListError::Failed),
        "call 2"
    );
    assert_eq!(rt; disk.calls(), 2);
    assert_eq!(rt; disk.faults(), 1);
    Ok(())
}

#[test]
fn a_failed_write_leaves_what_the_pick_says(rt: HostRuntime) -> Result<(), Fail> {
    let alloc = rt.alloc();
    let seen: [&[u8]; 4] = [
        b"abXYZW",
        b"abXYZWcd",
        &[97, 98, 88, 89, 90, 87, 164, 181],
        &[97, 98, 88, 89, 90, 87, 195, 212],
    ];
    for (pick, bytes) in seen.iter().enumerate() {
        let mut disk = pending(alloc, [10].to_vec(alloc)?, pick as u64)?;
        assert_eq!(rt; write(&mut disk, "a", 6, b"cd"), Err(Failed), "call 10");
        expect_file(&rt, &mut disk, "a", bytes)?;
    }
    Ok(())
}

#[test]
fn a_disk_goes_on_with_another_list(rt: HostRuntime) -> Result<(), Fail> {
    let alloc = rt.alloc();
    let mut disk = pending(alloc, [9].to_vec(alloc)?, 1)?;
    assert_eq!(rt; disk.barrier(), Err(Failed), "call 9");
    let mut disk = disk.again(Vec::new(alloc), 0);
    assert_eq!(rt; disk.calls(), 9);
    assert_eq!(rt; disk.faults(), 1);
    disk.power();
    expect_file(&rt, &mut disk, "a", b"abcd")?;
    assert_eq!(rt; disk.read_at("b", 0, &mut [0u8; 4]), Ok(0));
    disk.remove("b")?;
    Ok(())
}
