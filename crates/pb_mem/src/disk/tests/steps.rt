//! Drawn calls of a disk in memory and of the plain one, compared call by call.
use super::plain::PlainDisk;
use crate::disk::MemDisk;
use crate::draws::Draws;
use pb_devices::{Disk, ListError};
use std::alloc::Global;
use std::process::Abort;
use std::test::Fail;

/// The disk, the plain one beside it, and what is drawn.
#[derive(Drop)]
struct Pair {
    disk: MemDisk,
    plain: PlainDisk,
    draws: Draws,
    alloc: Global,
}

fn name_of(at: usize) -> &'static str {
    match at {
        0 => "a",
        1 => "ab",
        _ => "b",
    }
}

/// Two calls: the length, and the creation where there is no such file.
fn create(rt: &impl Abort, pair: &mut Pair, at: usize) -> Result<(), Fail> {
    let name = name_of(at);
    let len = pair.disk.len(name);
    assert!(rt; pair.plain.len(at) == len, "a length");
    if let Ok(None) = len {
        let made = pair.disk.create(name);
        assert!(rt; pair.plain.create(at) == made, "a creation");
    }
    Ok(())
}

/// Two calls: the length, and a write that begins within the file.
fn write(rt: &impl Abort, pair: &mut Pair, at: usize) -> Result<(), Fail> {
    let drawn = pair.draws.below(9);
    let count = pair.draws.below(6);
    let bytes = pair.draws.bytes(pair.alloc, count)?;
    let name = name_of(at);
    let len = pair.disk.len(name);
    assert!(rt; pair.plain.len(at) == len, "a length");
    if let Ok(Some(len)) = len {
        let place = u64::from(drawn).min(len);
        let written = pair.disk.write_at(name, place, &bytes);
        assert!(rt;
            pair.plain.write(at, place as usize, &bytes)? == written,
            "a write"
        );
    }
    Ok(())
}

/// Reads the whole file, in one call.
fn read(rt: &impl Abort, pair: &mut Pair, at: usize) -> Result<(), Fail> {
    let mut piece = [0u8; 64];
    let count = pair.disk.read_at(name_of(at), 0, &mut piece);
    match (count, pair.plain.read(at)?) {
        (Ok(count), Ok(bytes)) => {
            assert!(rt; count <= 64, "a piece");
            assert_eq!(rt; &piece[..count], bytes.as_slice(), "name {at}");
        }
        (count, bytes) => assert!(rt; count.is_err() && bytes.is_err(), "a read"),
    }
    Ok(())
}

fn same_names(rt: &impl Abort, names: &[String], places: &[usize]) {
    assert_eq!(rt; names.len(), places.len(), "names");
    for (i, name) in names.iter().enumerate() {
        assert_eq!(rt; name.as_str(), name_of(places[i]));
    }
}

/// The names, in one call.
fn list(rt: &impl Abort, pair: &mut Pair) -> Result<(), Fail> {
    let places = pair.plain.list()?;
    match pair.disk.list(pair.alloc) {
        Ok(names) => {
            assert!(rt; places.is_some(), "a list");
            if let Some(places) = places {
                same_names(rt, &names, &places);
            }
        }
        Err(error) => assert!(rt; error == ListError::Failed && places.is_none(), "a list"),
    }
    Ok(())
}

fn settle(rt: &impl Abort, pair: &mut Pair, at: usize) -> Result<(), Fail> {
    if pair.draws.below(3) == 0 {
        let settled = pair.disk.barrier();
        assert!(rt; pair.plain.barrier()? == settled, "a barrier");
        return Ok(());
    }
    let synced = pair.disk.sync(name_of(at));
    assert!(rt; pair.plain.sync(at)? == synced, "a sync");
    Ok(())
}

fn remove(rt: &impl Abort, pair: &mut Pair, at: usize) -> Result<(), Fail> {
    let removed = pair.disk.remove(name_of(at));
    assert!(rt; pair.plain.remove(at) == removed, "a removal");
    Ok(())
}

/// Cuts the power, and then each file and the names are as those of the plain disk.
fn power(rt: &impl Abort, pair: &mut Pair) -> Result<(), Fail> {
    pair.disk.power();
    pair.plain.power()?;
    for at in 0..3 {
        read(rt, pair, at)?;
    }
    list(rt, pair)
}

fn step(rt: &impl Abort, pair: &mut Pair) -> Result<(), Fail> {
    let at = pair.draws.below(3) as usize;
    match pair.draws.below(16) {
        0..=2 => create(rt, pair, at),
        3..=7 => write(rt, pair, at),
        8..=10 => settle(rt, pair, at),
        11 => remove(rt, pair, at),
        12..=13 => read(rt, pair, at),
        14 => list(rt, pair),
        _ => power(rt, pair),
    }
}

/// Forty steps; about every sixth call fails.
fn compare(rt: &impl Abort, alloc: Global, seed: u32, pick: u64) -> Result<(), Fail> {
    let mut draws = Draws::new(seed);
    let fail = draws.calls(alloc, 160)?;
    let plain = PlainDisk::new(alloc, fail.as_slice().to_vec(alloc)?, pick)?;
    let mut pair = Pair {
        disk: MemDisk::new(alloc, fail, pick),
        plain,
        draws,
        alloc,
    };
    for _ in 0..40 {
        step(rt, &mut pair)?;
    }
    power(rt, &mut pair)?;
    assert_eq!(rt;
        pair.disk.faults(),
        pair.plain.faults(),
        "seed {seed}, pick {pick}"
    );
    assert_eq!(rt;
        pair.disk.calls(),
        pair.plain.calls(),
        "seed {seed}, pick {pick}"
    );
    assert_eq!(rt; pair.disk.wants(), 0);
    Ok(())
}

#[test]
fn drawn_calls_leave_what_the_plain_disk_has(rt: HostRuntime) -> Result<(), Fail> {
    for pick in 0..6 {
        for seed in 0..60 {
            compare(&rt, rt.alloc(), seed, pick)?;
        }
    }
    Ok(())
}
