// A disk that is stopped after so many calls.
use pb_devices::{Disk, Failed, ListError};
use pb_mem::{MemDisk, StoppedDisk};
use std::alloc::Global;
use std::test::Fail;

/// A disk with a file `a` that holds two bytes, after four calls.
fn with_a_file(alloc: Global, calls: u64) -> Result<StoppedDisk<MemDisk>, Failed> {
    let mut disk = StoppedDisk::new(MemDisk::new(alloc, Vec::new(alloc), 0), calls);
    if disk.len("a")?.is_none() {
        disk.create("a")?;
    }
    if disk.len("a")?.is_some() {
        disk.write_at("a", 0, b"xy")?;
    }
    Ok(disk)
}

#[test]
fn so_many_calls_are_passed_on_and_each_later_one_fails(rt: HostRuntime) -> Result<(), Fail> {
    let alloc = rt.alloc();
    let mut disk = with_a_file(alloc, 4)?;
    assert_eq!(rt; disk.faults(), 0);
    assert_eq!(rt; disk.len("a"), Err(Failed));
    assert_eq!(rt; disk.read_at("a", 0, &mut [0u8; 2]), Err(Failed));
    assert!(rt; disk.list(alloc).is_err_and(|e| e == ListError::Failed));
    assert_eq!(rt; disk.sync("a"), Err(Failed));
    assert_eq!(rt; disk.barrier(), Err(Failed));
    assert_eq!(rt; disk.remove("a"), Err(Failed));
    assert_eq!(rt; disk.faults(), 6);

    let mut disk = disk.into_inner();
    assert_eq!(rt; disk.calls(), 4);
    assert_eq!(rt; disk.faults(), 0);
    let mut piece = [0u8; 4];
    assert_eq!(rt; disk.read_at("a", 0, &mut piece), Ok(2));
    assert_eq!(rt; piece, *b"xy\0\0");
    Ok(())
}

#[test]
fn a_power_cut_is_passed_on_from_a_stopped_disk(rt: HostRuntime) -> Result<(), Fail> {
    let mut disk = with_a_file(rt.alloc(), 4)?;
    assert_eq!(rt; disk.barrier(), Err(Failed), "the fifth call");
    disk.power();
    assert_eq!(rt;
        disk.into_inner().len("a"),
        Ok(None),
        "no barrier was passed on"
    );
    Ok(())
}

#[test]
fn a_disk_stopped_twice_stops_at_the_lesser_number(rt: HostRuntime) -> Result<(), Fail> {
    let alloc = rt.alloc();
    for (within, around) in [(3, 5), (5, 3)] {
        let disk = StoppedDisk::new(MemDisk::new(alloc, Vec::new(alloc), 0), within);
        let mut disk = StoppedDisk::new(disk, around);
        for call in 1..7 {
            let failed = disk.len("a").is_err();
            assert_eq!(rt; failed, call > 3, "call {call} of {within} and {around}");
        }
        assert_eq!(rt; disk.faults(), 3);
        let disk = disk.into_inner();
        assert_eq!(rt; disk.faults(), around - 3);
        assert_eq!(rt; disk.into_inner().calls(), 3);
    }
    Ok(())
}
