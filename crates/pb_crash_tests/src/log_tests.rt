ghost use Rattle.std.specs.Prelude.{◌≡◌, [], ◌∷◌, IfOk};
ghost use Rattle.pb_gate_log.specs.EachLog.{EachHas};
ghost use Rattle.pb_mem.specs.Disk.{held};
ghost use Rattle.pb_names.specs.Spelling.{file_name};
ghost use Rattle.pb_names.specs.declared.file_kind.FileKind.TheVariants.{Log};

use super::sweep::{Subject, run_whole, sweep};
use super::{appended, damaged, len_after, new_disk, one_append, reopened};
use pb_devices::{Disk, Fault};
use pb_keys::Bytes;
use pb_mem::MemDisk;
use pb_names::{FileKind, Name, file};
use std::alloc::Global;
use std::process::Abort;
use std::test::Fail;

const PAYLOADS: [&[u8]; 3] = [b"ab", b"", b"c"];

fn log_3() -> Name
    ensures { result ≡ file_name Log 3 }
{
    file(FileKind::Log, 3)
}

/// The first so many payloads.
fn payloads(alloc: Global, count: usize) -> Result<Vec<Bytes>, Fail> {
    let mut payloads = Vec::new(alloc);
    for payload in PAYLOADS.iter().take(count) {
        let payload = Bytes::new(alloc, payload)?;
        payloads.push(payload)?;
    }
    Ok(payloads)
}

/// Asserts that an opening finds the first so many payloads, and gives their number.
fn found(rt: &impl Abort, alloc: Global, disk: &mut MemDisk) -> Result<usize, Fail> {
    let (_log, found) = reopened(alloc, disk, log_3())?;
    assert!(rt; found.len() <= PAYLOADS.len());
    for (at, payload) in found.iter().enumerate() {
        assert_eq!(rt; payload.as_slice(), PAYLOADS[at], "payload {at}");
    }
    Ok(found.len())
}

// A creation is calls 1 to 4, `ab` is 5 to 10, the empty payload 11 to 15, and `c` 16 to 21.
struct Appends;

impl Subject for Appends {
    fn calls(&self) -> u8 {
        21
    }

    fn steps_before(&self, call: u8) -> usize {
        if call <= 10 {
            0
        } else if call <= 15 {
            1
        } else if call <= 21 {
            2
        } else {
            3
        }
    }

    fn drive<R: Abort>(&self, rt: &R, alloc: Global, disk: &mut MemDisk) -> Result<usize, Fail> {
        let payloads = payloads(alloc, 3)?;
        Ok(appended(disk, log_3(), &payloads))
    }

    fn judge<R: Abort>(
        &self,
        rt: &R,
        alloc: Global,
        disk: &mut MemDisk,
        done: usize,
    ) -> Result<(), Fail> {
        let found = found(rt, alloc, disk)?;
        assert!(rt;
            found == done || found == done.saturating_add(1),
            "{done} done and {found} found"
        );
        Ok(())
    }
}

#[test]
fn a_failing_append_leaves_the_old_list_or_the_new(rt: HostRuntime) -> Result<(), Fail> {
    sweep(&rt, rt.alloc(), &Appends)
}

/// An opening of a file of these bytes.
#[derive(Drop)]
struct Opens<'a> {
    bytes: &'a [u8],
    /// The payloads that it finds.
    found: usize,
    /// Its device calls.
    opening: u8,
}

// The file is made by calls 1 to 3. A barrier is 4, 5 asks whether the file is there, and then it is opened.
impl Subject for Opens<'_> {
    fn calls(&self) -> u8 {
        5 + self.opening % 16
    }

    fn steps_before(&self, call: u8) -> usize {
        if call <= 3 {
            0
        } else if call <= self.calls() {
            1
        } else {
            2
        }
    }

    fn drive<R: Abort>(&self, rt: &R, alloc: Global, disk: &mut MemDisk) -> Result<usize, Fail> {
        let Ok(()) = damaged(disk, log_3(), self.bytes) else {
            return Ok(0);
        };
        match reopened(alloc, disk, log_3()) {
            Ok(_) => Ok(2),
            Err(fault) => {
                assert_eq!(rt; fault, Fault::Disk);
                Ok(1)
            }
        }
    }

    fn judge<R: Abort>(
        &self,
        rt: &R,
        alloc: Global,
        disk: &mut MemDisk,
        done: usize,
    ) -> Result<(), Fail> {
        if done == 0 {
            return Ok(());
        }
        let (_log, payloads) = reopened(alloc, disk, log_3())?;
        assert_eq!(rt; payloads.len(), self.found);
        Ok(())
    }
}

const DAMAGES: [Opens<'static>; 7] = [
    Opens {
        bytes: b"\x01\0\0\0\x02ab\x00\0\0\0\x01c\0",
        found: 1,
        opening: 2,
    },
    Opens {
        bytes: b"\x01\0\0\0\x02ab\x01\0\0\0\x01c\0",
        found: 2,
        opening: 2,
    },
    Opens {
        bytes: b"\x01\0\0\0\x02ab\x02\0\0\0\x01c\0",
        found: 1,
        opening: 6,
    },
    Opens {
        bytes: b"\x01\0\0\0\x02ab\xff\0\0\0\x01c\0",
        found: 1,
        opening: 6,
    },
    Opens {
        bytes: b"\x01\0\0\0\x02ab\x01\0\0\0\x09c\0",
        found: 1,
        opening: 4,
    },
    Opens {
        bytes: b"\x01\0\0\0\x02ab\x07",
        found: 1,
        opening: 6,
    },
    Opens {
        bytes: b"\x01\0\0\0\x02ab",
        found: 0,
        opening: 4,
    },
];

#[test]
fn opening_keeps_the_list_of_a_damaged_file(rt: HostRuntime) -> Result<(), Fail> {
    for damage in &DAMAGES {
        sweep(&rt, rt.alloc(), damage)?;
    }
    Ok(())
}

/// A log of one payload: this front, then as many bytes in all as `len`, and this gate behind them.
fn long_log(alloc: Global, front: &[u8], len: usize, gate: u8) -> Result<Vec<u8>, Fail> {
    let mut bytes = Vec::from_slice(alloc, front)?;
    bytes.resize(len, b'a')?;
    bytes.push(gate)?;
    Ok(bytes)
}

#[test]
fn a_log_above_65536_bytes_takes_one_read_more(rt: HostRuntime) -> Result<(), Fail> {
    let full = b"\x01\0\0\xff\xfa".as_slice();
    let longer = b"\x01\0\0\xff\xfb".as_slice();
    for (front, len, gate, opening) in [
        (full, 65_535, 0, 2),
        (full, 65_535, 1, 4),
        (full, 65_535, 7, 6),
        (longer, 65_536, 0, 3),
        (longer, 65_536, 1, 5),
        (longer, 65_536, 7, 7),
    ] {
        let bytes = long_log(rt.alloc(), front, len, gate)?;
        let bytes = bytes.as_slice();
        let found = 1;
        run_whole(
            &rt,
            rt.alloc(),
            &Opens {
                bytes,
                found,
                opening,
            },
        )?;
    }
    Ok(())
}

// A log that isn't there is made by calls 3 to 6.
struct Makes;

impl Subject for Makes {
    fn calls(&self) -> u8 {
        6
    }

    fn steps_before(&self, call: u8) -> usize {
        usize::from(call > 6)
    }

    fn drive<R: Abort>(&self, rt: &R, alloc: Global, disk: &mut MemDisk) -> Result<usize, Fail> {
        match reopened(alloc, disk, log_3()) {
            Ok(_) => Ok(1),
            Err(fault) => {
                assert_eq!(rt; fault, Fault::Disk);
                Ok(0)
            }
        }
    }

    fn judge<R: Abort>(
        &self,
        rt: &R,
        alloc: Global,
        disk: &mut MemDisk,
        _done: usize,
    ) -> Result<(), Fail> {
        let found = found(rt, alloc, disk)?;
        assert_eq!(rt; found, 0);
        Ok(())
    }
}

#[test]
fn a_log_that_is_made_has_no_payload(rt: HostRuntime) -> Result<(), Fail> {
    sweep(&rt, rt.alloc(), &Makes)
}

// A new disk after one append: each image has the one payload.
fn after_one_append(alloc: Global, pick: u64) -> Result<MemDisk, Fail>
    ensures { IfOk result (λ disk. EachHas ((97 ∷ []) ∷ []) (held disk) (file_name Log 3)) }
{
    let mut disk = new_disk(alloc, Vec::new(alloc), pick);
    one_append(&mut disk, log_3(), b"a")?;
    Ok(disk)
}

#[test]
fn after_one_append_each_image_has_the_payload(rt: HostRuntime) -> Result<(), Fail> {
    for pick in 0..4 {
        let mut disk = after_one_append(rt.alloc(), pick)?;
        disk.power();
        let (_log, payloads) = reopened(rt.alloc(), &mut disk, log_3())?;
        assert_eq!(rt; payloads.len(), 1, "pick {pick}");
        assert_eq!(rt; payloads[0].as_slice(), b"a".as_slice(), "pick {pick}");
    }
    Ok(())
}

#[test]
fn a_log_tells_the_length_of_its_file(rt: HostRuntime) -> Result<(), Fail> {
    for (count, want) in [(0, 1), (1, 8), (2, 13), (3, 19)] {
        let mut disk = new_disk(rt.alloc(), Vec::new(rt.alloc()), 0);
        let payloads = payloads(rt.alloc(), count)?;
        let len = len_after(&mut disk, log_3(), &payloads)?;
        assert_eq!(rt; len, want, "{count} payloads");
        assert_eq!(rt; disk.len(log_3().as_str())?, Some(len), "{count} payloads");
    }
    Ok(())
}

#[test]
fn a_log_that_was_damaged_tells_the_length_of_its_file(rt: HostRuntime) -> Result<(), Fail> {
    for damage in &DAMAGES {
        let mut disk = new_disk(rt.alloc(), Vec::new(rt.alloc()), 0);
        damaged(&mut disk, log_3(), damage.bytes)?;
        let (log, _payloads) = reopened(rt.alloc(), &mut disk, log_3())?;
        assert_eq!(rt; disk.len(log_3().as_str())?, Some(log.len()));
    }
    Ok(())
}
