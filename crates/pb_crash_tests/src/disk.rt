ghost use Rattle.std.specs.Prelude.{ℕ, List};
ghost use Rattle.pb_crash_tests.specs.Driven.{NeverStood};
ghost use Rattle.pb_mem.specs.Disk.{held};

use pb_mem::MemDisk;
use std::alloc::Global;

/// An empty folder, whose calls with the numbers in `fail` fail, counted from 1. Nothing ever stood in it.
pub fn new_disk(alloc: Global, fail: Vec<u64>, pick: u64) -> MemDisk
    ensures { (name : List ℕ) → NeverStood (held result) name }
{
    MemDisk::new(alloc, fail, pick)
}
