// What the headline says of a folder in memory, drawn from the contract of `run` alone.
ghost use Rattle.std.specs.Prelude.{◌≡◌, ℕ, List, [], ◌∷◌, length, IfOk};
ghost use Rattle.std.specs.FinMap.{empty, insert};
ghost use Rattle.pb_devices.specs.Contents.{Folder, IsImage};
ghost use Rattle.pb_mem.specs.Disk.{DiskView, held};
ghost use Rattle.pebble_cli.specs.Folder.{StandsFor};

use super::*;
use pb_mem::{MemBucket, MemDisk, MemSink, MemSource};
use std::alloc::AllocError;
use std::test::Fail;

// Runs `open A` and `A set a 1` over new disks. Where no line is refused, each image of A's folder stands for the count 1 and
// the one pair of a and 1.
fn one_set(alloc: Global, disks: &mut [MemDisk]) -> Result<Status, AllocError>
    requires eight { length disks.old ≡ 8 }
    requires fresh { (a : DiskView) (others : List DiskView) → disks.old ≡ a ∷ others → a.slots ≡ empty }
    ensures { IfOk result (λ status. status ≡ Status.Success → (b : DiskView) (others : List DiskView) → disks.new ≡ b ∷ others
        → (folder : Folder) → IsImage (held b) folder → StandsFor folder 1 (insert empty (97 ∷ []) (49 ∷ []))) }
{
    let words = [String::from_str(alloc, "run")?];
    let script = b"open A\nA set a 1\n".to_vec(alloc)?;
    let mut source = MemSource::new(script, Vec::new(alloc));
    let mut sink = MemSink::new(alloc, Vec::new(alloc));
    let mut bucket = MemBucket::new(alloc, Vec::new(alloc));
    let mut trace = Trace::new(alloc);
    let status = run(
        alloc,
        &words,
        &mut source,
        &mut sink,
        disks,
        &mut bucket,
        &mut trace,
    );
    Ok(status)
}

fn new_disk(alloc: Global, pick: u64) -> MemDisk
    ensures { result.slots ≡ empty }
{
    MemDisk::new(alloc, Vec::new(alloc), pick)
}

#[test]
fn after_ok_each_image_stands_for_the_pair(rt: HostRuntime) -> Result<(), Fail> {
    let alloc = rt.alloc();
    for pick in 0..4 {
        let mut disks = [
            new_disk(alloc, pick),
            new_disk(alloc, pick),
            new_disk(alloc, pick),
            new_disk(alloc, pick),
            new_disk(alloc, pick),
            new_disk(alloc, pick),
            new_disk(alloc, pick),
            new_disk(alloc, pick),
        ];
        let status = one_set(alloc, &mut disks)?;
        assert_eq!(rt; status, Status::Success);
    }
    Ok(())
}
