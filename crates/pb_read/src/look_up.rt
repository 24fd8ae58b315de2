ghost use Rattle.std.specs.Prelude.{◌≡◌, ℕ, List, true, Err, IfOk, map};
ghost use Rattle.std.specs.FinMap.{get as get_of};
ghost use Rattle.pb_devices.specs.Counts.{HasCauseAs};
ghost use Rattle.pb_devices.specs.DiskCalls.{Stays};
ghost use Rattle.pb_folder.specs.Held.{HoldsVersion};
ghost use Rattle.pb_read.specs.Damage.{IsDamaged, IsMissing};
ghost use Rattle.pb_read.specs.Faults.{IsBucket, IsDisk};
ghost use Rattle.pb_read.specs.Tables.{AreStored, HasTable};
ghost use Rattle.pb_rows.specs.Changing.{changed};
ghost use Rattle.pb_rows.specs.Layer.{KeyLayer};
ghost use Rattle.pb_rows.specs.Verdict.{verdicts};
ghost use Rattle.pb_version.specs.Meaning.{layer_of_table, map_of};
ghost use Rattle.pb_version.specs.Version.{all_tables};

use crate::ReadFault;
use crate::table::{answer_of, look_in};
use pb_devices::{Bucket, Disk};
use pb_edit::LAST_LEVEL;
use pb_keys::{Bytes, Key};
use pb_memtable::Memtable;
use pb_provider::Provider;
use pb_version::Version;
use std::alloc::Global;

/// The value of a key: docs/MODEL.md, "Look-up". The memtable decides without a call of a device, where it has a row or a
/// deletion of the key; else the first table that has one, of level 0 as it stands, and then of each deeper level.
///
/// A table is asked only where its bounds hold the key. It is then read up to its kept size, a call of one device for each
/// 65,536 bytes or part of them, and one table is in memory at a time. After an error the devices' contents are as before.
pub fn get<D: Disk, B: Bucket>(
    alloc: Global,
    memtable: &Memtable,
    version: &Version,
    provider: &Provider,
    disk: &mut D,
    bucket: &mut B,
    key: &Key,
) -> Result<Option<Bytes>, ReadFault>
    ensures found { D.told ≡ true → B.told ≡ true → (layers : ℕ → KeyLayer)
        → HoldsVersion (D.contents disk.old).seen (B.objects bucket.old) provider.now.catalogue.entries version.now layers
        → IfOk result (λ answer. answer ≡ get_of (changed (map_of version.now layers) memtable.now.changes) key.now) }
    ensures damaged { D.told ≡ true → B.told ≡ true → (name : List ℕ) → result ≡ Err (ReadFault.Damaged name)
        → HasTable (IsDamaged (D.contents disk.old).seen (B.objects bucket.old) provider.now.catalogue.entries name) key.now (all_tables version.now) }
    ensures missing { B.told ≡ true → (name : List ℕ) → result ≡ Err (ReadFault.Missing name)
        → HasTable (IsMissing (B.objects bucket.old) provider.now.catalogue.entries name) key.now (all_tables version.now) }
    ensures stays { D.told ≡ true → Stays (D.contents disk.old) (D.contents disk.new) }
    ensures kept { B.told ≡ true → B.objects bucket.new ≡ B.objects bucket.old }
    ensures disk_cause { HasCauseAs IsDisk (D.fault_count disk.old) (D.fault_count disk.new) result }
    ensures bucket_cause { HasCauseAs IsBucket (B.fault_count bucket.old) (B.fault_count bucket.new) result }
{
    match answer_of(alloc, memtable.get(key)) {
        Ok(Some(answer)) => Ok(answer),
        Ok(None) => match look_up(alloc, version, provider, disk, bucket, key) {
            Ok(Some(answer)) => Ok(answer),
            Ok(None) => Ok(None),
            Err(fault) => Err(fault),
        },
        Err(_) => Err(ReadFault::NoMemory),
    }
}

/// What the tables of the version say of the key, the newest first.
fn look_up<D: Disk, B: Bucket>(
    alloc: Global,
    version: &Version,
    provider: &Provider,
    disk: &mut D,
    bucket: &mut B,
    key: &Key,
) -> Result<Option<Option<Bytes>>, ReadFault>
    ensures found { D.told ≡ true → B.told ≡ true → (layers : ℕ → KeyLayer)
        → AreStored (D.contents disk.old).seen (B.objects bucket.old) provider.now.catalogue.entries layers (all_tables version.now)
        → IfOk result (λ said. said ≡ verdicts (map (layer_of_table layers) (all_tables version.now)) key.now) }
    ensures damaged { D.told ≡ true → B.told ≡ true → (name : List ℕ) → result ≡ Err (ReadFault.Damaged name)
        → HasTable (IsDamaged (D.contents disk.old).seen (B.objects bucket.old) provider.now.catalogue.entries name) key.now (all_tables version.now) }
    ensures missing { B.told ≡ true → (name : List ℕ) → result ≡ Err (ReadFault.Missing name)
        → HasTable (IsMissing (B.objects bucket.old) provider.now.catalogue.entries name) key.now (all_tables version.now) }
    ensures stays { D.told ≡ true → Stays (D.contents disk.old) (D.contents disk.new) }
    ensures kept { B.told ≡ true → B.objects bucket.new ≡ B.objects bucket.old }
    ensures disk_cause { HasCauseAs IsDisk (D.fault_count disk.old) (D.fault_count disk.new) result }
    ensures bucket_cause { HasCauseAs IsBucket (B.fault_count bucket.old) (B.fault_count bucket.new) result }
{
    // So the proof knows that there are seven levels.
    let _five = version.five();
    for level in 0..=LAST_LEVEL {
        match look_in(alloc, provider, disk, bucket, version.tables(level), key) {
            Ok(None) => {}
            Ok(Some(answer)) => return Ok(Some(answer)),
            Err(fault) => return Err(fault),
        }
    }
    Ok(None)
}
