ghost use Rattle.std.specs.Prelude.{◌≡◌, ◌↔◌, ◌≤◌, ◌<◌, ◌==◌, ℕ, List, [], true, false, None, Some, Err, IfErr, IfNone, IfOk, IfSome, OnErr, OnOk, length, option_map, slice_get, take, vec_len};
ghost use Rattle.std.specs.FinMap.{get};
ghost use Rattle.std.specs.List.{find as first_of, list_any};
ghost use Rattle.pb_catalog.specs.Catalog.{IsEntered};
ghost use Rattle.pb_catalog.specs.Entered.{entered};
ghost use Rattle.pb_devices.specs.Contents.{HasFile, KeepsOthers};
ghost use Rattle.pb_devices.specs.Counts.{HasCause, HasCauseAs, one_more};
ghost use Rattle.pb_devices.specs.DiskCalls.{Stays};
ghost use Rattle.pb_names.specs.Spelling.{file_name};
ghost use Rattle.pb_names.specs.declared.file_kind.FileKind.TheVariants.{Table};
ghost use Rattle.pb_payloads.specs.Catalogue.{is_of};
ghost use Rattle.pb_payloads.specs.Payloads.{standing_of};
ghost use Rattle.pb_payloads.specs.Places.{bytes_of, object_of};
ghost use Rattle.pb_provider.specs.Faults.{IsReadBucket, IsReadDisk};
ghost use Rattle.pb_provider.specs.Places.{IsThere, Reads};
ghost use Rattle.pb_provider.specs.Provider.{shared_numbers, stages_of};

use crate::ReadError;
use crate::local::{create_file, remove_file};
use crate::reads::{name_of, read_file, read_object};
use crate::stages::{find_stage, opening_stages};
use pb_catalog::{Catalog, Entry};
use pb_devices::{Bucket, Disk, Failed};
use pb_marker_world::Stage;
use pb_names::{FileKind, file};
use pb_version::Version;
use std::alloc::{AllocError, Global};
use std::marker::Model;

/// Where a number's bytes stand: in the local file of a table, or in the object that the catalogue's entry names.
///
/// docs/MODEL.md, "Where bytes stand".
#[derive(Drop)]
pub struct Provider {
    catalog: Catalog,
    stages: Vec<(u64, Stage)>,
    begun: Vec<u64>,
}

impl Model for Provider {
    ghost use Rattle.pb_provider.specs.Provider.{IsProvider, ProviderView};

    ghost Value = { ProviderView };

    ghost view = { λ p. record { catalogue = p.catalog; stages = p.stages.items; begun = p.begun.items } };

    ghost invariant = { λ p. IsProvider (record { catalogue = p.catalog; stages = p.stages.items; begun = p.begun.items }) };
}

impl Provider {
    /// The provider of a store that is opened, whose id the catalogue has: a shared entry is Held where the version stores
    /// the number, else Loose.
    pub fn new(
        alloc: Global,
        id: u64,
        catalog: Catalog,
        version: &Version,
    ) -> Result<Provider, AllocError>
        requires { catalog.id ≡ id }
        ensures catalogue { IfOk result (λ provider. provider.catalogue ≡ catalog) }
        ensures stages { IfOk result (λ provider. provider.stages ≡ stages_of version.now catalog.entries) }
        ensures begun { IfOk result (λ provider. provider.begun ≡ []) }
        ensures own { IfOk result (λ provider. provider.catalogue.id ≡ id) }
    {
        let stages = opening_stages(alloc, &catalog, version)?;
        Ok(Provider {
            catalog,
            stages,
            begun: Vec::new(alloc),
        })
    }

    /// The store's id.
    pub fn id(&self) -> u64
        ensures { result ≡ self.now.catalogue.id }
    {
        self.catalog.id()
    }

    /// The object behind a number. None exactly where none stands. One look-up, and no memory.
    pub fn entry(&self, number: u64) -> Option<Entry>
        ensures value { option_map standing_of result ≡ option_map (λ entry. entry.1) (first_of (is_of number) self.now.catalogue.entries) }
        ensures in_form { IfSome result (λ entry. IsEntered (number, standing_of entry)) }
    {
        self.catalog.entry(number)
    }

    /// How many entries stand.
    pub fn len(&self) -> usize
        ensures { result ≡ length self.now.catalogue.entries }
    {
        self.catalog.len()
    }

    /// The entry at a place of the order in which they were entered. None exactly from `len` on.
    pub fn at(&self, place: usize) -> Option<(u64, Entry)>
        ensures value { option_map entered result ≡ slice_get self.now.catalogue.entries place }
        ensures in_form { IfSome result (λ found. IsEntered (entered found)) }
    {
        self.catalog.at(place)
    }

    /// How far the shared entry of a number has come. None exactly where no shared entry has the number.
    pub fn stage(&self, number: u64) -> Option<Stage>
        ensures value { result ≡ option_map (λ staged. staged.1) (first_of (λ staged. staged.0 == number) self.now.stages) }
        ensures none { (result ≡ None) ↔ (list_any (λ shared. shared == number) (shared_numbers self.now.catalogue.entries) ≡ false) }
    {
        find_stage(self.stages.as_slice(), number)
    }

    /// Reads bytes of a number from a place on, by one call of one device, and answers how many: fewer than asked only at
    /// their end. The entry decides: without one they are those of `<number>.tbl`, with one those of its object.
    ///
    /// `Missing` comes with the object's name exactly where that isn't there. After an error nothing is said of the piece.
    pub fn read<D: Disk, B: Bucket>(
        &self,
        disk: &mut D,
        bucket: &mut B,
        backing: u64,
        at: u64,
        into: &mut [u8],
    ) -> Result<usize, ReadError>
        ensures within { IfOk result (λ n. n ≤ length into.old) }
        ensures read { D.told ≡ true → B.told ≡ true → (bytes : List ℕ)
            → bytes_of (D.contents disk.old).seen (B.objects bucket.old) self.now.catalogue.entries backing ≡ Some bytes
            → IfOk result (Reads bytes at into.old into.new) }
        ensures local { IfNone (object_of self.now.catalogue.entries backing) (bucket.new ≡ bucket.old) }
        ensures remote { IfSome (object_of self.now.catalogue.entries backing) (λ _. disk.new ≡ disk.old) }
        ensures calls { IfSome (object_of self.now.catalogue.entries backing) (λ _.
            B.call_count bucket.new ≡ one_more (B.call_count bucket.old)) }
        ensures named { (name : List ℕ) → result ≡ Err (ReadError.Missing name) → object_of self.now.catalogue.entries backing ≡ Some name }
        ensures missing { B.told ≡ true → (name : List ℕ) → result ≡ Err (ReadError.Missing name) → get (B.objects bucket.old) name ≡ None }
        ensures there { B.told ≡ true → OnOk result (IsThere (object_of self.now.catalogue.entries backing) (B.objects bucket.old)) }
        ensures stays { D.told ≡ true → Stays (D.contents disk.old) (D.contents disk.new) }
        ensures kept { B.told ≡ true → B.objects bucket.new ≡ B.objects bucket.old }
        ensures disk_cause { HasCauseAs IsReadDisk (D.fault_count disk.old) (D.fault_count disk.new) result }
        ensures bucket_cause { HasCauseAs IsReadBucket (B.fault_count bucket.old) (B.fault_count bucket.new) result }
    {
        match self.catalog.entry(backing) {
            None => read_file(disk, backing, at, into),
            Some(entry) => read_object(bucket, name_of(backing, &entry), at, into),
        }
    }

    /// Makes the table file of a number, whole and durable: four device calls. After `Failed` it is there or not, and whole
    /// or not.
    pub fn create_local<D: Disk>(
        &mut self,
        disk: &mut D,
        number: u64,
        bytes: &[u8],
    ) -> Result<(), Failed>
        requires unentered { object_of self.old.catalogue.entries number ≡ None }
        requires absent { D.told ≡ true → (D.contents disk.old).seen (file_name Table number) ≡ None }
        ensures ok { D.told ≡ true → OnOk result (HasFile (file_name Table number) bytes.now (D.contents disk.new)) }
        ensures others { D.told ≡ true → KeepsOthers (D.contents disk.old) (D.contents disk.new) (file_name Table number) }
        ensures same { self.new ≡ self.old }
        ensures cause { HasCause (D.fault_count disk.old) (D.fault_count disk.new) result }
    {
        create_file(disk, file(FileKind::Table, number), bytes)
    }

    /// Removes the table file of a number: one device call. After `Failed` it has gone or not.
    pub fn remove_local<D: Disk>(&mut self, disk: &mut D, number: u64) -> Result<(), Failed>
        ensures ok { D.told ≡ true → OnOk result ((D.contents disk.new).seen (file_name Table number) ≡ None) }
        ensures others { D.told ≡ true → KeepsOthers (D.contents disk.old) (D.contents disk.new) (file_name Table number) }
        ensures same { self.new ≡ self.old }
        ensures cause { HasCause (D.fault_count disk.old) (D.fault_count disk.new) result }
    {
        remove_file(disk, file(FileKind::Table, number))
    }
}
