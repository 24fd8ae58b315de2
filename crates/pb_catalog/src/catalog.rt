ghost use Rattle.std.specs.Prelude.{◌≡◌, ◌≢◌, ◌⊎◌, ◌++◌, ◌∷◌, ℕ, [], true, false, None, Err, IfOk, IfSome, IsSome, OnErr, OnOk, is_some, length, option_map, slice_get};
ghost use Rattle.std.specs.List.{find as first_of};
ghost use Rattle.pb_catalog.specs.Calls.{Begins, Changes, IsOf};
ghost use Rattle.pb_catalog.specs.Catalog.{EachCatalogue, HasCatalogue, IsCatalog, IsEntered};
ghost use Rattle.pb_catalog.specs.Entered.{entered};
ghost use Rattle.pb_catalog.specs.Faults.{IsCatalogFault};
ghost use Rattle.pb_catalog.specs.Found.{IsDamaged, IsOfAnother};
ghost use Rattle.pb_devices.specs.Contents.{IsSettled};
ghost use Rattle.pb_devices.specs.Counts.{HasCauseAs};
ghost use Rattle.pb_devices.specs.Faults.{IsDiskFault};
ghost use Rattle.pb_gate_log.specs.Calls.{Opens};
ghost use Rattle.pb_gate_log.specs.Payloads.{payloads_in};
ghost use Rattle.pb_names.specs.Identity.{IsStore};
ghost use Rattle.pb_payloads.specs.Catalogue.{dropped, is_of, stands as stands_among};
ghost use Rattle.pb_payloads.specs.Catalogued.{Catalogued as said, IsCatalogued};
ghost use Rattle.pb_payloads.specs.Payloads.{standing_of};

use crate::CatalogError;
use crate::entries::{add, find, make_room, remove};
use crate::log::{append, append_first, made, opened, spelled, spelled_entry};
use crate::read::read_entries;
use indexmap::IndexMap;
use pb_devices::{Disk, Fault};
use pb_gate_log::GateLog;
use pb_names::Name;
use pb_payloads::{CataloguePayload, Entry};
use std::alloc::Global;
use std::marker::Model;

/// An open catalogue: the store's id, and the objects behind its numbers, in one file of a disk.
///
/// Between two calls every image that a power cut may leave of the file says exactly the id and the entries that contracts
/// see, in the order in which they were entered. docs/MODEL.md, "Catalogue".
#[derive(Drop)]
pub struct Catalog {
    id: u64,
    entries: IndexMap<u64, Entry>,
    log: GateLog,
}

impl Model for Catalog {
    ghost use Rattle.pb_catalog.specs.Catalog.{CatalogView, IsCatalog};
    ghost use Rattle.pb_catalog.specs.Entered.{entries_of};

    ghost Value = { CatalogView };

    ghost view = { λ c. record { id = c.id; entries = entries_of c.entries.entries; log = c.log } };

    ghost invariant = { λ c. IsCatalog (record { id = c.id; entries = entries_of c.entries.entries; log = c.log }) };
}

impl Catalog {
    /// Makes the catalogue of a store without an entry: ten device calls. After `Disk` the file is as before, or a log
    /// with no payload or with the id's alone. Without memory no device was called.
    pub fn create<D: Disk>(
        alloc: Global,
        disk: &mut D,
        file: Name,
        id: u64,
    ) -> Result<Catalog, Fault>
        requires store { IsStore id }
        requires absent { D.told ≡ true → (D.contents disk.old).seen file ≡ None }
        ensures kept { D.told ≡ true → IfOk result (λ catalog. EachCatalogue catalog (D.contents disk.new)) }
        ensures own { IfOk result (IsOf id file) }
        ensures empty { IfOk result (λ catalog. catalog.entries ≡ []) }
        ensures begins { D.told ≡ true → Begins id file (D.contents disk.old) (D.contents disk.new) }
        ensures untouched { OnErr result ((result ≡ Err Fault.Disk) ⊎ (disk.new ≡ disk.old)) }
        ensures cause { HasCauseAs IsDiskFault (D.fault_count disk.old) (D.fault_count disk.new) result }
        ensures bucket { result ≢ Err Fault.Bucket }
    {
        let payload = spelled(alloc, &CataloguePayload::Id(id))?;
        let mut log = made(disk, file)?;
        append_first(&mut log, disk, payload.as_slice())?;
        let entries = IndexMap::new(alloc);
        Ok(Catalog { id, entries, log })
    }

    /// Opens the catalogue of a store in a file of which nothing is pending, with the device calls of an opening of its log.
    /// Whether it succeeds or fails, each image has the payloads that reads gave.
    ///
    /// `WrongStore` comes with the other id exactly where that is what the first payload tells, whatever stands behind it;
    /// `Damaged` exactly where it isn't so and the payloads say no catalogue with this id: docs/FORMATS.md, "Catalogue".
    pub fn open<D: Disk>(
        alloc: Global,
        disk: &mut D,
        file: Name,
        id: u64,
    ) -> Result<Catalog, CatalogError>
        requires store { IsStore id }
        requires there { D.told ≡ true → IsSome ((D.contents disk.old).seen file) }
        requires settled { D.told ≡ true → IsSettled (D.contents disk.old) file }
        ensures kept { D.told ≡ true → IfOk result (λ catalog. EachCatalogue catalog (D.contents disk.new)) }
        ensures own { IfOk result (IsOf id file) }
        ensures says { D.told ≡ true → IfOk result (λ catalog. HasCatalogue id catalog.entries ((D.contents disk.old).seen file)) }
        ensures wrong { D.told ≡ true → (other : ℕ) → result ≡ Err (CatalogError.WrongStore other)
            → IsOfAnother id other (payloads_in ((D.contents disk.old).seen file)) }
        ensures damaged { D.told ≡ true → result ≡ Err CatalogError.Damaged
            → IsDamaged id (payloads_in ((D.contents disk.old).seen file)) }
        ensures opens { D.told ≡ true → Opens file (D.contents disk.old) (D.contents disk.new) }
        ensures cause { HasCauseAs IsCatalogFault (D.fault_count disk.old) (D.fault_count disk.new) result }
    {
        let (log, payloads) = opened(alloc, disk, file)?;
        match read_entries(alloc, &payloads, id) {
            Ok(entries) => Ok(Catalog { id, entries, log }),
            Err(error) => Err(error),
        }
    }

    /// Enters an object under a number that has none: six device calls. After `Disk` the value is as before, and each image
    /// has the old entries or the new ones: the catalogue is to be opened again. Without memory nothing has changed.
    pub fn intend<D: Disk>(
        &mut self,
        alloc: Global,
        disk: &mut D,
        number: u64,
        entry: Entry,
    ) -> Result<(), Fault>
        requires absent { stands_among number self.old.entries ≡ false }
        requires in_form { IsCatalogued (said.Entered number (standing_of entry)) }
        requires kept { D.told ≡ true → EachCatalogue self.old (D.contents disk.old) }
        ensures entries { OnOk result (self.new.entries ≡ self.old.entries ++ (number, standing_of entry) ∷ []) }
        ensures own { IsOf self.old.id self.old.log.file self.new }
        ensures same { OnErr result (self.new ≡ self.old) }
        ensures changes { D.told ≡ true → Changes self.old self.new (self.old.entries ++ (number, standing_of entry) ∷ [])
            (D.contents disk.old) (D.contents disk.new) result }
        ensures untouched { OnErr result ((result ≡ Err Fault.Disk) ⊎ (disk.new ≡ disk.old)) }
        ensures cause { HasCauseAs IsDiskFault (D.fault_count disk.old) (D.fault_count disk.new) result }
        ensures bucket { result ≢ Err Fault.Bucket }
    {
        let payload = spelled_entry(alloc, number, &entry)?;
        make_room(&mut self.entries)?;
        // The entry stands on the disk before it stands here: what is told of an object has to be found again.
        append(&mut self.log, disk, payload.as_slice())?;
        add(&mut self.entries, number, &entry);
        Ok(())
    }

    /// Drops the entry of a number: six device calls. The others keep their order. After `Disk` the value is as before, and
    /// each image has the old entries or the new ones: the catalogue is to be opened again. Without memory nothing has
    /// changed.
    pub fn drop_entry<D: Disk>(
        &mut self,
        alloc: Global,
        disk: &mut D,
        number: u64,
    ) -> Result<(), Fault>
        requires stands { stands_among number self.old.entries ≡ true }
        requires kept { D.told ≡ true → EachCatalogue self.old (D.contents disk.old) }
        ensures entries { OnOk result (self.new.entries ≡ dropped number self.old.entries) }
        ensures own { IsOf self.old.id self.old.log.file self.new }
        ensures same { OnErr result (self.new ≡ self.old) }
        ensures changes { D.told ≡ true → Changes self.old self.new (dropped number self.old.entries)
            (D.contents disk.old) (D.contents disk.new) result }
        ensures untouched { OnErr result ((result ≡ Err Fault.Disk) ⊎ (disk.new ≡ disk.old)) }
        ensures cause { HasCauseAs IsDiskFault (D.fault_count disk.old) (D.fault_count disk.new) result }
        ensures bucket { result ≢ Err Fault.Bucket }
    {
        let gone = spelled(alloc, &CataloguePayload::Dropped(number))?;
        append(&mut self.log, disk, gone.as_slice())?;
        remove(&mut self.entries, number);
        Ok(())
    }

    /// The object behind a number. None exactly where none stands. One look-up, and no memory.
    pub fn entry(&self, number: u64) -> Option<Entry>
        ensures value { option_map standing_of result ≡ option_map (λ entry. entry.1) (first_of (is_of number) self.now.entries) }
        ensures stands { is_some result ≡ stands_among number self.now.entries }
        ensures in_form { IfSome result (λ entry. IsEntered (number, standing_of entry)) }
    {
        find(&self.entries, number)
    }

    /// How many entries stand.
    pub fn len(&self) -> usize
        ensures { result ≡ length self.now.entries }
    {
        self.entries.len()
    }

    /// The entry at a place of the order in which they were entered. None exactly from `len` on.
    pub fn at(&self, place: usize) -> Option<(u64, Entry)>
        ensures value { option_map entered result ≡ slice_get self.now.entries place }
        ensures in_form { IfSome result (λ found. IsEntered (entered found)) }
    {
        match self.entries.get_index(place) {
            Some((number, entry)) => Some((*number, *entry)),
            None => None,
        }
    }

    /// The store's id.
    pub fn id(&self) -> u64
        ensures value { result ≡ self.now.id }
        ensures in_form { IsCatalog self.now }
    {
        self.id
    }
}
