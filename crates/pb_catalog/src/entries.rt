ghost use Rattle.std.specs.Prelude.{◌≡◌, ◌<◌, ◌++◌, ◌∷◌, [], false, option_map, IfErr, OnOk};
ghost use Rattle.std.specs.List.{find as first_of};
ghost use Rattle.indexmap.specs.IndexMap.{spare};
ghost use Rattle.pb_catalog.specs.Entered.{entries_of};
ghost use Rattle.pb_payloads.specs.Catalogue.{dropped, is_of, stands as stands_among};
ghost use Rattle.pb_payloads.specs.Payloads.{standing_of};

use indexmap::IndexMap;
use pb_devices::Fault;
use pb_payloads::Entry;

/// Whether an object stands under the number.
pub(crate) fn stands(entries: &IndexMap<u64, Entry>, number: u64) -> bool
    ensures { result ≡ stands_among number (entries_of entries.now.entries) }
{
    entries.contains_key(&number)
}

/// The object that stands under the number.
pub(crate) fn find(entries: &IndexMap<u64, Entry>, number: u64) -> Option<Entry>
    ensures { option_map standing_of result ≡ option_map (λ entry. entry.1) (first_of (is_of number) (entries_of entries.now.entries)) }
{
    entries.get(&number).copied()
}

/// Makes room for one more.
pub(crate) fn make_room(entries: &mut IndexMap<u64, Entry>) -> Result<(), Fault>
    ensures same { entries.new.entries ≡ entries.old.entries }
    ensures room { OnOk result (0 < spare entries.new) }
    ensures known { IfErr result (λ error. error ≡ Fault.NoMemory) }
{
    match entries.reserve(1) {
        Ok(()) => Ok(()),
        Err(_) => Err(Fault::NoMemory),
    }
}

/// Adds an object behind the others. It takes no memory.
pub(crate) fn add(entries: &mut IndexMap<u64, Entry>, number: u64, entry: &Entry)
    requires absent { stands_among number (entries_of entries.old.entries) ≡ false }
    requires room { 0 < spare entries.old }
    ensures { entries_of entries.new.entries ≡ entries_of entries.old.entries ++ (number, standing_of entry.now) ∷ [] }
{
    entries.insert(number, *entry).unwrap();
}

/// Takes away the object under the number, if there is one. The others keep their order.
pub(crate) fn remove(entries: &mut IndexMap<u64, Entry>, number: u64)
    ensures { entries_of entries.new.entries ≡ dropped number (entries_of entries.old.entries) }
{
    // So the proof knows that no number stands twice.
    let _len = entries.len();
    entries.shift_remove(&number);
}
