ghost use Rattle.std.specs.Prelude.{◌≡◌, ℕ, List, Some, None, map, length, string_bytes, OnOk, OnErr, IfOk, IfErr, IsSome};
ghost use Rattle.std.specs.Option.{option_copied};
ghost use Rattle.std.specs.FinMap.{get};
ghost use Rattle.pb_devices.specs.Reads.{AreNames, IsLength, IsWithin, read_into, read_len};
ghost use Rattle.pb_mem.specs.Files.{written, scribbled, synced};
ghost use Rattle.pb_mem.specs.Named.{by_name};
ghost use Rattle.pb_mem.specs.Slots.{file_of, seen_of, durable_of, contents_in, created, removed, with_file, ChangesAt, AreSettled, ArePicked};

use crate::file::File;
use crate::names::add_name;
use crate::pieces::read_piece;
use crate::slot::Slot;
use pb_devices::ListError;
use std::alloc::{AllocError, Global};
use std::collections::BTreeMap;

/// The slots of a folder, by name.
pub type Slots = BTreeMap<String, Slot>;

/// The file that stands under a name.
pub fn file_at<'a>(slots: &'a Slots, name: &str) -> Option<&'a File>
    ensures { option_copied result ≡ file_of (get (by_name (λ s. s) slots.now.entries) name.now) }
{
    match slots.get(name) {
        None => None,
        Some(slot) => slot.file(),
    }
}

/// The length of a file.
pub fn file_len(slots: &Slots, name: &str) -> Option<u64>
    ensures { IsLength result (seen_of (file_of (get (by_name (λ s. s) slots.now.entries) name.now))) }
{
    match file_at(slots, name) {
        None => None,
        Some(file) => Some(file.bytes().len() as u64),
    }
}

/// Reads bytes of a file from a place on, and answers how many.
pub fn read_file(slots: &Slots, name: &str, at: u64, into: &mut [u8]) -> usize
    ensures count { result ≡ read_len (seen_of (file_of (get (by_name (λ s. s) slots.now.entries) name.now))) at (length into.old) }
    ensures piece { into.new ≡ read_into (seen_of (file_of (get (by_name (λ s. s) slots.now.entries) name.now))) at into.old }
{
    match file_at(slots, name) {
        None => 0,
        Some(file) => read_piece(file.bytes(), at, into),
    }
}

/// The names of the files that stand, ascending.
pub fn list_files(alloc: Global, slots: &Slots) -> Result<Vec<String>, ListError>
    ensures ok { IfOk result (λ names.
        AreNames (map string_bytes names.items) (contents_in (by_name (λ s. s) slots.now.entries)).seen) }
    ensures err { IfErr result (λ e. e ≡ ListError.NoMemory) }
{
    let mut names = Vec::new(alloc);
    for (name, slot) in slots.iter() {
        if slot.file().is_some() {
            add_name(alloc, &mut names, name)?;
        }
    }
    Ok(names)
}

/// An empty file stands under a name now. Without memory nothing has changed.
pub fn create_file(alloc: Global, slots: &mut Slots, name: &str) -> Result<(), AllocError>
    ensures ok { OnOk result (ChangesAt (by_name (λ s. s) slots.old.entries) (by_name (λ s. s) slots.new.entries) name.now
        (Some (created (get (by_name (λ s. s) slots.old.entries) name.now)))) }
    ensures err { OnErr result (ChangesAt (by_name (λ s. s) slots.old.entries) (by_name (λ s. s) slots.new.entries) name.now
        (get (by_name (λ s. s) slots.old.entries) name.now)) }
{
    if !slots.contains_key(name) {
        create_first(alloc, slots, name)?;
        return Ok(());
    }
    match slots.get_mut(name) {
        None => unreachable!(),
        Some(slot) => {
            slot.create(alloc)?;
            Ok(())
        }
    }
}

/// Gives a name a slot in which an empty file stands.
fn create_first(alloc: Global, slots: &mut Slots, name: &str) -> Result<(), AllocError>
    ensures ok { OnOk result (ChangesAt (by_name (λ s. s) slots.old.entries) (by_name (λ s. s) slots.new.entries) name.now
        (Some (created None))) }
    ensures err { OnErr result (slots.new.entries ≡ slots.old.entries) }
{
    let name = String::from_str(alloc, name)?;
    let mut slot = Slot::new(alloc);
    slot.create(alloc)?;
    slots.insert(name, slot)?;
    Ok(())
}

/// No file stands under a name any more. Without memory nothing has changed.
pub fn remove_file(slots: &mut Slots, name: &str) -> Result<(), AllocError>
    requires { IsSome (file_of (get (by_name (λ s. s) slots.old.entries) name.now)) }
    ensures ok { OnOk result (ChangesAt (by_name (λ s. s) slots.old.entries) (by_name (λ s. s) slots.new.entries) name.now
        (Some (removed (get (by_name (λ s. s) slots.old.entries) name.now)))) }
    ensures err { OnErr result (ChangesAt (by_name (λ s. s) slots.old.entries) (by_name (λ s. s) slots.new.entries) name.now
        (get (by_name (λ s. s) slots.old.entries) name.now)) }
{
    match slots.get_mut(name) {
        None => unreachable!(),
        Some(slot) => {
            slot.remove()?;
            Ok(())
        }
    }
}

/// Writes over what a file has and past its end. Without memory nothing has changed.
pub fn write_file(
    alloc: Global,
    slots: &mut Slots,
    name: &str,
    at: usize,
    bytes: &[u8],
) -> Result<(), AllocError>
    requires { IsWithin at (seen_of (file_of (get (by_name (λ s. s) slots.old.entries) name.now))) }
    ensures ok { OnOk result (ChangesAt (by_name (λ s. s) slots.old.entries) (by_name (λ s. s) slots.new.entries) name.now
        (with_file (λ f. written f at bytes.now) (get (by_name (λ s. s) slots.old.entries) name.now))) }
    ensures durable { durable_of (file_of (get (by_name (λ s. s) slots.new.entries) name.now))
        ≡ durable_of (file_of (get (by_name (λ s. s) slots.old.entries) name.now)) }
    ensures err { OnErr result (ChangesAt (by_name (λ s. s) slots.old.entries) (by_name (λ s. s) slots.new.entries) name.now
        (get (by_name (λ s. s) slots.old.entries) name.now)) }
{
    match slots.get_mut(name) {
        None => unreachable!(),
        Some(slot) => {
            slot.write(alloc, at, bytes)?;
            Ok(())
        }
    }
}

/// Leaves what a write that failed does. Without memory nothing has changed.
pub fn scribble_file(
    alloc: Global,
    slots: &mut Slots,
    name: &str,
    at: usize,
    bytes: &[u8],
    pick: u64,
) -> Result<(), AllocError>
    requires { IsWithin at (seen_of (file_of (get (by_name (λ s. s) slots.old.entries) name.now))) }
    ensures ok { OnOk result (ChangesAt (by_name (λ s. s) slots.old.entries) (by_name (λ s. s) slots.new.entries) name.now
        (with_file (λ f. scribbled pick f at bytes.now) (get (by_name (λ s. s) slots.old.entries) name.now))) }
    ensures durable { durable_of (file_of (get (by_name (λ s. s) slots.new.entries) name.now))
        ≡ durable_of (file_of (get (by_name (λ s. s) slots.old.entries) name.now)) }
    ensures err { OnErr result (ChangesAt (by_name (λ s. s) slots.old.entries) (by_name (λ s. s) slots.new.entries) name.now
        (get (by_name (λ s. s) slots.old.entries) name.now)) }
{
    match slots.get_mut(name) {
        None => unreachable!(),
        Some(slot) => {
            slot.scribble(alloc, at, bytes, pick)?;
            Ok(())
        }
    }
}

/// Makes the bytes of a file durable, if it is there.
pub fn sync_file(slots: &mut Slots, name: &str)
    ensures { ChangesAt (by_name (λ s. s) slots.old.entries) (by_name (λ s. s) slots.new.entries) name.now
        (with_file synced (get (by_name (λ s. s) slots.old.entries) name.now)) }
{
    match slots.get_mut(name) {
        None => {}
        Some(slot) => slot.sync(),
    }
}

/// Makes all files and the list of names durable.
pub fn settle_all(slots: &mut Slots)
    ensures { AreSettled (by_name (λ s. s) slots.old.entries) (by_name (λ s. s) slots.new.entries) }
{
    slots.retain(|_, slot| slot.settle());
}

/// The folder becomes the image that a pick leaves, with nothing pending.
pub fn cut_all(slots: &mut Slots, pick: u64)
    ensures { ArePicked pick (by_name (λ s. s) slots.old.entries) (by_name (λ s. s) slots.new.entries) }
{
    slots.retain(|_, slot| slot.cut(pick));
}
