ghost use Rattle.std.specs.Prelude.{◌≡◌, ℕ, ◌<◌, ◌↔◌, List, All, IsTrue, map, IfErr, IfOk};
ghost use Rattle.pb_folder.specs.Listed.{folder_of};
ghost use Rattle.pb_folder_reader.specs.AtFault.{IsCatalogueAtFault, IsLogAtFault, IsManifestAtFault, IsSaidAtFault, SaysEntries, SaysManifest};
ghost use Rattle.pb_folder_reader.specs.Faults.{IfDamaged};
ghost use Rattle.pb_folder_reader.specs.Said.{IsRead};
ghost use Rattle.pb_gate_log.specs.Payloads.{HasPayloads};
ghost use Rattle.pb_names.specs.Spelling.{current_name, file_name};
ghost use Rattle.pb_names.specs.declared.file_kind.FileKind.TheVariants.{Log};
ghost use Rattle.pb_payloads.specs.Current.{SaysCurrent, pointer_to};
ghost use Rattle.pb_payloads.specs.Log.{SaysLog};
ghost use Rattle.pb_wal.specs.Changes.{entry_of};

use super::catalogue::entries_of;
use super::entered::Entered;
use super::log::log_of;
use super::payloads::payloads_in;
use super::{Fault, File};
use pb_names::{FileKind, current, file};
use pb_version::Version;
use pb_wal::Entry;
use std::alloc::Global;
use std::marker::Model;

/// What a folder says: which manifest and catalogue hold, the version, the objects that stand under numbers, and the commands
/// that aren't in tables yet.
#[derive(Debug, Drop)]
pub struct Said {
    pub manifest: u64,
    pub catalogue: u64,
    pub version: Version,
    pub entries: Vec<Entered>,
    pub log: Vec<Entry>,
}

impl Model for Said {
    ghost use Rattle.pb_folder.specs.Said as folder;
    ghost use Rattle.pb_folder_reader.specs.Said.{said_of};
    ghost use Rattle.pb_payloads.specs.Current.{pointer_to};

    ghost Value = { folder.Said };

    ghost view = { λ s. said_of (pointer_to s.manifest s.catalogue) s.version s.entries.items s.log.items };
}

/// What the files say of the store with this id, where `CURRENT` names this manifest and this catalogue.
pub fn said_by(
    alloc: Global,
    files: &[File],
    manifest: u64,
    catalogue: u64,
    id: u64,
) -> Result<Said, Fault>
    ensures pointer { IfOk result (λ said. said.pointer ≡ pointer_to manifest catalogue) }
    ensures ok { IfOk result (λ said. (HasPayloads (folder_of files.now) current_name (λ list. SaysCurrent list (pointer_to manifest catalogue)))
        → IsRead (folder_of files.now) id said) }
    ensures err { IfErr result (λ fault. IfDamaged fault (IsSaidAtFault (folder_of files.now) id (pointer_to manifest catalogue))) }
{
    let version = version_in(alloc, files, manifest)?;
    let five = version.five();
    if manifest >= five.next {
        return Err(Fault::Damaged(current()));
    }
    let entries = entries_in(alloc, files, catalogue, id)?;
    if !are_below(&entries, five.next) {
        return Err(Fault::Damaged(file(FileKind::Catalogue, catalogue)));
    }
    let log = log_in(alloc, files, five.log, five.flushed)?;
    Ok(Said {
        manifest,
        catalogue,
        version,
        entries,
        log,
    })
}

fn version_in(alloc: Global, files: &[File], number: u64) -> Result<Version, Fault>
    ensures ok { IfOk result (λ version. SaysManifest (folder_of files.now) number version) }
    ensures err { IfErr result (λ fault. IfDamaged fault (IsManifestAtFault (folder_of files.now) number)) }
{
    let name = file(FileKind::Manifest, number);
    let Some(payloads) = payloads_in(alloc, files, &name)? else {
        return Err(Fault::Damaged(current()));
    };
    match Version::of_payloads(alloc, &payloads)? {
        Some(version) => Ok(version),
        None => Err(Fault::Damaged(name)),
    }
}

fn entries_in(alloc: Global, files: &[File], number: u64, id: u64) -> Result<Vec<Entered>, Fault>
    ensures ok { IfOk result (λ entries. SaysEntries (folder_of files.now) number id entries.items) }
    ensures err { IfErr result (λ fault. IfDamaged fault (IsCatalogueAtFault (folder_of files.now) number id)) }
{
    let name = file(FileKind::Catalogue, number);
    let Some(payloads) = payloads_in(alloc, files, &name)? else {
        return Err(Fault::Damaged(current()));
    };
    match entries_of(alloc, &payloads, id)? {
        Some(entries) => Ok(entries),
        None => Err(Fault::Damaged(name)),
    }
}

fn are_below(entries: &[Entered], next: u64) -> bool
    ensures { IsTrue result ↔ All (λ entry. entry.0 < next) entries.now }
{
    entries.iter().all(|entry| is_below(entry, next))
}

fn is_below(entry: &Entered, next: u64) -> bool
    ensures { IsTrue result ↔ (entry.now.0 < next) }
{
    entry.number < next
}

fn log_in(alloc: Global, files: &[File], number: u64, flushed: u64) -> Result<Vec<Entry>, Fault>
    ensures ok { IfOk result (λ log. HasPayloads (folder_of files.now) (file_name Log number) (λ list. SaysLog flushed list (map entry_of log.items))) }
    ensures err { IfErr result (λ fault. IfDamaged fault (IsLogAtFault (folder_of files.now) number flushed)) }
{
    let name = file(FileKind::Log, number);
    let Some(payloads) = payloads_in(alloc, files, &name)? else {
        return Err(Fault::Damaged(name));
    };
    match log_of(alloc, &payloads, flushed)? {
        Some(log) => Ok(log),
        None => Err(Fault::Damaged(name)),
    }
}
