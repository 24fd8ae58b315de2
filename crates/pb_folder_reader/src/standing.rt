ghost use Rattle.std.specs.Prelude.{◌≡◌, ◌↔◌, ℕ, List, [], IsTrue, IfErr, IfOk};
ghost use Rattle.pb_folder.specs.Listed.{folder_of, objects_of};
ghost use Rattle.pb_folder.specs.StandsFor.{Means, StandsFor};
ghost use Rattle.pb_folder_reader.specs.AtFault.{IsAtFault};
ghost use Rattle.pb_folder_reader.specs.Faults.{IfDamaged};
ghost use Rattle.pb_gate_log.specs.Payloads.{HasPayloads};
ghost use Rattle.pb_keys.specs.Map.{Map};
ghost use Rattle.pb_names.specs.Spelling.{current_name};
ghost use Rattle.pb_payloads.specs.Current.{SaysCurrent, pointer_to};

use super::entered::Entered;
use super::meaning::{apply_log, count_of, map_of};
use super::payloads::payloads_in;
use super::tables::shown_by;
use super::{Fault, File, Pairs, said_by};
use pb_names::{FileKind, current, file};
use pb_payloads::last_pointer;
use std::alloc::Global;

/// The count and the map that the folder stands for beside these objects, as one of the store with this id. A file is told
/// exactly where the folder stands for nothing, and that file is at fault.
pub fn stands(
    alloc: Global,
    files: &[File],
    objects: &[File],
    id: u64,
) -> Result<(u64, Pairs), Fault>
    ensures ok { IfOk result (λ found. StandsFor (folder_of files.now) (objects_of objects.now) id found.0 found.1) }
    ensures fault { IfErr result (λ fault. IfDamaged fault (IsAtFault (folder_of files.now) (objects_of objects.now) id)) }
    ensures err { IfErr result (λ fault. IfDamaged fault (λ file. (n : ℕ) (m : Map)
        → StandsFor (folder_of files.now) (objects_of objects.now) id n m → ⊥)) }
{
    match current_stands(alloc, files, objects, id) {
        Ok(found) => Ok(found),
        Err(fault) => Err(fault),
    }
}

fn current_stands(
    alloc: Global,
    files: &[File],
    objects: &[File],
    id: u64,
) -> Result<(u64, Pairs), Fault>
    ensures ok { IfOk result (λ found. StandsFor (folder_of files.now) (objects_of objects.now) id found.0 found.1) }
    ensures fault { IfErr result (λ fault. IfDamaged fault (IsAtFault (folder_of files.now) (objects_of objects.now) id)) }
{
    let Some(payloads) = payloads_in(alloc, files, &current())? else {
        return Ok((0, Pairs::new(alloc)));
    };
    if payloads.is_empty() {
        return Ok((0, Pairs::new(alloc)));
    }
    let Some((manifest, catalogue)) = last_pointer(&payloads) else {
        return Err(Fault::Damaged(current()));
    };
    let found = named_stands(alloc, files, objects, manifest, catalogue, id)?;
    Ok(found)
}

// An entry that stands is judged last, so that its bytes were looked for.
fn named_stands(
    alloc: Global,
    files: &[File],
    objects: &[File],
    manifest: u64,
    catalogue: u64,
    id: u64,
) -> Result<(u64, Pairs), Fault>
    requires { HasPayloads (folder_of files.now) current_name (λ list. SaysCurrent list (pointer_to manifest catalogue)) }
    ensures ok { IfOk result (λ found. Means (folder_of files.now) (objects_of objects.now) id found.0 found.1) }
    ensures fault { IfErr result (λ fault. IfDamaged fault (IsAtFault (folder_of files.now) (objects_of objects.now) id)) }
{
    let said = said_by(alloc, files, manifest, catalogue, id)?;
    let shown = shown_by(alloc, files, objects, &said.entries, &said.version)?;
    if !are_none(&said.entries) {
        return Err(Fault::Damaged(file(FileKind::Catalogue, catalogue)));
    }
    let mut pairs = map_of(alloc, &shown)?;
    apply_log(alloc, &mut pairs, &said.log)?;
    Ok((count_of(&said), pairs))
}

fn are_none(entries: &[Entered]) -> bool
    ensures { IsTrue result ↔ (entries.now ≡ []) }
{
    entries.is_empty()
}
