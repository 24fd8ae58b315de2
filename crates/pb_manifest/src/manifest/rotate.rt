ghost use Rattle.std.specs.Prelude.{◌≡◌, ◌≢◌, ◌⊎◌, ◌+◌, ◌<◌, ◌≤◌, ◌^◌, ◌∷◌, [], true, ℕ, None, Err, IfErr, IfOk, OnErr, OnOk, length};
ghost use Rattle.pb_devices.specs.Contents.{Folder, IsImage, KeepsOthers};
ghost use Rattle.pb_devices.specs.Counts.{HasCause, HasCauseAs};
ghost use Rattle.pb_edit.specs.Grammar.{IsEdit, edit_spelling};
ghost use Rattle.pb_gate_log.specs.EachLog.{EachLog};
ghost use Rattle.pb_manifest.specs.Faults.{IsCommitFault};
ghost use Rattle.pb_manifest.specs.Judged.{Judges};
ghost use Rattle.pb_manifest.specs.Manifest.{EachManifest, SaysFolder, manifest_name};
ghost use Rattle.pb_manifest.specs.Numbers.{IsFolded, OnlyReserves, SameNumbers, with_next};
ghost use Rattle.pb_manifest.specs.Rotation.{EachSaysBy, FirstIs, KeepsAllButManifests, SaysAround, SaysOne, end_behind_draw, is_due, turned_to};
ghost use Rattle.pb_version.specs.Edited.{edited};
ghost use Rattle.pb_version.specs.Rules.{first_broken};
ghost use Rattle.pb_version.specs.SaysVersion.{SaysVersion};
ghost use Rattle.pb_version.specs.Snapshot.{snapshot_of};
ghost use Rattle.pb_version.specs.State.{IsVersion, Prepares};

use super::Manifest;
use crate::CommitError;
use crate::append::append;
use crate::create::make_log;
use crate::rotation::{does_more, is_mostly_history, may_draw};
use pb_devices::{Disk, Failed};
use pb_edit::Edit;
use pb_gate_log::GateLog;
use pb_names::{FileKind, file};
use pb_payloads::spell_pointer;
use pb_version::{Prepared, Version};
use std::alloc::{AllocError, Global};

impl Manifest {
    /// Whether a commit of the edit rotates the manifest.
    pub(super) fn is_due(&self, version: &Version, edit: &Edit) -> bool
        ensures { result ≡ is_due self.now version.now edit.now }
    {
        let five = version.five();
        is_mostly_history(self.log.len(), self.first)
            && five.format != 0
            && does_more(edit)
            && may_draw(self.next, five.next, edit)
    }

    /// Draws a number, and commits an edit to a new manifest of that number. The block that the draw may need is reserved by
    /// the old manifest.
    pub(super) fn commit_and_rotate<D: Disk>(
        &mut self,
        alloc: Global,
        disk: &mut D,
        version: &mut Version,
        edit: &Edit,
    ) -> Result<(), CommitError>
        requires edit { IsEdit edit.now }
        requires due { is_due self.old version.old edit.now ≡ true }
        requires kept { D.told ≡ true → EachManifest self.old version.old (D.contents disk.old) }
        requires unmade { D.told ≡ true → (D.contents disk.old).seen (manifest_name self.old.next) ≡ None }
        ensures ok { OnOk result (version.new ≡ edited (with_next (end_behind_draw self.old version.old) version.old) edit.now) }
        ensures turned { OnOk result (self.new.number ≡ self.old.next) }
        ensures drawn { OnOk result (self.new.next ≡ self.old.next + 1) }
        ensures catalogue { self.new.catalogue ≡ self.old.catalogue }
        ensures same { OnErr result ((self.new.number ≡ self.old.number) × (self.old.next ≤ self.new.next) × OnlyReserves version.old version.new) }
        ensures judged { Judges (first_broken version.old edit.now) result }
        ensures untouched { OnErr result (first_broken version.old edit.now ≢ None
            → (disk.new ≡ disk.old) × (self.new ≡ self.old) × (version.new ≡ version.old)) }
        ensures folded { IsFolded version.old → IsFolded version.new }
        ensures reserved { self.old.next ≤ version.old.five.next → self.new.next ≤ version.new.five.next }
        ensures kept { D.told ≡ true → (result ≡ Err CommitError.Disk → ⊥) → EachManifest self.new version.new (D.contents disk.new) }
        ensures first { D.told ≡ true → OnOk result (FirstIs (D.contents disk.new).seen self.old.next
            (snapshot_of (with_next (end_behind_draw self.old version.old) version.old))) }
        ensures crash { D.told ≡ true → (folder : Folder) → IsImage (D.contents disk.new) folder
            → SaysAround self.old version.old edit.now folder }
        ensures others { D.told ≡ true → KeepsAllButManifests (D.contents disk.old) (D.contents disk.new) self.old.number self.old.next }
        ensures cause { HasCauseAs IsCommitFault (D.fault_count disk.old) (D.fault_count disk.new) result }
    {
        // What breaks a rule is told before a number is drawn.
        version.prepare(alloc, edit)?;
        let number = match self.draw(alloc, disk, version, 1) {
            Ok(number) => number,
            Err(error) => return Err(error),
        };
        self.commit_to(alloc, disk, version, edit, number)?;
        Ok(())
    }

    /// Commits an edit to a new manifest of this number, which begins with a snapshot of the version. Where memory is wanting
    /// the manifest goes on; after `Disk` each image says the version by the old manifest or by the new one, or the version
    /// after the edit by the new one.
    pub(super) fn commit_to<D: Disk>(
        &mut self,
        alloc: Global,
        disk: &mut D,
        version: &mut Version,
        edit: &Edit,
        number: u64,
    ) -> Result<(), CommitError>
        requires edit { IsEdit edit.now }
        requires unbroken { first_broken version.old edit.now ≡ None }
        requires begun { version.old.five.format ≢ 0 }
        requires low { number < 2 ^ 62 }
        requires own { number < version.old.five.next }
        requires kept { D.told ≡ true → EachManifest self.old version.old (D.contents disk.old) }
        requires unmade { D.told ≡ true → (D.contents disk.old).seen (manifest_name number) ≡ None }
        ensures ok { OnOk result (version.new ≡ edited version.old edit.now) }
        ensures turned { OnOk result (self.new.number ≡ number) }
        ensures numbers { (self.new.catalogue ≡ self.old.catalogue) × (self.new.next ≡ self.old.next) }
        ensures same { OnErr result ((self.new.number ≡ self.old.number) × (version.new ≡ version.old)) }
        ensures kept { D.told ≡ true → (result ≡ Err CommitError.Disk → ⊥) → EachManifest self.new version.new (D.contents disk.new) }
        ensures first { D.told ≡ true → OnOk result (FirstIs (D.contents disk.new).seen number (snapshot_of version.old)) }
        ensures crash { D.told ≡ true → (folder : Folder) → IsImage (D.contents disk.new) folder
            → SaysOne self.old.number number self.old.catalogue version.old (edited version.old edit.now) folder }
        ensures others { D.told ≡ true → KeepsAllButManifests (D.contents disk.old) (D.contents disk.new) self.old.number number }
        ensures judged { Judges (first_broken version.old edit.now) result }
        ensures cause { HasCauseAs IsCommitFault (D.fault_count disk.old) (D.fault_count disk.new) result }
    {
        // All memory is taken before the entry of `CURRENT`: behind it nothing may fail but the disk.
        let prepared = ready(alloc, version, edit)?;
        let payload = edit.spell(alloc)?;
        let (mut log, first) = self.rotate(alloc, disk, version, number)?;
        append(&mut log, disk, payload.as_slice())?;
        self.number = number;
        self.first = first;
        self.log = log;
        version.install(prepared);
        Ok(())
    }

    /// Makes a manifest of this number with a snapshot of the version, names it in `CURRENT` and removes the old one. Gives its
    /// log, and the length of the snapshot.
    fn rotate<D: Disk>(
        &mut self,
        alloc: Global,
        disk: &mut D,
        version: &Version,
        number: u64,
    ) -> Result<(GateLog, u64), CommitError>
        requires begun { version.now.five.format ≢ 0 }
        requires low { number < 2 ^ 62 }
        requires own { number < version.now.five.next }
        requires kept { D.told ≡ true → EachManifest self.old version.now (D.contents disk.old) }
        requires unmade { D.told ≡ true → (D.contents disk.old).seen (manifest_name number) ≡ None }
        ensures numbers { SameNumbers self.old self.new }
        ensures form { OnOk result (IsVersion version.now) }
        ensures gate { IfOk result (λ turned. turned.0.gate ≤ 18874373) }
        ensures kept { D.told ≡ true → IfOk result (λ turned. EachManifest (turned_to number turned self.new) version.now (D.contents disk.new)) }
        ensures first { D.told ≡ true → IfOk result (λ turned. EachLog turned.0 (edit_spelling (snapshot_of version.now) ∷ []) (D.contents disk.new)) }
        ensures wanting { D.told ≡ true → result ≡ Err CommitError.NoMemory → EachManifest self.new version.now (D.contents disk.new) }
        ensures crash { D.told ≡ true → EachSaysBy self.old.number number self.old.catalogue version.now (D.contents disk.new) }
        ensures others { D.told ≡ true → KeepsAllButManifests (D.contents disk.old) (D.contents disk.new) self.old.number number }
        ensures known { IfErr result (λ error. (error ≡ CommitError.Disk) ⊎ (error ≡ CommitError.NoMemory)) }
        ensures cause { HasCauseAs IsCommitFault (D.fault_count disk.old) (D.fault_count disk.new) result }
    {
        let snapshot = spell_snapshot(alloc, version)?;
        let pointer = spell_pointer(alloc, number, self.catalogue)?;
        // The new manifest stands whole before `CURRENT` names it, and the old one stays until then.
        let log = make_log(disk, file(FileKind::Manifest, number), snapshot.as_slice())?;
        append(&mut self.current, disk, pointer.as_slice())?;
        remove_manifest(disk, self.number)?;
        Ok((log, snapshot.len() as u64))
    }
}

/// Makes an edit ready that breaks no rule, so that memory alone may be wanting.
fn ready(alloc: Global, version: &Version, edit: &Edit) -> Result<Prepared, AllocError>
    requires edit { IsEdit edit.now }
    requires unbroken { first_broken version.now edit.now ≡ None }
    ensures { IfOk result (Prepares version.now edit.now) }
{
    match version.prepare(alloc, edit) {
        Ok(prepared) => Ok(prepared),
        Err(_) => Err(AllocError),
    }
}

/// The payload that makes a version anew, which had its first edit.
fn spell_snapshot(alloc: Global, version: &Version) -> Result<Vec<u8>, AllocError>
    requires { version.now.five.format ≢ 0 }
    ensures spelled { IfOk result (λ bytes. bytes.items ≡ edit_spelling (snapshot_of version.now)) }
    ensures says { IfOk result (λ bytes. SaysVersion (bytes.items ∷ []) version.now) }
    ensures short { IfOk result (λ bytes. length bytes.items ≤ 18874368) }
{
    let snapshot = version.snapshot(alloc)?;
    let bytes = snapshot.spell(alloc)?;
    Ok(bytes)
}

fn remove_manifest<D: Disk>(disk: &mut D, number: u64) -> Result<(), Failed>
    ensures others { D.told ≡ true → KeepsOthers (D.contents disk.old) (D.contents disk.new) (manifest_name number) }
    ensures cause { HasCause (D.fault_count disk.old) (D.fault_count disk.new) result }
{
    let name = file(FileKind::Manifest, number);
    disk.remove(name.as_str())?;
    Ok(())
}
