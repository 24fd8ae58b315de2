ghost use Rattle.std.specs.Prelude.{◌≡◌, ◌≢◌, ◌⊎◌, ◌+◌, ◌<◌, ◌≤◌, ◌^◌, true, false, ℕ, List, None, Err, IfNone, IfOk, IfSome, OnErr, OnOk};
ghost use Rattle.pb_devices.specs.Contents.{Folder, IsImage, IsSettled, KeepsOthers};
ghost use Rattle.pb_devices.specs.Counts.{HasCauseAs};
ghost use Rattle.pb_edit.specs.Grammar.{IsEdit};
ghost use Rattle.pb_manifest.specs.Faults.{IsCommitFault, IsManifestFault};
ghost use Rattle.pb_manifest.specs.Found.{HasVersion, IsDamaged, KeepsPayloads, KeepsUnnamed, Names};
ghost use Rattle.pb_manifest.specs.Judged.{Judges};
ghost use Rattle.pb_gate_log.specs.Payloads.{payloads_in};
ghost use Rattle.pb_gate_log.specs.NewFolder.{IsNew};
ghost use Rattle.pb_manifest.specs.Manifest.{EachManifest, EachSays, IsNumbered, KeepsAllBut, SaysFolder, manifest_name};
ghost use Rattle.pb_manifest.specs.Numbers.{IsFolded, IsSpent, OnlyReserves, SameNumbers, block_end, last_block_end, with_next};
ghost use Rattle.pb_manifest.specs.Rotation.{FirstIs, KeepsAllButManifests, SaysAround, is_due, is_mostly_history, next_after, number_after, version_before};
ghost use Rattle.pb_names.specs.Spelling.{current_name};
ghost use Rattle.pb_version.specs.declared.broken.Broken.{Broken};
ghost use Rattle.pb_version.specs.Edited.{edited};
ghost use Rattle.pb_version.specs.Rules.{first_broken};
ghost use Rattle.pb_version.specs.Snapshot.{snapshot_of};
ghost use Rattle.pb_version.specs.Version.{empty_version};
ghost use Rattle.pb_payloads.specs.Current.{pointer_to};

mod rotate;

use crate::append::append;
use crate::create::{first_version, write_manifest};
use crate::numbers::{BLOCK, reserve_below};
use crate::open::{find, read_version};
use crate::{CommitError, ManifestError};
use pb_bytes::NUMBERS;
use pb_devices::Disk;
use pb_edit::Edit;
use pb_gate_log::GateLog;
use pb_payloads::spell_pointer;
use pb_version::Version;
use std::alloc::Global;
use std::marker::Model;

/// An open manifest: the edits of a version in one file of a folder, `CURRENT`, which names that file, and the number that
/// is drawn next.
///
/// Between two calls every image that a power cut may leave of the folder says exactly the version that the caller holds.
/// docs/MODEL.md, "Manifest".
#[derive(Debug, Drop)]
pub struct Manifest {
    number: u64,
    catalogue: u64,
    next: u64,
    first: u64,
    log: GateLog,
    current: GateLog,
}

impl Model for Manifest {
    ghost use Rattle.pb_manifest.specs.Manifest.{ManifestView};

    ghost Value = { ManifestView };

    ghost view = { λ m. record { number = m.number; catalogue = m.catalogue; next = m.next; first = m.first; log = m.log; current = m.current } };
}

impl Manifest {
    /// Makes a manifest of one edit, and then names it and the catalogue in `CURRENT`, which is made or opened where it
    /// stands. It draws `next` first. A rule that the edit breaks is told before any device is called.
    ///
    /// After an error each image has the payloads that `CURRENT` had, or the folder says the version after the edit.
    /// `Spent` never comes.
    pub fn create<D: Disk>(
        alloc: Global,
        disk: &mut D,
        number: u64,
        catalogue: u64,
        next: u64,
        first: &Edit,
    ) -> Result<(Manifest, Version), CommitError>
        requires edit { IsEdit first.now }
        requires number { number < next }
        requires next { IfSome first.now.next (λ end. next ≤ end) }
        requires catalogue { catalogue < 2 ^ 62 }
        requires absent { D.told ≡ true → (D.contents disk.old).seen (manifest_name number) ≡ None }
        requires settled { D.told ≡ true → IsSettled (D.contents disk.old) current_name }
        ensures kept { D.told ≡ true → IfOk result (λ made. EachManifest made.0 made.1 (D.contents disk.new)) }
        ensures version { IfOk result (λ made. made.1 ≡ edited empty_version first.now) }
        ensures numbers { IfOk result (λ made. IsNumbered number catalogue next made.0) }
        ensures folded { IfOk result (λ made. IsFolded made.1) }
        ensures own { IfOk result (λ made. made.0.number < made.1.five.next) }
        ensures low { IfOk result (λ made. (made.0.number < 2 ^ 62) × (made.0.catalogue < 2 ^ 62)) }
        ensures new { IfOk result (λ made. is_mostly_history made.0.log.len made.0.first ≡ false) }
        ensures judged { Judges (first_broken empty_version first.now) result }
        ensures untouched { (rule : Broken) → result ≡ Err (CommitError.Broken rule) → disk.new ≡ disk.old }
        ensures crash { D.told ≡ true → (folder : Folder) → IsImage (D.contents disk.new) folder
            → (payloads_in (folder current_name) ≡ payloads_in ((D.contents disk.old).seen current_name))
            ⊎ SaysFolder number catalogue (edited empty_version first.now) folder }
        ensures others { D.told ≡ true → KeepsAllBut (D.contents disk.old) (D.contents disk.new) (manifest_name number) current_name }
        ensures cause { HasCauseAs IsCommitFault (D.fault_count disk.old) (D.fault_count disk.new) result }
    {
        let (version, edit) = first_version(alloc, first)?;
        let pointer = spell_pointer(alloc, number, catalogue)?;
        let (log, current) = write_manifest(
            alloc,
            disk,
            number,
            edit.as_slice(),
            pointer.as_slice(),
        )?;
        Ok((
            Manifest {
                number,
                catalogue,
                next,
                first: edit.len() as u64,
                log,
                current,
            },
            version,
        ))
    }

    /// Opens the manifest that the last payload of `CURRENT` names, and gives the version that its edits fold to. It shuts the
    /// last gates that stand open or torn; no payload comes or goes, whether it succeeds or fails. What it draws first is the
    /// end of the reserved numbers, so no number is drawn that was drawn before.
    ///
    /// None comes exactly where `CURRENT` is absent or has no payload. `Damaged` comes with `CURRENT` where that payload names
    /// no two files, one of them is absent, or the manifest's own number isn't reserved; and with the manifest's file where
    /// that has no edit, a payload that is none, or an edit that breaks a rule.
    pub fn open<D: Disk>(
        alloc: Global,
        disk: &mut D,
    ) -> Result<Option<(Manifest, Version)>, ManifestError>
        requires { D.told ≡ true → (name : List ℕ) → IsSettled (D.contents disk.old) name }
        ensures none { D.told ≡ true → IfOk result (λ found. IfNone found (IsNew (D.contents disk.old).seen)) }
        ensures names { D.told ≡ true → IfOk result (λ found. IfSome found (λ opened.
            Names (pointer_to opened.0.number opened.0.catalogue) (D.contents disk.old).seen)) }
        ensures version { D.told ≡ true → IfOk result (λ found. IfSome found (λ opened.
            HasVersion opened.0.number opened.0.catalogue opened.1 (D.contents disk.old).seen)) }
        ensures next { IfOk result (λ found. IfSome found (λ opened. opened.0.next ≡ opened.1.five.next)) }
        ensures folded { IfOk result (λ found. IfSome found (λ opened. IsFolded opened.1)) }
        ensures own { IfOk result (λ found. IfSome found (λ opened. opened.0.number < opened.1.five.next)) }
        ensures low { IfOk result (λ found. IfSome found (λ opened. (opened.0.number < 2 ^ 62) × (opened.0.catalogue < 2 ^ 62))) }
        ensures kept { D.told ≡ true → IfOk result (λ found. IfSome found (λ opened. EachManifest opened.0 opened.1 (D.contents disk.new))) }
        ensures damaged { D.told ≡ true → (file : List ℕ) → result ≡ Err (ManifestError.Damaged file)
            → IsDamaged (D.contents disk.old).seen file }
        ensures undamaged { D.told ≡ true → OnOk result ((file : List ℕ) → IsDamaged (D.contents disk.old).seen file → ⊥) }
        ensures settled { D.told ≡ true → OnOk result ((name : List ℕ) → IsSettled (D.contents disk.new) name) }
        ensures crash { D.told ≡ true → KeepsPayloads (D.contents disk.old) (D.contents disk.new) }
        ensures others { D.told ≡ true → KeepsUnnamed (D.contents disk.old) (D.contents disk.new) }
        ensures cause { HasCauseAs IsManifestFault (D.fault_count disk.old) (D.fault_count disk.new) result }
    {
        let Some((current, number, catalogue)) = find(alloc, disk)? else {
            return Ok(None);
        };
        let (log, first, version) = read_version(alloc, disk, number)?;
        let reserved = version.five().next;
        let manifest = Manifest {
            number,
            catalogue,
            next: reserved,
            first,
            log,
            current,
        };
        Ok(Some((manifest, version)))
    }

    /// The manifest's own number: its file is not to be removed.
    pub fn number(&self) -> u64
        ensures { result ≡ self.now.number }
    {
        self.number
    }

    /// The number of the catalogue.
    pub fn catalogue(&self) -> u64
        ensures { result ≡ self.now.catalogue }
    {
        self.catalogue
    }

    /// Commits an edit: six device calls, and 17 before them where a rotation is due, 23 where it needs a block of numbers. Most
    /// of the manifest is history then: a new one is made that begins with a snapshot, `CURRENT` names it, and the old one goes.
    /// docs/FORMATS.md, "Manifest".
    ///
    /// A rule that is broken is told before any device is called. After `NoMemory` the manifest goes on: nothing has changed, or
    /// numbers were drawn for a rotation. After `Disk` the version is as before, perhaps with a block of numbers reserved, and
    /// each image says it, by the old manifest or the new one, or the one after the edit: the manifest is to be opened again.
    /// `Spent` never comes.
    pub fn commit<D: Disk>(
        &mut self,
        alloc: Global,
        disk: &mut D,
        version: &mut Version,
        edit: &Edit,
    ) -> Result<(), CommitError>
        requires edit { IsEdit edit.now }
        requires kept { D.told ≡ true → EachManifest self.old version.old (D.contents disk.old) }
        requires unmade { D.told ≡ true → is_due self.old version.old edit.now ≡ true
            → (D.contents disk.old).seen (manifest_name self.old.next) ≡ None }
        ensures ok { OnOk result (version.new ≡ edited (version_before self.old version.old edit.now) edit.now) }
        ensures turned { OnOk result (self.new.number ≡ number_after self.old version.old edit.now) }
        ensures drawn { OnOk result (self.new.next ≡ next_after self.old version.old edit.now) }
        ensures catalogue { self.new.catalogue ≡ self.old.catalogue }
        ensures same { OnErr result ((self.new.number ≡ self.old.number) × (self.old.next ≤ self.new.next) × OnlyReserves version.old version.new) }
        ensures judged { Judges (first_broken version.old edit.now) result }
        ensures untouched { OnErr result (first_broken version.old edit.now ≢ None
            → (disk.new ≡ disk.old) × (self.new ≡ self.old) × (version.new ≡ version.old)) }
        ensures folded { IsFolded version.old → IsFolded version.new }
        ensures reserved { self.old.next ≤ version.old.five.next → self.new.next ≤ version.new.five.next }
        ensures kept { D.told ≡ true → (result ≡ Err CommitError.Disk → ⊥) → EachManifest self.new version.new (D.contents disk.new) }
        ensures first { D.told ≡ true → OnOk result (is_due self.old version.old edit.now ≡ true
            → FirstIs (D.contents disk.new).seen self.new.number (snapshot_of (version_before self.old version.old edit.now))) }
        ensures crash { D.told ≡ true → (folder : Folder) → IsImage (D.contents disk.new) folder
            → SaysAround self.old version.old edit.now folder }
        ensures others { D.told ≡ true → KeepsAllButManifests (D.contents disk.old) (D.contents disk.new) self.old.number self.old.next }
        ensures plain { D.told ≡ true → (is_due self.old version.old edit.now ≡ true → ⊥)
            → KeepsOthers (D.contents disk.old) (D.contents disk.new) (manifest_name self.old.number) }
        ensures in_place { D.told ≡ true → (is_due self.old version.old edit.now ≡ true → ⊥)
            → EachSays self.old.number self.old.catalogue version.old (edited version.old edit.now) (D.contents disk.new) }
        ensures cause { HasCauseAs IsCommitFault (D.fault_count disk.old) (D.fault_count disk.new) result }
    {
        if self.is_due(version, edit) {
            self.commit_and_rotate(alloc, disk, version, edit)?;
            return Ok(());
        }
        self.commit_in_place(alloc, disk, version, edit)?;
        Ok(())
    }

    /// Draws numbers that follow one another from the answer, as many as are asked for. Where the reserved ones don't reach,
    /// blocks of `BLOCK` numbers are reserved before, one by one, each by an edit of its own.
    ///
    /// After an error none is drawn, and the blocks that were reserved stay so. `Spent` comes exactly where the last block
    /// that is wanted would end at 2^62 or above; then all that end below it are reserved. After `Disk` the manifest is to be
    /// opened again. `Broken` never comes behind a first edit.
    pub fn draw<D: Disk>(
        &mut self,
        alloc: Global,
        disk: &mut D,
        version: &mut Version,
        count: u64,
    ) -> Result<u64, CommitError>
        requires { D.told ≡ true → EachManifest self.old version.old (D.contents disk.old) }
        ensures first { IfOk result (λ first. first ≡ self.old.next) }
        ensures drawn { OnOk result (self.new.next ≡ self.old.next + count) }
        ensures undrawn { OnErr result (self.new.next ≡ self.old.next) }
        ensures numbers { (self.new.number ≡ self.old.number) × (self.new.catalogue ≡ self.old.catalogue) }
        ensures only { OnlyReserves version.old version.new }
        ensures folded { IsFolded version.old → IsFolded version.new }
        ensures reserved { OnOk result (self.new.next ≤ version.new.five.next) }
        ensures ends { OnOk result (version.new.five.next ≡ block_end version.old.five.next (self.old.next + count)) }
        ensures full { result ≡ Err CommitError.Spent → version.new.five.next ≡ last_block_end version.old.five.next }
        ensures spent { result ≡ Err CommitError.Spent → IsSpent version.old.five.next (self.old.next + count) }
        ensures unspent { OnOk result (IsSpent version.old.five.next (self.old.next + count) → ⊥) }
        ensures unbroken { version.old.five.format ≢ 0 → (rule : Broken) → result ≡ Err (CommitError.Broken rule) → ⊥ }
        ensures kept { D.told ≡ true → (result ≡ Err CommitError.Disk → ⊥) → EachManifest self.new version.new (D.contents disk.new) }
        ensures crash { D.told ≡ true
            → EachSays self.old.number self.old.catalogue version.new (with_next (version.new.five.next + 64) version.new) (D.contents disk.new) }
        ensures others { D.told ≡ true → KeepsOthers (D.contents disk.old) (D.contents disk.new) (manifest_name self.old.number) }
        ensures cause { HasCauseAs IsCommitFault (D.fault_count disk.old) (D.fault_count disk.new) result }
    {
        let first = self.next;
        // A number is drawn only once its block is in every image.
        if let Err(error) = self.reserve(alloc, disk, version, first.saturating_add(count)) {
            return Err(error);
        }
        let Some(next) = first.checked_add(count) else {
            return Err(CommitError::Spent);
        };
        self.next = next;
        Ok(first)
    }

    // Reserves blocks until the numbers below the end are reserved.
    fn reserve<D: Disk>(
        &mut self,
        alloc: Global,
        disk: &mut D,
        version: &mut Version,
        end: u64,
    ) -> Result<(), CommitError>
        requires { D.told ≡ true → EachManifest self.old version.old (D.contents disk.old) }
        ensures numbers { SameNumbers self.old self.new }
        ensures only { OnlyReserves version.old version.new }
        ensures folded { IsFolded version.old → IsFolded version.new }
        ensures reached { OnOk result ((end ≤ version.new.five.next) × (version.new.five.next < 2 ^ 62)) }
        ensures ends { OnOk result (version.new.five.next ≡ block_end version.old.five.next end) }
        ensures full { result ≡ Err CommitError.Spent → version.new.five.next ≡ last_block_end version.old.five.next }
        ensures spent { result ≡ Err CommitError.Spent → IsSpent version.old.five.next end }
        ensures unspent { OnOk result (IsSpent version.old.five.next end → ⊥) }
        ensures unbroken { version.old.five.format ≢ 0 → (rule : Broken) → result ≡ Err (CommitError.Broken rule) → ⊥ }
        ensures kept { D.told ≡ true → (result ≡ Err CommitError.Disk → ⊥) → EachManifest self.new version.new (D.contents disk.new) }
        ensures crash { D.told ≡ true
            → EachSays self.old.number self.old.catalogue version.new (with_next (version.new.five.next + 64) version.new) (D.contents disk.new) }
        ensures others { D.told ≡ true → KeepsOthers (D.contents disk.old) (D.contents disk.new) (manifest_name self.old.number) }
        ensures cause { HasCauseAs IsCommitFault (D.fault_count disk.old) (D.fault_count disk.new) result }
    {
        while version.five().next < end {
            self.reserve_block(alloc, disk, version)?;
        }
        Ok(())
    }

    fn reserve_block<D: Disk>(
        &mut self,
        alloc: Global,
        disk: &mut D,
        version: &mut Version,
    ) -> Result<(), CommitError>
        requires { D.told ≡ true → EachManifest self.old version.old (D.contents disk.old) }
        ensures numbers { SameNumbers self.old self.new }
        ensures ok { OnOk result (version.new ≡ with_next (version.old.five.next + 64) version.old) }
        ensures low { OnOk result (version.old.five.next + 64 < 2 ^ 62) }
        ensures folded { OnOk result (IsFolded version.old → IsFolded version.new) }
        ensures same { OnErr result (version.new ≡ version.old) }
        ensures spent { result ≡ Err CommitError.Spent → 2 ^ 62 ≤ version.old.five.next + 64 }
        ensures unbroken { version.old.five.format ≢ 0 → (rule : Broken) → result ≡ Err (CommitError.Broken rule) → ⊥ }
        ensures kept { D.told ≡ true → (result ≡ Err CommitError.Disk → ⊥) → EachManifest self.new version.new (D.contents disk.new) }
        ensures crash { D.told ≡ true
            → EachSays self.old.number self.old.catalogue version.new (with_next (version.new.five.next + 64) version.new) (D.contents disk.new) }
        ensures others { D.told ≡ true → KeepsOthers (D.contents disk.old) (D.contents disk.new) (manifest_name self.old.number) }
        ensures cause { HasCauseAs IsCommitFault (D.fault_count disk.old) (D.fault_count disk.new) result }
    {
        let next = version.five().next;
        if next >= NUMBERS - BLOCK {
            return Err(CommitError::Spent);
        }
        let edit = reserve_below(alloc, next + BLOCK);
        match self.commit_in_place(alloc, disk, version, &edit) {
            Ok(()) => Ok(()),
            Err(error) => Err(error),
        }
    }

    // Commits an edit to the manifest as it stands: six device calls. Where a rule is broken, and without memory, nothing has
    // changed. After `Disk` the version is as before, and each image says it or the one after the edit.
    fn commit_in_place<D: Disk>(
        &mut self,
        alloc: Global,
        disk: &mut D,
        version: &mut Version,
        edit: &Edit,
    ) -> Result<(), CommitError>
        requires edit { IsEdit edit.now }
        requires kept { D.told ≡ true → EachManifest self.old version.old (D.contents disk.old) }
        ensures kept { D.told ≡ true → OnOk result (EachManifest self.new version.new (D.contents disk.new)) }
        ensures ok { OnOk result (version.new ≡ edited version.old edit.now) }
        ensures folded { OnOk result (IsFolded version.old → IsFolded version.new) }
        ensures judged { Judges (first_broken version.old edit.now) result }
        ensures numbers { SameNumbers self.old self.new }
        ensures same { OnErr result ((self.new ≡ self.old) × (version.new ≡ version.old)) }
        ensures untouched { OnErr result ((result ≡ Err CommitError.Disk) ⊎ (disk.new ≡ disk.old)) }
        ensures crash { D.told ≡ true
            → EachSays self.old.number self.old.catalogue version.old (edited version.old edit.now) (D.contents disk.new) }
        ensures others { D.told ≡ true → KeepsOthers (D.contents disk.old) (D.contents disk.new) (manifest_name self.old.number) }
        ensures cause { HasCauseAs IsCommitFault (D.fault_count disk.old) (D.fault_count disk.new) result }
    {
        // All that may be refused, and all memory, comes before the append: behind it nothing may fail.
        let prepared = version.prepare(alloc, edit)?;
        let payload = edit.spell(alloc)?;
        append(&mut self.log, disk, payload.as_slice())?;
        version.install(prepared);
        Ok(())
    }
}
