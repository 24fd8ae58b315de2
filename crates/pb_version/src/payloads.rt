//! The version that the payloads of a manifest say.
ghost use Rattle.std.specs.Prelude.{◌≡◌, true, false, None, IfNone, IfOk, IfSome};
ghost use Rattle.pb_edit.specs.Edit.{VersionEdit};
ghost use Rattle.pb_edit.specs.Grammar.{IsEdit, edit_spelling};
ghost use Rattle.pb_version.specs.Follows.{Follows};
ghost use Rattle.pb_version.specs.Rules.{first_broken};
ghost use Rattle.pb_version.specs.SaysVersion.{SaysVersion};
ghost use Rattle.pb_version.specs.Version.{VersionView};

use super::{Broken, Version};
use pb_edit::Edit;
use pb_keys::Bytes;
use std::alloc::{AllocError, Global};

impl Version {
    /// The version that the edits of a manifest fold to. None exactly where they say none: there is no payload, one is no
    /// edit, or an edit breaks a rule.
    pub fn of_payloads(alloc: Global, payloads: &[Bytes]) -> Result<Option<Version>, AllocError>
        ensures some { IfOk result (λ found. IfSome found (λ version. SaysVersion payloads.now version)) }
        ensures none { IfOk result (λ found. IfNone found ((version : VersionView) → SaysVersion payloads.now version → ⊥)) }
    {
        if payloads.is_empty() {
            return Ok(None);
        }
        let mut version = Version::empty(alloc);
        for payload in payloads {
            if !follow(alloc, &mut version, payload.as_slice())? {
                return Ok(None);
            }
        }
        Ok(Some(version))
    }
}

/// Applies the edit that a payload spells. False where it spells none or the edit breaks a rule.
fn follow(alloc: Global, version: &mut Version, payload: &[u8]) -> Result<bool, AllocError>
    ensures yes { IfOk result (λ applied. applied ≡ true → Follows payload.now version.old version.new) }
    ensures no { IfOk result (λ applied. applied ≡ false → (edit : VersionEdit) → IsEdit edit → payload.now ≡ edit_spelling edit
        → first_broken version.old edit ≡ None → ⊥) }
{
    let Some(edit) = Edit::decode(alloc, payload)? else {
        return Ok(false);
    };
    match version.apply(alloc, &edit) {
        Ok(()) => Ok(true),
        Err(broken) => refused(broken),
    }
}

// An edit that was refused wasn't applied.
fn refused(broken: Broken) -> Result<bool, AllocError>
    ensures { IfOk result (λ applied. (applied ≡ false) × (broken ≡ Broken.NoMemory → ⊥)) }
{
    match broken {
        Broken::NoMemory => Err(AllocError),
        _ => Ok(false),
    }
}
