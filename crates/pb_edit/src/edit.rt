ghost use Rattle.std.specs.Prelude.{◌≡◌, ◌++◌, IfOk, IfNone, IfSome, OnErr, OnOk};
ghost use Rattle.pb_edit.specs.Edit.{VersionEdit};
ghost use Rattle.pb_edit.specs.Grammar.{number_item, numbers_spelling, lists_spelling, edit_spelling, IsEdit};
ghost use Rattle.pb_edit.specs.Reading.{Gives, numbers_at, lists_at, edit_at};

use super::item::{put_items, read_items};
use super::read::{ReadError, optional_of};
use super::{Backings, Deletions, Numbers, Physicals, Virtuals};
use pb_bytes::put_varint;
use std::alloc::{AllocError, Global};
use std::marker::Model;

/// An edit of a version: a payload of a manifest. Contracts see it as the record of its fields: docs/MODEL.md, "Edits".
#[derive(Debug, Drop)]
pub struct Edit {
    /// The count of accepted commands.
    pub accepted: Option<u64>,
    /// The end of the reserved numbers: those below it are reserved.
    pub next: Option<u64>,
    /// The number of the log.
    pub log: Option<u64>,
    /// The count of the last command that is in tables alone.
    pub flushed: Option<u64>,
    /// The level of the format.
    pub format: Option<u64>,
    pub deleted: Deletions,
    pub physical: Physicals,
    pub virtuals: Virtuals,
    pub created: Backings,
    pub removed: Numbers,
}

impl Model for Edit {
    ghost use Rattle.pb_edit.specs.Edit.{VersionEdit};

    ghost Value = { VersionEdit };

    ghost view = { λ e. record {
      accepted = e.accepted;
      next = e.next;
      log = e.log;
      flushed = e.flushed;
      format = e.format;
      deleted = e.deleted;
      physical = e.physical;
      virtuals = e.virtuals;
      created = e.created;
      removed = e.removed;
    } };
}

impl Edit {
    /// Appends the one spelling of the edit: docs/FORMATS.md, "Edits". Without memory `out` is as before.
    pub fn encode(&self, alloc: Global, out: &mut Vec<u8>) -> Result<(), AllocError>
        requires { IsEdit self.now }
        ensures ok { OnOk result (out.new.items ≡ out.old.items ++ edit_spelling self.now) }
        ensures err { OnErr result (out.new.items ≡ out.old.items) }
    {
        // The edit is spelled apart, so that `out` changes at once or not at all.
        let spelling = spell(alloc, self)?;
        out.extend_from_slice(spelling.as_slice())?;
        Ok(())
    }

    /// The edit that the bytes spell, all of the bytes. None exactly where they spell none: docs/FORMATS.md, "Edits".
    pub fn decode(alloc: Global, from: &[u8]) -> Result<Option<Edit>, AllocError>
        ensures found { IfOk result (λ read. IfSome read (λ edit. IsEdit edit × (from.now ≡ edit_spelling edit))) }
        ensures none { IfOk result (λ read. IfNone read ((edit : VersionEdit) → IsEdit edit → from.now ≡ edit_spelling edit → ⊥)) }

        // The same as a function of the bytes.
        ensures exact { IfOk result (λ read. read ≡ edit_at from.now) }
    {
        match read_edit(alloc, from) {
            Ok(edit) => Ok(Some(edit)),
            Err(ReadError::Off) => Ok(None),
            Err(ReadError::NoMemory) => Err(AllocError),
        }
    }
}

#[tactic(auto, unfolding(crate::specs::Grammar::edit_spelling))]
fn spell(alloc: Global, edit: &Edit) -> Result<Vec<u8>, AllocError>
    ensures ok { IfOk result (λ spelling. spelling.items ≡ edit_spelling edit.now) }
{
    let mut out = Vec::new(alloc);
    put_numbers(alloc, &mut out, edit)?;
    put_lists(alloc, &mut out, edit)?;
    Ok(out)
}

fn put_numbers(alloc: Global, out: &mut Vec<u8>, edit: &Edit) -> Result<(), AllocError>
    ensures ok { OnOk result (out.new.items ≡ out.old.items ++ numbers_spelling edit.now) }
{
    put_number(alloc, out, 1, edit.accepted)?;
    put_number(alloc, out, 2, edit.next)?;
    put_number(alloc, out, 3, edit.log)?;
    put_number(alloc, out, 4, edit.flushed)?;
    put_number(alloc, out, 5, edit.format)?;
    Ok(())
}

fn put_lists(alloc: Global, out: &mut Vec<u8>, edit: &Edit) -> Result<(), AllocError>
    ensures ok { OnOk result (out.new.items ≡ out.old.items ++ lists_spelling edit.now) }
{
    put_items(alloc, out, edit.deleted.as_slice())?;
    put_items(alloc, out, edit.physical.as_slice())?;
    put_items(alloc, out, edit.virtuals.as_slice())?;
    put_items(alloc, out, edit.created.as_slice())?;
    put_items(alloc, out, edit.removed.as_slice())?;
    Ok(())
}

fn put_number(
    alloc: Global,
    out: &mut Vec<u8>,
    kind: u8,
    number: Option<u64>,
) -> Result<(), AllocError>
    ensures ok { OnOk result (out.new.items ≡ out.old.items ++ number_item kind number) }
{
    let Some(number) = number else {
        return Ok(());
    };
    out.push(kind)?;
    put_varint(alloc, out, number)?;
    Ok(())
}

#[tactic(auto, unfolding(crate::specs::Reading::edit_at))]
fn read_edit(alloc: Global, from: &[u8]) -> Result<Edit, ReadError>
    ensures { Gives (λ edit. edit) result (edit_at from.now) }
{
    if from.is_empty() {
        return Err(ReadError::Off);
    }
    let (numbers, rest) = read_numbers(alloc, from)?;
    let (edit, rest) = read_lists(alloc, numbers, rest)?;
    if !rest.is_empty() {
        return Err(ReadError::Off);
    }
    Ok(edit)
}

/// The five numbers of an edit, without lists, and what stands behind them.
#[tactic(auto, unfolding(crate::specs::Reading::numbers_at))]
fn read_numbers(alloc: Global, from: &[u8]) -> Result<(Edit, &[u8]), ReadError>
    ensures { Gives (λ read. (read.0, read.1.now)) result (numbers_at from.now) }
{
    let (accepted, rest) = optional_of(1, from)?;
    let (next, rest) = optional_of(2, rest)?;
    let (log, rest) = optional_of(3, rest)?;
    let (flushed, rest) = optional_of(4, rest)?;
    let (format, rest) = optional_of(5, rest)?;
    let numbers = Edit {
        accepted,
        next,
        log,
        flushed,
        format,
        deleted: Deletions::from_vec(Vec::new(alloc)),
        physical: Physicals::from_vec(Vec::new(alloc)),
        virtuals: Virtuals::from_vec(Vec::new(alloc)),
        created: Backings::from_vec(Vec::new(alloc)),
        removed: Numbers::from_vec(Vec::new(alloc)),
    };
    Ok((numbers, rest))
}

/// The edit of these numbers and of the lists that begin the bytes, and what stands behind them.
#[tactic(auto, unfolding(crate::specs::Reading::lists_at))]
fn read_lists(alloc: Global, numbers: Edit, from: &[u8]) -> Result<(Edit, &[u8]), ReadError>
    ensures { Gives (λ read. (read.0, read.1.now)) result (lists_at numbers from.now) }
{
    let (deleted, rest) = read_items(alloc, from)?;
    let (physical, rest) = read_items(alloc, rest)?;
    let (virtuals, rest) = read_items(alloc, rest)?;
    let (created, rest) = read_items(alloc, rest)?;
    let (removed, rest) = read_items(alloc, rest)?;
    let edit = Edit {
        accepted: numbers.accepted,
        next: numbers.next,
        log: numbers.log,
        flushed: numbers.flushed,
        format: numbers.format,
        deleted: Deletions::from_vec(deleted),
        physical: Physicals::from_vec(physical),
        virtuals: Virtuals::from_vec(virtuals),
        created: Backings::from_vec(created),
        removed: Numbers::from_vec(removed),
    };
    Ok((edit, rest))
}
